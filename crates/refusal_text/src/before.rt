//! What a stock had before a message.

/// What a stock's rows had before a message, as far as the reason of a fault says it.
#[derive(Debug, Clone, Copy, PartialEq, Eq)]
pub struct Before {
    /// The stock's symbol, padded with spaces; spaces alone where there is no directory row.
    pub symbol: [u8; 8],
    /// The shares of the order that the message's first reference names; 0 where none lives.
    pub shares: u32,
}
