//! Days for the tests of several crates.
use crate::messages::{AAPL, MSFT, Ticker, payload_of};
use binaryfile::Day;
use itch_layouts::Msg;
use itch_table::{Fault, Outcome};
use std::alloc::Allocator;
use std::test::Fail;

// The stock of locate code 3, which has no directory row.
const UNLISTED: Ticker = Ticker {
    locate: 3,
    symbol: *b"        ",
};

/// Adds the entry of a message to a file.
pub fn add_entry<A: Allocator + Copy>(
    alloc: A,
    file: &mut Vec<u8, A>,
    msg: &Msg,
) -> Result<(), Fail> {
    let payload = payload_of(alloc, msg)?;
    let length = u16::try_from(payload.len()).map_err(|_| Fail::new("a long payload"))?;
    file.extend_from_slice(&length.to_be_bytes())?;
    file.extend_from_slice(&payload)?;
    Ok(())
}

/// The day of a file.
pub fn day_of<A: Allocator + Copy>(alloc: A, file: Vec<u8, A>) -> Result<Day<A>, Fail> {
    Day::from_bytes(alloc, file, u32::MAX).map_err(|_| Fail::new("no day"))
}

/// The day of these messages.
pub fn day_with<A: Allocator + Copy>(alloc: A, messages: &[Msg]) -> Result<Day<A>, Fail> {
    let mut file = Vec::new(alloc);
    for msg in messages {
        add_entry(alloc, &mut file, msg)?;
    }
    day_of(alloc, file)
}

/// Two stocks with a bid each, and deletes of the first one's bid, of an order of no stock, and of that bid again.
pub fn two_stocks<A: Allocator + Copy>(alloc: A) -> Result<Day<A>, Fail> {
    day_with(
        alloc,
        &[
            AAPL.directory(),
            MSFT.directory(),
            AAPL.add(7, b'B', 10, 100),
            MSFT.add(7, b'B', 20, 200),
            AAPL.delete(7),
            UNLISTED.delete(7),
            AAPL.delete(7),
        ],
    )
}

/// What becomes of the messages of [`two_stocks`].
pub const OF_TWO_STOCKS: [Outcome; 7] = [
    Outcome::Applied,
    Outcome::Applied,
    Outcome::Applied,
    Outcome::Applied,
    Outcome::Applied,
    Outcome::Refused(Fault::NoDirectory),
    Outcome::Refused(Fault::ReferenceUnknown),
];

/// One stock with a bid above its ask.
pub fn crossed_book<A: Allocator + Copy>(alloc: A) -> Result<Day<A>, Fail> {
    day_with(
        alloc,
        &[
            AAPL.directory(),
            AAPL.add(1, b'B', 100, 1_010_000),
            AAPL.add(2, b'S', 50, 1_000_000),
        ],
    )
}
