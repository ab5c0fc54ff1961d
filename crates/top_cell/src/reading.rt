//! What a screen reads.
ghost use Rattle.std.specs.Prelude.{◌≡◌, ◌<◌, ◌^◌, slice_index};
ghost use Rattle.top_cell.specs.Readings.{words_read};

use itch_table::Top;

/// A stock's best bid and ask after one message of a day; zeros where a side is empty.
#[derive(Debug, Clone, Copy, PartialEq, Eq)]
pub struct Reading {
    /// The number of that message in the day, counted from 1; 0 before the first.
    pub message: u32,
    /// The highest price of a bid, in 1/10,000 of a currency unit.
    pub bid_price: u32,
    /// The shares at that bid.
    pub bid_shares: u64,
    /// The lowest price of an ask, in 1/10,000 of a currency unit.
    pub ask_price: u32,
    /// The shares at that ask.
    pub ask_shares: u64,
}

impl Reading {
    // The reading of four words.
    pub(crate) fn of(words: &[u64; 4]) -> Reading
        requires { slice_index words.now 0 < 2 ^ 32 }
        ensures message { result.message ≡ slice_index words.now 0 }
        ensures words { words_read result ≡ words.now }
    {
        let (message, top) = Top::from_words(words);
        Reading {
            message,
            bid_price: top.bid_price,
            bid_shares: top.bid_shares,
            ask_price: top.ask_price,
            ask_shares: top.ask_shares,
        }
    }
}
