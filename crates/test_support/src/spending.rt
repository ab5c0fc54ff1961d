//! A day on which references are asked for again.
use crate::messages::{AAPL, MSFT};
use itch_layouts::{Msg, NonCrossTrade};
use itch_table::{Fault, Outcome};

/// A message of the day, with what becomes of it and which references are spent after it.
#[derive(Clone, Copy)]
pub struct Spending {
    /// The message.
    pub msg: Msg,
    /// What becomes of it.
    pub outcome: Outcome,
    /// The greatest reference that is spent of the first stock, and of the second: they are spent from 1 on, one after
    /// another.
    pub spent: [u64; 2],
}

// A message that is applied.
fn applied(msg: Msg, spent: [u64; 2]) -> Spending {
    Spending {
        msg,
        outcome: Outcome::Applied,
        spent,
    }
}

// A message that is refused, and spends nothing.
fn refused(msg: Msg, fault: Fault, spent: [u64; 2]) -> Spending {
    Spending {
        msg,
        outcome: Outcome::Refused(fault),
        spent,
    }
}

// A trade that names a reference, of an order that wasn't displayed.
fn trade_of(reference: u64) -> Msg {
    match AAPL.trade(b'B', 1, 100, 8) {
        Msg::Trade(head, trade) => Msg::Trade(head, NonCrossTrade { reference, ..trade }),
        other => other,
    }
}

/// The day: an order is replaced, and its reference and those of its replacements are asked for again, also by messages
/// that are refused before that is looked at, and under another stock.
pub fn spent_references() -> [Spending; 15] {
    [
        applied(AAPL.directory(), [0, 0]),
        applied(AAPL.add(1, b'B', 100, 1_500_000), [1, 0]),
        refused(
            AAPL.replace(1, 1, 50, 1_490_000),
            Fault::ReferenceInUse,
            [1, 0],
        ),
        applied(AAPL.replace(1, 2, 50, 1_490_000), [2, 0]),
        refused(AAPL.add(1, b'B', 10, 100), Fault::ReferenceSpent, [2, 0]),
        refused(AAPL.add(2, b'B', 10, 100), Fault::ReferenceInUse, [2, 0]),
        refused(AAPL.replace(2, 1, 0, 100), Fault::ReferenceSpent, [2, 0]),
        refused(AAPL.add(1, b'B', 0, 100), Fault::ZeroShares, [2, 0]),
        refused(AAPL.replace(2, 3, 0, 100), Fault::ZeroShares, [2, 0]),
        applied(AAPL.replace(2, 3, 10, 1_490_000), [3, 0]),
        refused(AAPL.add(2, b'B', 10, 100), Fault::ReferenceSpent, [3, 0]),
        applied(MSFT.directory(), [3, 0]),
        applied(MSFT.add(1, b'B', 10, 100), [3, 1]),
        applied(trade_of(4), [3, 1]),
        applied(AAPL.add(4, b'B', 10, 100), [4, 1]),
    ]
}

/// References that tests of spent ones ask for.
pub const ASKED: [u64; 8] = [0, 1, 2, 3, 4, 5, 1 << 32, u64::MAX];

/// Which of these are spent, where those from 1 to this one are.
pub fn spent_up_to(last: u64) -> [bool; 8] {
    ASKED.map(|reference| reference >= 1 && reference <= last)
}
