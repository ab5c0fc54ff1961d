//! What is known of a stock beside its book.
ghost use Rattle.std.specs.Prelude.{◌≡◌};
ghost use Rattle.itch_table.specs.World.{status_of};

use itch_layouts::Directory;

/// A stock's trading state.
///
/// Nasdaq TotalView-ITCH 5.0, "Stock Trading Action".
#[derive(Debug, Clone, Copy, PartialEq, Eq)]
pub struct Trading {
    /// The trading state: `H`, `P`, `Q` or `T`.
    pub state: u8,
    /// A reserved byte.
    pub reserved: u8,
    /// The reason of the state, padded on the right with spaces.
    pub reason: [u8; 4],
}

/// What is known of a stock: its directory row, its trading state and its short sale action, where each was reported.
///
/// Nasdaq TotalView-ITCH 5.0, "Stock Related Messages".
#[derive(Debug, Clone, Copy, PartialEq, Eq)]
pub struct Status {
    /// The last directory row.
    pub directory: Option<Directory>,
    /// The last trading state.
    pub trading: Option<Trading>,
    /// The action of the last short sale restriction message.
    pub regsho: Option<u8>,
}

impl Status {
    /// What is known of a stock that has this row, or none.
    pub fn of(known: Option<StockRow>) -> Status
        ensures { result ≡ status_of known }
    {
        match known {
            Some(row) => Status {
                directory: Some(row.directory),
                trading: row.trading,
                regsho: row.regsho,
            },
            None => Status {
                directory: None,
                trading: None,
                regsho: None,
            },
        }
    }
}

/// What is known of a stock that has a directory row.
///
/// Nasdaq TotalView-ITCH 5.0, "Stock Related Messages".
#[derive(Debug, Clone, Copy, PartialEq, Eq)]
pub struct StockRow {
    /// The last directory row.
    pub directory: Directory,
    /// The last trading state, where one was reported.
    pub trading: Option<Trading>,
    /// The action of the last short sale restriction message, where there was one.
    pub regsho: Option<u8>,
}

/// Sums over a stock's trades that no later message broke, in shares and in 1/10,000 of a currency unit.
///
/// They don't wrap: a day has fewer than 2^32 trades, each of at most 2^64 - 1 shares at a price below 2^32.
#[derive(Debug, Clone, Copy, PartialEq, Eq)]
pub struct Totals {
    /// How many trades were printed.
    pub trades: u64,
    /// The shares of the printed trades.
    pub shares: u128,
    /// The printed trades' shares times prices, in 1/10,000 of a currency unit.
    pub notional: u128,
    /// The shares of the trades that weren't printed.
    pub unprinted: u128,
}
