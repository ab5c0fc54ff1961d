//! Worked days: their files, and their summaries, which were written by hand.
use itch_layouts::Msg;
use std::alloc::Allocator;
use std::test::Fail;
use test_support::{AAPL, MSFT, Ticker, add_entry, system};

// A stock without a directory row.
const UNLISTED: Ticker = Ticker {
    locate: 3,
    symbol: *b"NONE    ",
};

// A stock whose symbol has a quote, a backslash, a space and a line feed.
const ODD: Ticker = Ticker {
    locate: 4,
    symbol: *b"A\"B\\ \n  ",
};

const GOOG: Ticker = Ticker {
    locate: 5,
    symbol: *b"GOOG    ",
};

// The stock of the greatest locate code.
const LAST: Ticker = Ticker {
    locate: u16::MAX,
    symbol: *b"ZZZ     ",
};

// Payloads of no stock: one of a wrong length, which is refused, and one of an unknown type. An end marker and a byte.
const OF_NO_STOCK: &[u8] = b"\x00\x01A\x00\x02zz\x00\x00\xff";

/// A worked day.
#[derive(Debug, Clone, Copy, PartialEq, Eq)]
pub enum Case {
    /// No message.
    Empty,
    /// Messages of no stock alone.
    NoStock,
    /// Stocks with both sides, one, or none, and such without a directory row or with an odd symbol.
    Stocks,
    /// A trade that isn't printed, and is broken, and then once more in vain.
    Broken,
    /// The greatest numbers.
    Greatest,
}

/// All of them.
pub const CASES: [Case; 5] = [
    Case::Empty,
    Case::NoStock,
    Case::Stocks,
    Case::Broken,
    Case::Greatest,
];

// Adds the entries of messages to a file.
fn add_entries<A: Allocator + Copy>(
    alloc: A,
    file: &mut Vec<u8, A>,
    messages: &[Msg],
) -> Result<(), Fail> {
    for msg in messages {
        add_entry(alloc, file, msg)?;
    }
    Ok(())
}

// A stock with both sides, of whose messages two are refused.
fn add_both_sides<A: Allocator + Copy>(alloc: A, file: &mut Vec<u8, A>) -> Result<(), Fail> {
    let messages = [
        AAPL.directory(),
        AAPL.add(1, b'B', 100, 1_500_000),
        AAPL.add(2, b'S', 50, 1_510_000),
        AAPL.add(3, b'B', 30, 1_500_000),
        AAPL.add(4, b'B', 1_000, 1_490_000),
        AAPL.add(5, b'S', 5, 1_520_000),
        AAPL.execute(1, 40, 7),
        AAPL.delete(99),
        AAPL.cancel(1, 1_000),
    ];
    add_entries(alloc, file, &messages)
}

// Stocks with one side, with none, without a directory row, and with an odd symbol.
fn add_others<A: Allocator + Copy>(alloc: A, file: &mut Vec<u8, A>) -> Result<(), Fail> {
    let messages = [
        GOOG.directory(),
        GOOG.add(1, b'S', 10, 100),
        MSFT.directory(),
        UNLISTED.delete(7),
        GOOG.execute(1, 10, 1),
        MSFT.add(1, b'S', 20, 200),
        ODD.directory(),
        system(0, b'C'),
    ];
    add_entries(alloc, file, &messages)
}

// A stock with trades of all kinds, of which one is broken.
fn add_trades<A: Allocator + Copy>(alloc: A, file: &mut Vec<u8, A>) -> Result<(), Fail> {
    let messages = [
        LAST.directory(),
        LAST.add(1, b'B', 100, 10),
        LAST.execute_price(1, 10, 5, b'N', 9),
        LAST.execute_price(1, 20, 6, b'Y', 8),
        LAST.trade(b'B', 5, 11, 8),
        LAST.trade(b'S', 7, 3, 9),
        LAST.broken(9),
        LAST.broken(9),
        LAST.cross(4, 2, 10),
    ];
    add_entries(alloc, file, &messages)
}

impl Case {
    /// The day's file.
    pub fn file<A: Allocator + Copy>(self, alloc: A) -> Result<Vec<u8, A>, Fail> {
        let mut file = Vec::new(alloc);
        match self {
            Case::Empty => {}
            Case::NoStock => {
                add_entries(alloc, &mut file, &[system(0, b'O')])?;
                file.extend_from_slice(OF_NO_STOCK)?;
            }
            Case::Stocks => {
                add_trades(alloc, &mut file)?;
                add_others(alloc, &mut file)?;
                add_both_sides(alloc, &mut file)?;
                file.extend_from_slice(OF_NO_STOCK)?;
            }
            Case::Broken => {
                let messages = [
                    AAPL.directory(),
                    AAPL.add(5, b'S', 50, 1_000_000),
                    AAPL.execute_price(5, 20, 7, b'N', 990_000),
                    AAPL.broken(7),
                    AAPL.broken(7),
                ];
                add_entries(alloc, &mut file, &messages)?;
            }
            Case::Greatest => {
                let messages = [
                    AAPL.directory(),
                    AAPL.cross(u64::MAX, u32::MAX, 1),
                    AAPL.add(u64::MAX, b'B', u32::MAX, u32::MAX),
                    AAPL.add(1, b'B', u32::MAX, u32::MAX),
                ];
                add_entries(alloc, &mut file, &messages)?;
            }
        }
        Ok(file)
    }

    /// Its summary.
    pub fn summary(self) -> &'static [u8] {
        match self {
            Case::Empty | Case::NoStock => HEAD,
            Case::Stocks => STOCKS,
            Case::Broken => BROKEN,
            Case::Greatest => GREATEST,
        }
    }
}

// The names of the fields alone.
const HEAD: &[u8] =
    b"locate,symbol,messages,refused,bid_price,bid_shares,ask_price,ask_shares,orders,trades,shares,notional,unprinted\n";

const STOCKS: &[u8] =
    b"locate,symbol,messages,refused,bid_price,bid_shares,ask_price,ask_shares,orders,trades,shares,notional,unprinted\n\
      1,\"AAPL\",9,2,1500000,90,1510000,50,5,1,40,60000000,0\n\
      2,\"MSFT\",2,0,,,200,20,1,0,0,0,0\n\
      3,,1,1,,,,,0,0,0,0,0\n\
      4,\"A\\x22B\\x5c \\x0a\",1,0,,,,,0,0,0,0,0\n\
      5,\"GOOG\",3,0,,,,,0,1,10,1000,0\n\
      65535,\"ZZZ\",9,1,10,70,,,1,3,29,223,10\n";

const BROKEN: &[u8] =
    b"locate,symbol,messages,refused,bid_price,bid_shares,ask_price,ask_shares,orders,trades,shares,notional,unprinted\n\
      1,\"AAPL\",5,1,,,1000000,30,1,0,0,0,0\n";

const GREATEST: &[u8] =
    b"locate,symbol,messages,refused,bid_price,bid_shares,ask_price,ask_shares,orders,trades,shares,notional,unprinted\n\
      1,\"AAPL\",4,0,4294967295,8589934590,,,2,1,18446744073709551615,79228162495817593515539431425,0\n";
