//! A worked day, and what is shown of its stocks, which was written by hand.
use binaryfile::{Feed, Limits};
use itch_layouts::{Msg, Nanos};
use itch_readings::{StockFault, StockName};
use itch_show::{Place, show_of_file};
use std::alloc::Allocator;
use std::io::Read;
use std::test::Fail;
use test_support::{AAPL, MSFT, Ticker, add_entry};

// The stock of locate code 3, which has no directory row.
const UNLISTED: Ticker = Ticker {
    locate: 3,
    symbol: *b"        ",
};

/// How many messages the day has.
pub const MESSAGES: u32 = 8;

/// The day's file. Message n is of n - 1 nanoseconds after midnight, but the third of 5. The fifth is of an unknown type, and
/// has no time. After the last entry come three bytes.
pub fn file<A: Allocator + Copy>(alloc: A) -> Result<Vec<u8, A>, Fail> {
    let mut file = Vec::new(alloc);
    let messages: [(Msg, u8); 7] = [
        (AAPL.directory(), 0),
        (MSFT.directory(), 1),
        (AAPL.add(7, b'B', 10, 100), 5),
        (MSFT.add(7, b'S', 20, 200), 3),
        (AAPL.delete(7), 5),
        (UNLISTED.delete(7), 6),
        (AAPL.delete(7), 7),
    ];
    for (index, (message, time)) in messages.iter().enumerate() {
        if index == 4 {
            file.extend_from_slice(b"\x00\x02zz")?;
        }
        let time_at = file.len().saturating_add(12);
        add_entry(alloc, &mut file, message)?;
        if let Some(last) = file.get_mut(time_at) {
            *last = *time;
        }
    }
    file.extend_from_slice(b"\x00\x00\xff")?;
    Ok(file)
}

/// What is shown of a stock at a place.
#[derive(Drop)]
pub struct Shown {
    pub name: StockName,
    pub place: Place,
    pub wanted: Result<&'static [u8], StockFault>,
}

// A stock by its locate code.
const fn code(locate: u16) -> StockName {
    StockName::Locate(locate)
}

/// A stock by its symbol.
pub fn symbol(stock: Ticker) -> StockName {
    StockName::Symbol(stock.symbol)
}

// A time of so many nanoseconds after midnight.
fn at(nanos: u64) -> Place {
    Nanos::new(nanos).map_or(Place::End, Place::At)
}

fn text_at(name: StockName, place: Place, text: &'static [u8]) -> Shown {
    Shown {
        name,
        place,
        wanted: Ok(text),
    }
}

fn fault_at(name: StockName, place: Place, fault: StockFault) -> Shown {
    Shown {
        name,
        place,
        wanted: Err(fault),
    }
}

/// What is shown after so many messages.
pub fn after_messages() -> [Shown; 12] {
    [
        text_at(code(1), Place::After(0), b"at 0 start\nno stock 1\n"),
        fault_at(symbol(AAPL), Place::After(0), StockFault::NoStock),
        fault_at(symbol(MSFT), Place::After(1), StockFault::NoStock),
        text_at(code(2), Place::After(1), b"at 1 applied\nno stock 2\n"),
        text_at(symbol(AAPL), Place::After(3), AAPL_AT_3),
        text_at(symbol(AAPL), Place::After(4), AAPL_AT_4),
        text_at(symbol(MSFT), Place::After(5), MSFT_AT_5),
        text_at(code(3), Place::After(7), b"at 7 refused F2\nno stock 3\n"),
        text_at(symbol(MSFT), Place::After(7), MSFT_AT_7),
        text_at(symbol(AAPL), Place::After(8), AAPL_AT_8),
        fault_at(symbol(AAPL), Place::After(9), StockFault::PastEnd),
        fault_at(
            symbol(UNLISTED),
            Place::After(u32::MAX),
            StockFault::PastEnd,
        ),
    ]
}

/// What is shown at a time, and at the end. Message 3 is later than the fourth: a time stops before it.
pub fn at_times() -> [Shown; 8] {
    [
        text_at(
            code(1),
            at(0),
            b"at 1 applied\nstock 1 \"AAPL\" state none reason none regsho none\ntrades 0 shares 0 notional 0 unprinted 0\n",
        ),
        text_at(code(3), at(4), b"at 2 applied\nno stock 3\n"),
        text_at(
            symbol(MSFT),
            at(4),
            b"at 2 applied\nstock 2 \"MSFT\" state none reason none regsho none\ntrades 0 shares 0 notional 0 unprinted 0\n",
        ),
        text_at(code(3), at(5), b"at 6 applied\nno stock 3\n"),
        text_at(symbol(MSFT), at(6), MSFT_AT_7),
        text_at(symbol(AAPL), at(1 << 47), AAPL_AT_8),
        text_at(symbol(AAPL), Place::End, AAPL_AT_8),
        fault_at(symbol(UNLISTED), Place::End, StockFault::NoStock),
    ]
}

const AAPL_AT_3: &[u8] = b"at 3 applied\nstock 1 \"AAPL\" state none reason none regsho none\n\
    bid 100 10\norder 7 B 10 100 none\ntrades 0 shares 0 notional 0 unprinted 0\n";

const AAPL_AT_4: &[u8] = b"at 4 applied\nstock 1 \"AAPL\" state none reason none regsho none\n\
    bid 100 10\norder 7 B 10 100 none\ntrades 0 shares 0 notional 0 unprinted 0\n";

const AAPL_AT_8: &[u8] = b"at 8 refused F6\nstock 1 \"AAPL\" state none reason none regsho none\n\
    trades 0 shares 0 notional 0 unprinted 0\n";

const MSFT_AT_5: &[u8] = b"at 5 passed\nstock 2 \"MSFT\" state none reason none regsho none\n\
    ask 200 20\norder 7 S 20 200 none\ntrades 0 shares 0 notional 0 unprinted 0\n";

/// What is shown of a stock after a message of another one, which was refused.
pub const MSFT_AT_7: &[u8] =
    b"at 7 refused F2\nstock 2 \"MSFT\" state none reason none regsho none\n\
    ask 200 20\norder 7 S 20 200 none\ntrades 0 shares 0 notional 0 unprinted 0\n";

/// What is shown of what two readers give, by segments of so many bytes, within limits.
pub fn show<A: Allocator + Copy, R: Read, S: Read>(
    alloc: A,
    feed: &mut Feed<R>,
    again: &mut Feed<S>,
    limits: Limits,
    segment: u32,
    name: StockName,
    place: Place,
) -> Result<Result<Vec<u8, A>, StockFault>, Fail> {
    if segment == 0 || segment > 1 << 30 {
        return Err(Fail::new("a segment takes 1 to 2^30 bytes"));
    }
    if limits.bytes > 1 << 40 {
        return Err(Fail::new("a file has 2^40 bytes at most"));
    }
    Ok(show_of_file(alloc, feed, again, limits, segment, name, place))
}
