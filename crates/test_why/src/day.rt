//! A worked day, in which each fault occurs, and a call that says what became of one of its messages, and why.
use binaryfile::{Feed, Limits};
use itch_layouts::Msg;
use itch_readings::StockFault;
use itch_why::why_of_file;
use std::alloc::Allocator;
use std::io::Read;
use std::test::Fail;
use test_support::{AAPL, MSFT, Ticker, add_entry, system};

// A stock whose locate code has no directory message.
const UNLISTED: Ticker = Ticker {
    locate: 3,
    symbol: *b"IBM     ",
};

/// Another stock's symbol under the locate code of the first.
pub const RENAMED: Ticker = Ticker {
    locate: 1,
    symbol: *b"MSFT    ",
};

/// How many messages the day has.
pub const MESSAGES: u32 = 37;

// Messages 1 to 28.
fn first_messages() -> [Msg; 28] {
    [
        system(0, b'O'),
        AAPL.directory(),
        MSFT.directory(),
        AAPL.add(7, b'B', 100, 1_010_000),
        MSFT.add_mpid(7, b'S', 50, 200),
        AAPL.execute(7, 150, 1),
        AAPL.execute(7, 30, 9),
        AAPL.cancel(7, 71),
        AAPL.execute_price(7, 10, 9, b'Z', 1_000_000),
        AAPL.execute_price(7, 10, 10, b'N', 1_000_000),
        AAPL.trade(b'B', 5, 1_000_000, 9),
        AAPL.broken(9),
        AAPL.broken(9),
        AAPL.cross(200, 1_005_000, 9),
        AAPL.broken(9),
        MSFT.trade(b'S', 5, 200, 8),
        AAPL.broken(8),
        AAPL.replace(7, 7, 10, 900_000),
        AAPL.replace(7, 8, 40, 990_000),
        AAPL.add_mpid(7, b'S', 10, 300),
        AAPL.replace(8, 7, 10, 900_000),
        AAPL.delete(7),
        AAPL.add(9, b'X', 10, 100),
        AAPL.trade(b'X', 5, 1_000_000, 12),
        AAPL.add(9, b'S', 0, 100),
        AAPL.replace(8, 9, 0, 100),
        RENAMED.add(9, b'B', 1, 100),
        RENAMED.directory(),
    ]
}

// The entries of messages 29, which is of an unknown type, and 30, a delete with a byte too many.
const RAW: &[u8] = b"\x00\x02OK\
    \x00\x14D\x00\x01\x00\x00\x00\x00\x00\x00\x00\x00\x00\x00\x00\x00\x00\x00\x00\x07\x00";

// Messages 31 to 37.
fn last_messages() -> [Msg; 7] {
    [
        UNLISTED.delete(7),
        AAPL.add(8, b'B', 1, 1),
        AAPL.execute(8, 40, 11),
        AAPL.execute_price(8, 1, 12, b'Y', 5),
        MSFT.delete(7),
        AAPL.delete(10),
        AAPL.regsho(b'1'),
    ]
}

/// The day's file. Its last byte is that of the last message.
pub fn file<A: Allocator + Copy>(alloc: A) -> Result<Vec<u8, A>, Fail> {
    let mut file = Vec::new(alloc);
    for message in &first_messages() {
        add_entry(alloc, &mut file, message)?;
    }
    file.extend_from_slice(RAW)?;
    for message in &last_messages() {
        add_entry(alloc, &mut file, message)?;
    }
    Ok(file)
}

/// What became of a message of what two readers give, and why, by segments of so many bytes, within limits.
pub fn why<A: Allocator + Copy, R: Read, S: Read>(
    alloc: A,
    feed: &mut Feed<R>,
    again: &mut Feed<S>,
    limits: Limits,
    segment: u32,
    number: u32,
) -> Result<Result<Vec<u8, A>, StockFault>, Fail> {
    if segment == 0 || segment > 1 << 30 {
        return Err(Fail::new("a segment takes 1 to 2^30 bytes"));
    }
    if limits.bytes > 1 << 40 {
        return Err(Fail::new("a file has 2^40 bytes at most"));
    }
    Ok(why_of_file(alloc, feed, again, limits, segment, number))
}
