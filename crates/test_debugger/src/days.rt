//! The days of the tests.
use binaryfile::Day;
use debugger::Break;
use itch_layouts::{Msg, Nanos};
use itch_table::Side;
use std::alloc::Allocator;
use std::test::Fail;
use test_support::{AAPL, add_entry, day_of};

/// The level of bids at 150.
pub const BIDS: Break = Break::Price {
    locate: 1,
    side: Side::Buy,
    price: 1_500_000,
};

/// The first message of at least this time.
pub fn time_break(time: u64) -> Result<Break, Fail> {
    let Some(time) = Nanos::new(time) else {
        return Err(Fail::new("no time"));
    };
    Ok(Break::Time { time })
}

/// The day of these messages, each at its time in nanoseconds, which is below 256.
pub fn timed<A: Allocator + Copy>(alloc: A, messages: &[(u8, Msg)]) -> Result<Day<A>, Fail> {
    let mut file = Vec::new(alloc);
    for (time, msg) in messages {
        let entry = file.len();
        add_entry(alloc, &mut file, msg)?;
        if let Some(last) = file.get_mut(entry + 12) {
            *last = *time;
        }
    }
    day_of(alloc, file)
}

/// A bid of 100 shares, two executions of it with a trading halt between them, one of which is broken, and its
/// deletion. Message n is at time n - 1.
pub fn tour<A: Allocator + Copy>(alloc: A) -> Result<Day<A>, Fail> {
    timed(
        alloc,
        &[
            (0, AAPL.directory()),
            (1, AAPL.add(1, b'B', 100, 1_500_000)),
            (2, AAPL.execute(1, 40, 9)),
            (3, AAPL.trading(b'H', *b"T1  ")),
            (4, AAPL.execute(1, 10, 10)),
            (5, AAPL.broken(9)),
            (6, AAPL.delete(1)),
        ],
    )
}
