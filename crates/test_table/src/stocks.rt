//! What is known of a stock beside its book, and of the day.
use itch_table::{Fault, Order, Side, Status, Totals, Trading};
use std::test::Fail;
use test_support::{AAPL, Line, MSFT, Ticker, follow, system};

const NOTHING: Status = Status {
    directory: None,
    trading: None,
    regsho: None,
};

const HALTED: Trading = Trading {
    state: b'H',
    reserved: b' ',
    reason: *b"T1  ",
};

// An order of 10 shares, after 4 of them were executed.
const LEFT: Order = Order {
    reference: 1,
    side: Side::Buy,
    shares: 6,
    price: 100,
    attribution: None,
};

// That execution.
const TRADED: Totals = Totals {
    trades: 1,
    shares: 4,
    notional: 400,
    unprinted: 0,
};

#[test]
fn directory_rows_come_again(rt: HostRuntime) -> Result<(), Fail> {
    let known = Status {
        directory: Some(AAPL.directory_row()),
        trading: Some(HALTED),
        regsho: Some(b'2'),
    };
    let other = Ticker { locate: 1, ..MSFT };
    follow(
        rt.alloc(),
        "keeps all that is known of a stock when its directory row is sent again",
        &[
            Line::Status(1, NOTHING),
            Line::Applied(AAPL.directory()),
            Line::Applied(AAPL.trading(b'T', *b"    ")),
            Line::Applied(AAPL.regsho(b'1')),
            Line::Applied(AAPL.add(1, b'B', 10, 100)),
            Line::Applied(AAPL.execute(1, 4, 1)),
            Line::Applied(AAPL.trading(b'H', *b"T1  ")),
            Line::Applied(AAPL.regsho(b'2')),
            Line::Refused(other.directory(), Fault::LocateTaken),
            Line::Applied(AAPL.directory()),
            Line::Status(1, known),
            Line::Order(1, Some(LEFT)),
            Line::Totals(1, TRADED),
        ],
    )
}

#[test]
fn events_are_of_the_day(rt: HostRuntime) -> Result<(), Fail> {
    follow(
        rt.alloc(),
        "keeps the last event, whatever its locate code",
        &[
            Line::Event(None),
            Line::Applied(system(0, b'O')),
            Line::Event(Some(b'O')),
            Line::Applied(system(7, b'S')),
            Line::Event(Some(b'S')),
            Line::Locates(&[]),
        ],
    )
}
