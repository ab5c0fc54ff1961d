//! Orders: how they come, change and go, and the levels that they make.
use itch_table::{Fault, Order, Side, Top};
use std::test::Fail;
use test_support::{AAPL, Line, MSFT, Ticker, follow};

#[test]
fn shares_are_taken(rt: HostRuntime) -> Result<(), Fail> {
    follow(
        rt.alloc(),
        "takes no more shares than remain, and removes an order with none left",
        &[
            Line::Applied(AAPL.directory()),
            Line::Applied(AAPL.add(1, b'B', 100, 1_500_000)),
            Line::Refused(AAPL.execute(1, 101, 9), Fault::TooManyShares),
            Line::Refused(AAPL.cancel(1, 101), Fault::TooManyShares),
            Line::Level(1, Side::Buy, Some((1_500_000, 100))),
            Line::Applied(AAPL.cancel(1, 40)),
            Line::Level(1, Side::Buy, Some((1_500_000, 60))),
            Line::Applied(AAPL.cancel(1, 60)),
            Line::Order(1, None),
        ],
    )
}

#[test]
fn orders_are_replaced(rt: HostRuntime) -> Result<(), Fail> {
    follow(
        rt.alloc(),
        "puts a replacement in the place of its original",
        &[
            Line::Applied(AAPL.directory()),
            Line::Applied(AAPL.add(1, b'B', 100, 1_500_000)),
            Line::Refused(AAPL.replace(1, 1, 50, 1_490_000), Fault::ReferenceInUse),
            Line::Level(1, Side::Buy, Some((1_500_000, 100))),
            Line::Applied(AAPL.replace(1, 2, 50, 1_490_000)),
            Line::Refused(AAPL.replace(1, 2, 0, 1), Fault::ReferenceUnknown),
            Line::Refused(AAPL.replace(2, 3, 0, 1), Fault::ZeroShares),
            Line::Level(1, Side::Buy, Some((1_490_000, 50))),
        ],
    )?;
    let moved = Order {
        reference: 2,
        side: Side::Sell,
        shares: 20,
        price: 400,
        attribution: Some(*b"ABCD"),
    };
    follow(
        rt.alloc(),
        "keeps the side and the attribution of the original",
        &[
            Line::Applied(AAPL.directory()),
            Line::Applied(AAPL.add_mpid(1, b'S', 30, 500)),
            Line::Applied(AAPL.replace(1, 2, 20, 400)),
            Line::Order(1, Some(moved)),
            Line::Level(1, Side::Sell, Some((400, 20))),
        ],
    )
}

#[test]
fn stocks_have_references_of_their_own(rt: HostRuntime) -> Result<(), Fail> {
    let unlisted = Ticker { locate: 3, ..AAPL };
    let other = Ticker { locate: 1, ..MSFT };
    let order = Order {
        reference: 7,
        side: Side::Buy,
        shares: 20,
        price: 200,
        attribution: None,
    };
    follow(
        rt.alloc(),
        "keeps the orders of two stocks apart, though they have one reference",
        &[
            Line::Applied(AAPL.directory()),
            Line::Applied(MSFT.directory()),
            Line::Applied(AAPL.add(7, b'B', 10, 100)),
            Line::Applied(MSFT.add(7, b'B', 20, 200)),
            Line::Applied(AAPL.delete(7)),
            Line::Refused(unlisted.delete(7), Fault::NoDirectory),
            Line::Refused(AAPL.delete(7), Fault::ReferenceUnknown),
            Line::Refused(other.directory(), Fault::LocateTaken),
            Line::Order(1, None),
            Line::Order(2, Some(order)),
            Line::Locates(&[1, 2]),
        ],
    )
}

#[test]
fn numbers_may_be_the_greatest(rt: HostRuntime) -> Result<(), Fail> {
    let top = Top {
        bid_price: 0,
        bid_shares: 4_294_967_295,
        ask_price: 4_294_967_295,
        ask_shares: 1,
    };
    follow(
        rt.alloc(),
        "takes the least and the greatest numbers, and levels of more shares than an order has",
        &[
            Line::Applied(AAPL.directory()),
            Line::Applied(AAPL.add(0, b'B', 4_294_967_295, 0)),
            Line::Applied(AAPL.add(18_446_744_073_709_551_615, b'S', 1, 4_294_967_295)),
            Line::Top(1, top),
            Line::Applied(AAPL.add(1, b'B', 4_294_967_295, 0)),
            Line::Level(1, Side::Buy, Some((0, 8_589_934_590))),
        ],
    )
}

#[test]
fn books_may_cross(rt: HostRuntime) -> Result<(), Fail> {
    let crossed = Top {
        bid_price: 1_010_000,
        bid_shares: 100,
        ask_price: 1_000_000,
        ask_shares: 50,
    };
    let empty = Top {
        bid_price: 0,
        bid_shares: 0,
        ask_price: 0,
        ask_shares: 0,
    };
    follow(
        rt.alloc(),
        "takes a bid above the ask, and has zeros for a stock without orders",
        &[
            Line::Applied(AAPL.directory()),
            Line::Applied(AAPL.add(1, b'B', 100, 1_010_000)),
            Line::Applied(AAPL.add(2, b'S', 50, 1_000_000)),
            Line::Top(1, crossed),
            Line::Level(1, Side::Buy, Some((1_010_000, 100))),
            Line::Top(2, empty),
            Line::Level(2, Side::Sell, None),
        ],
    )
}
