//! Trades: which of them count, and their totals.
use itch_table::{Fault, Side, Totals};
use std::test::Fail;
use test_support::{AAPL, Line, follow};

const NONE: Totals = Totals {
    trades: 0,
    shares: 0,
    notional: 0,
    unprinted: 0,
};

// Totals of printed trades alone.
fn printed(trades: u64, shares: u128, notional: u128) -> Totals {
    Totals {
        trades,
        shares,
        notional,
        unprinted: 0,
    }
}

#[test]
fn trades_are_printed_or_not(rt: HostRuntime) -> Result<(), Fail> {
    let unprinted = Totals {
        unprinted: 20,
        ..NONE
    };
    let left = Some((1_000_000, 30));
    follow(
        rt.alloc(),
        "counts the shares of an unprinted trade alone, until it is broken",
        &[
            Line::Applied(AAPL.directory()),
            Line::Applied(AAPL.add(5, b'S', 50, 1_000_000)),
            Line::Applied(AAPL.execute_price(5, 20, 7, b'N', 990_000)),
            Line::Totals(1, unprinted),
            Line::Level(1, Side::Sell, left),
            Line::Applied(AAPL.broken(7)),
            Line::Totals(1, NONE),
            Line::Refused(AAPL.broken(7), Fault::NoTrade),
            Line::Level(1, Side::Sell, left),
        ],
    )?;
    follow(
        rt.alloc(),
        "counts a printed trade at its own price",
        &[
            Line::Applied(AAPL.directory()),
            Line::Applied(AAPL.add(5, b'S', 50, 1_000_000)),
            Line::Applied(AAPL.execute_price(5, 20, 7, b'Y', 990_000)),
            Line::Totals(1, printed(1, 20, 19_800_000)),
            Line::Level(1, Side::Sell, left),
        ],
    )
}

#[test]
fn trades_share_a_match_number(rt: HostRuntime) -> Result<(), Fail> {
    let left = Some((100, 65));
    follow(
        rt.alloc(),
        "breaks all trades of a match number at once, and takes the number again",
        &[
            Line::Applied(AAPL.directory()),
            Line::Applied(AAPL.add(1, b'B', 100, 100)),
            Line::Applied(AAPL.execute(1, 10, 5)),
            Line::Applied(AAPL.execute(1, 20, 5)),
            Line::Totals(1, printed(2, 30, 3000)),
            Line::Applied(AAPL.broken(5)),
            Line::Totals(1, NONE),
            Line::Refused(AAPL.broken(5), Fault::NoTrade),
            Line::Applied(AAPL.execute(1, 5, 5)),
            Line::Totals(1, printed(1, 5, 500)),
            Line::Applied(AAPL.broken(5)),
            Line::Totals(1, NONE),
            Line::Level(1, Side::Buy, left),
        ],
    )
}

#[test]
fn totals_hold_the_greatest_trades(rt: HostRuntime) -> Result<(), Fail> {
    follow(
        rt.alloc(),
        "sums past 64 bits",
        &[
            Line::Applied(AAPL.directory()),
            Line::Applied(AAPL.cross(u64::MAX, u32::MAX, 1)),
            Line::Totals(
                1,
                printed(
                    1,
                    18_446_744_073_709_551_615,
                    79_228_162_495_817_593_515_539_431_425,
                ),
            ),
            Line::Applied(AAPL.trade(b'S', 2, 3, 2)),
            Line::Totals(
                1,
                printed(
                    2,
                    18_446_744_073_709_551_617,
                    79_228_162_495_817_593_515_539_431_431,
                ),
            ),
        ],
    )
}
