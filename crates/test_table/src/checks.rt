//! Checks: which fault a message meets where it fails several, and messages that name another stock.
use itch_layouts::Msg;
use itch_table::{Fault, Outcome, Totals};
use std::test::Fail;
use test_support::{AAPL, Line, MSFT, Ticker, follow};

#[test]
fn checks_are_made_in_order(rt: HostRuntime) -> Result<(), Fail> {
    let other = Ticker { locate: 1, ..MSFT };
    follow(
        rt.alloc(),
        "refuses an order for the first check that fails",
        &[
            Line::Refused(other.add(1, b'X', 0, 100), Fault::NoDirectory),
            Line::Applied(AAPL.directory()),
            Line::Applied(AAPL.add(1, b'B', 100, 1_010_000)),
            Line::Refused(other.add(1, b'X', 0, 100), Fault::StockDiffers),
            Line::Refused(AAPL.add(1, b'X', 0, 100), Fault::BadSide),
            Line::Refused(AAPL.add(1, b'S', 0, 100), Fault::ZeroShares),
            Line::Refused(AAPL.add(1, b'S', 1, 100), Fault::ReferenceInUse),
            Line::Applied(AAPL.add(2, b'S', 1, 100)),
            Line::Refused(AAPL.trade(b'Z', 1, 1, 1), Fault::BadSide),
            Line::Refused(AAPL.execute_price(3, 9, 1, b'X', 1), Fault::BadPrintable),
            Line::Refused(
                AAPL.execute_price(3, 9, 1, b'N', 1),
                Fault::ReferenceUnknown,
            ),
            Line::Refused(AAPL.execute_price(2, 9, 1, b'Y', 1), Fault::TooManyShares),
            Line::Refused(AAPL.delete(3), Fault::ReferenceUnknown),
            Line::Refused(AAPL.broken(4), Fault::NoTrade),
        ],
    )
}

#[test]
fn no_shares_may_be_taken(rt: HostRuntime) -> Result<(), Fail> {
    let nothing = Totals {
        trades: 1,
        shares: 0,
        notional: 0,
        unprinted: 0,
    };
    follow(
        rt.alloc(),
        "counts a trade of no shares, and leaves its order as it was",
        &[
            Line::Applied(AAPL.directory()),
            Line::Applied(AAPL.add(1, b'B', 5, 100)),
            Line::Applied(AAPL.execute(1, 0, 3)),
            Line::Totals(1, nothing),
            Line::Refused(AAPL.execute(1, 6, 3), Fault::TooManyShares),
            Line::Applied(AAPL.execute(1, 5, 3)),
            Line::Order(1, None),
        ],
    )
}

// A message of each kind that names a stock.
fn naming_messages(ticker: Ticker) -> [Msg; 11] {
    [
        ticker.trading(b'T', *b"    "),
        ticker.regsho(b'0'),
        ticker.participant(),
        ticker.collar(),
        ticker.operational(),
        ticker.add(1, b'B', 1, 1),
        ticker.add_mpid(1, b'B', 1, 1),
        ticker.trade(b'B', 1, 1, 1),
        ticker.cross(1, 1, 1),
        ticker.imbalance(),
        ticker.retail(),
    ]
}

#[test]
fn stocks_are_compared(rt: HostRuntime) -> Result<(), Fail> {
    let other = Ticker { locate: 1, ..MSFT };
    for (wrong, right) in naming_messages(other).iter().zip(&naming_messages(AAPL)) {
        follow(
            rt.alloc(),
            "takes a message that names the stock of its directory row, and no other",
            &[
                Line::Refused(*right, Fault::NoDirectory),
                Line::Applied(AAPL.directory()),
                Line::Refused(*wrong, Fault::StockDiffers),
                Line::Applied(*right),
            ],
        )?;
    }
    let almost = Ticker {
        locate: 1,
        symbol: *b"AAPL   \x00",
    };
    follow(
        rt.alloc(),
        "compares all eight bytes of a stock, padding too",
        &[
            Line::Applied(almost.directory()),
            Line::Refused(AAPL.add(1, b'B', 100, 1_010_000), Fault::StockDiffers),
            Line::Order(1, None),
        ],
    )
}

#[test]
fn unknown_and_short_payloads_are_distinguished(rt: HostRuntime) -> Result<(), Fail> {
    let short = Outcome::Refused(Fault::WrongLength);
    follow(
        rt.alloc(),
        "passes over unknown types and refuses wrong lengths, whatever is known",
        &[
            Line::Payload(b"", Outcome::Passed),
            Line::Payload(b"O", Outcome::Passed),
            Line::Payload(b"S", short),
            Line::Payload(b"A\x00\x01", short),
            Line::Event(None),
        ],
    )
}
