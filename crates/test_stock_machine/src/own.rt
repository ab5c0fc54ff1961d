//! The messages of a day of several stocks, each passed to the machine of its stock.
use crate::comparing::take_message;
use itch_layouts::Msg;
use itch_table::{Fault, Outcome, Top};
use std::alloc::Allocator;
use std::test::Fail;
use stock_machine::Stock;
use test_support::{AAPL, MSFT, Ticker, same};

// The top of a new machine of a stock that has taken messages with these outcomes, and how many it has taken.
fn shown_after<A: Allocator + Copy>(
    alloc: A,
    locate: u16,
    messages: &[(Msg, Outcome)],
) -> Result<(Top, u32), Fail> {
    let mut stock = Stock::new(alloc, locate);
    for (msg, outcome) in messages {
        take_message(alloc, &mut stock, msg, *outcome)?;
    }
    Ok((stock.top(), stock.steps()))
}

// The top of a book of bids.
fn best_bid(bid_price: u32, bid_shares: u64) -> Top {
    Top {
        bid_price,
        bid_shares,
        ask_price: 0,
        ask_shares: 0,
    }
}

#[test]
fn stocks_take_their_own_messages_of_a_day(rt: HostRuntime) -> Result<(), Fail> {
    let unlisted = Ticker { locate: 3, ..AAPL };
    let first = [
        (AAPL.directory(), Outcome::Applied),
        (AAPL.add(7, b'B', 10, 100), Outcome::Applied),
        (AAPL.delete(7), Outcome::Applied),
        (AAPL.delete(7), Outcome::Refused(Fault::ReferenceUnknown)),
    ];
    let second = [
        (MSFT.directory(), Outcome::Applied),
        (MSFT.add(7, b'B', 20, 200), Outcome::Applied),
    ];
    let third = [(unlisted.delete(7), Outcome::Refused(Fault::NoDirectory))];
    same(
        "tops and steps",
        &(
            shown_after(rt.alloc(), 1, &first)?,
            shown_after(rt.alloc(), 2, &second)?,
            shown_after(rt.alloc(), 3, &third)?,
        ),
        &(
            (best_bid(0, 0), 4),
            (best_bid(200, 20), 2),
            (best_bid(0, 0), 1),
        ),
    )
}
