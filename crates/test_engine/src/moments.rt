//! The best bid and ask of a stock after each of its messages.
use itch_readings::tops;
use std::test::Fail;
use test_support::{same_list, two_stocks};

// A bid that comes and goes, and a delete of an order that has gone.
#[test]
fn a_stock_has_a_top_after_each_of_its_messages(rt: HostRuntime) -> Result<(), Fail> {
    let day = two_stocks(rt.alloc())?;
    let mut found = Vec::new(rt.alloc());
    for moment in &tops(rt.alloc(), &day, 1)? {
        found.push((moment.message, moment.top.bid_price, moment.top.bid_shares))?;
    }
    let wanted = [(1, 0, 0), (3, 100, 10), (5, 0, 0), (7, 0, 0)];
    same_list("messages and bids", &found, &wanted)
}
