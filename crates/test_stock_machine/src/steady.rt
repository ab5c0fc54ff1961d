//! Steps and calls that take no memory.
use crate::comparing::{after, take_message};
use itch_layouts::Msg;
use itch_table::{Fault, Outcome, Side};
use std::alloc::Allocator;
use std::test::Fail;
use stock_machine::Stock;
use test_refusing::{Refusal, Refusing};
use test_support::{AAPL, same};

// The directory message, and others that add two bids and a trade, and a bid that goes again.
fn two_bids() -> [Msg; 6] {
    [
        AAPL.directory(),
        AAPL.add(1, b'B', 10, 100),
        AAPL.add(2, b'B', 10, 200),
        AAPL.trade(b'B', 1, 1, 3),
        AAPL.add(4, b'B', 10, 300),
        AAPL.delete(4),
    ]
}

// A message that is applied.
fn applied(msg: Msg) -> (Msg, Outcome) {
    (msg, Outcome::Applied)
}

// A message that is refused for that fault.
fn refused(msg: Msg, fault: Fault) -> (Msg, Outcome) {
    (msg, Outcome::Refused(fault))
}

// Messages that need no new row, after two bids and a trade, with their outcomes.
fn without_a_new_row() -> [(Msg, Outcome); 23] {
    [
        applied(AAPL.directory()),
        applied(AAPL.participant()),
        applied(AAPL.collar()),
        applied(AAPL.operational()),
        applied(AAPL.imbalance()),
        applied(AAPL.retail()),
        refused(AAPL.add(1, b'B', 1, 1), Fault::ReferenceInUse),
        refused(AAPL.add_mpid(3, b'B', 0, 1), Fault::ZeroShares),
        refused(AAPL.replace(1, 2, 1, 1), Fault::ReferenceInUse),
        refused(AAPL.add(4, b'B', 1, 1), Fault::ReferenceSpent),
        refused(AAPL.replace(1, 4, 1, 1), Fault::ReferenceSpent),
        refused(AAPL.trade(b'Z', 1, 1, 1), Fault::BadSide),
        applied(AAPL.trading(b'H', *b"T1  ")),
        applied(AAPL.regsho(b'1')),
        refused(AAPL.execute(1, 11, 9), Fault::TooManyShares),
        refused(AAPL.execute_price(1, 1, 9, b'Z', 5), Fault::BadPrintable),
        refused(AAPL.cancel(1, 11), Fault::TooManyShares),
        refused(AAPL.delete(9), Fault::ReferenceUnknown),
        refused(AAPL.broken(9), Fault::NoTrade),
        applied(AAPL.cancel(1, 4)),
        applied(AAPL.cancel(1, 6)),
        applied(AAPL.delete(2)),
        applied(AAPL.broken(3)),
    ]
}

// Passes messages to a machine, and compares their outcomes.
fn take_each<A: Allocator + Copy, B: Allocator + Copy>(
    alloc: A,
    stock: &mut Stock<B>,
    all: &[(Msg, Outcome)],
) -> Result<(), Fail> {
    for (msg, outcome) in all {
        take_message(alloc, stock, msg, *outcome)?;
    }
    Ok(())
}

// What a machine says after them.
fn shows_state<A: Allocator + Copy>(stock: &Stock<A>) -> Result<(), Fail> {
    same(
        "the trades, the state and the steps",
        &(stock.totals().trades, stock.status().regsho, stock.steps()),
        &(0, Some(b'1'), 29),
    )
}

// And of its orders.
fn shows_rows<A: Allocator + Copy>(stock: &Stock<A>) -> Result<(), Fail> {
    let spent = (stock.spent(2), stock.spent(3), stock.spent(4));
    same(
        "the orders and the spent references",
        &(
            stock.top().bid_shares,
            stock.level(Side::Buy, 200),
            stock.order(2),
            spent,
        ),
        &(0, 0, None, (true, false, true)),
    )
}

#[test]
fn steps_without_a_new_row_take_no_memory(rt: HostRuntime) -> Result<(), Fail> {
    let heap = Refusing::new(rt.alloc(), Refusal::Never);
    let mut stock = after(&heap, &two_bids())?;
    heap.restart(Refusal::From(1));
    take_each(rt.alloc(), &mut stock, &without_a_new_row())?;
    shows_state(&stock)?;
    shows_rows(&stock)?;
    same("the growths", &heap.asked(), &0)
}
