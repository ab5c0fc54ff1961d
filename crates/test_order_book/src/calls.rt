//! Calls that change a book, and what a book shows.
use itch_table::{Level, Order, OrderRow, Side};
use order_book::Book;
use std::alloc::{AllocError, Allocator};
use std::test::Fail;
use test_support::{same, same_list};

/// A call that changes a book.
#[derive(Debug, Clone, Copy, PartialEq, Eq)]
pub enum Call {
    /// An order is added.
    Add(Order),
    /// An order is replaced: its reference, the new one, the new shares and the new price.
    Replace(u64, u64, u32, u32),
    /// Shares come off an order: its reference, and how many.
    Reduce(u64, u32),
    /// An order is removed: its reference.
    Remove(u64),
}

/// Adds a bid.
pub fn bid(reference: u64, shares: u32, price: u32) -> Call {
    Call::Add(Order {
        reference,
        side: Side::Buy,
        shares,
        price,
        attribution: None,
    })
}

/// Adds an ask of a market participant.
pub fn ask(reference: u64, shares: u32, price: u32) -> Call {
    Call::Add(Order {
        reference,
        side: Side::Sell,
        shares,
        price,
        attribution: Some(*b"ABCD"),
    })
}

/// A level as its price and its shares.
pub fn level(price: u32, shares: u64) -> Level {
    Level { price, shares }
}

/// Makes a call, where it is one that the book takes: what the call returns.
pub fn make<A: Allocator + Copy>(
    book: &mut Book<A>,
    call: Call,
) -> Result<Result<(), AllocError>, Fail> {
    match call {
        Call::Add(order) => {
            if book.order(order.reference).is_none()
                && order.shares > 0
                && book.count() < u32::MAX
            {
                return Ok(book.add(order));
            }
        }
        Call::Replace(old, new, shares, price) => {
            if book.order(old).is_some() && book.order(new).is_none() && shares > 0 {
                return Ok(book.replace(old, new, shares, price));
            }
        }
        Call::Reduce(reference, shares) => {
            if let Some(order) = book.order(reference) {
                if shares <= order.shares {
                    book.reduce(reference, shares);
                    return Ok(Ok(()));
                }
            }
        }
        Call::Remove(reference) => {
            if let Some(order) = book.order(reference) {
                same("the order removed", &book.remove(reference), &order)?;
                return Ok(Ok(()));
            }
        }
    }
    Err(Fail::new(format_args!("a book takes no such call: {call:?}")))
}

/// Makes calls with memory.
pub fn make_all<A: Allocator + Copy>(book: &mut Book<A>, calls: &[Call]) -> Result<(), Fail> {
    for call in calls {
        same(
            "a call with memory",
            &(*call, make(book, *call)?),
            &(*call, Ok(())),
        )?;
    }
    Ok(())
}

// The row of the order that a book finds under a reference.
fn row_in<A: Allocator + Copy>(book: &Book<A>, reference: u64) -> Option<OrderRow> {
    book.find(reference).map(|found| found.row)
}

// Two books have the same orders, in their lists and by their references.
fn same_orders<A: Allocator + Copy>(
    alloc: A,
    found: &Book<A>,
    wanted: &Book<A>,
) -> Result<(), Fail> {
    let orders = found.orders(alloc)?;
    same_list("the orders", &orders, &wanted.orders(alloc)?)?;
    for order in orders.iter() {
        let reference = order.reference;
        same(
            "an order",
            &(found.order(reference), row_in(found, reference)),
            &(Some(*order), Some(order.row())),
        )?;
    }
    Ok(())
}

// Two books have the same levels of a side, in their lists and by their prices.
fn same_levels<A: Allocator + Copy>(
    alloc: A,
    found: &Book<A>,
    wanted: &Book<A>,
    side: Side,
) -> Result<(), Fail> {
    let levels = found.levels(alloc, side)?;
    same_list("the levels", &levels, &wanted.levels(alloc, side)?)?;
    for level in levels.iter() {
        same("a level", &found.level(side, level.price), &level.shares)?;
    }
    Ok(())
}

/// Two books return the same for each reference and each price that a test names, whether there are orders or not.
pub fn same_results<A: Allocator + Copy>(found: &Book<A>, wanted: &Book<A>) -> Result<(), Fail> {
    for reference in 0..=1_100u64 {
        same(
            "an order",
            &(found.order(reference), row_in(found, reference)),
            &(wanted.order(reference), row_in(wanted, reference)),
        )?;
    }
    for price in 0..=7u32 {
        same(
            "a level",
            &(
                found.level(Side::Buy, price),
                found.level(Side::Sell, price),
            ),
            &(
                wanted.level(Side::Buy, price),
                wanted.level(Side::Sell, price),
            ),
        )?;
    }
    Ok(())
}

/// Two books show the same count, top, orders and levels.
pub fn same_books<A: Allocator + Copy>(
    alloc: A,
    found: &Book<A>,
    wanted: &Book<A>,
) -> Result<(), Fail> {
    same(
        "the count and the top",
        &(found.count(), found.top()),
        &(wanted.count(), wanted.top()),
    )?;
    same_orders(alloc, found, wanted)?;
    same_levels(alloc, found, wanted, Side::Buy)?;
    same_levels(alloc, found, wanted, Side::Sell)
}
