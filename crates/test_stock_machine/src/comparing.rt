//! What two machines of one stock say.
use itch_layouts::Msg;
use itch_table::{Outcome, Part, Side, part};
use std::alloc::Allocator;
use std::test::Fail;
use stock_machine::Stock;
use test_support::{payload_of, same, same_list};

// Two machines have the same levels of a side, in their lists and by their prices.
fn same_levels<A: Allocator + Copy>(
    alloc: A,
    found: &Stock<A>,
    wanted: &Stock<A>,
    side: Side,
) -> Result<(), Fail> {
    let levels = found.levels(alloc, side)?;
    same_list("levels", &levels, &wanted.levels(alloc, side)?)?;
    for level in levels.iter() {
        same("a level", &found.level(side, level.price), &level.shares)?;
    }
    Ok(())
}

// Two machines have the same orders, in their lists and by their references.
fn same_orders<A: Allocator + Copy>(
    alloc: A,
    found: &Stock<A>,
    wanted: &Stock<A>,
) -> Result<(), Fail> {
    let orders = found.orders(alloc)?;
    same_list("orders", &orders, &wanted.orders(alloc)?)?;
    for order in orders.iter() {
        same("an order", &found.order(order.reference), &Some(*order))?;
    }
    Ok(())
}

// Two machines have the same spent references, of those that a test names.
fn same_spent<A: Allocator + Copy>(found: &Stock<A>, wanted: &Stock<A>) -> Result<(), Fail> {
    for reference in 0..=1_100u64 {
        same(
            "a spent reference",
            &(reference, found.spent(reference)),
            &(reference, wanted.spent(reference)),
        )?;
    }
    Ok(())
}

/// Compares what two machines say: the locate code, the steps, the top, the totals, the status, all lists, and the
/// spent references that a test names.
pub fn same_machines<A: Allocator + Copy>(
    alloc: A,
    found: &Stock<A>,
    wanted: &Stock<A>,
) -> Result<(), Fail> {
    same(
        "what is known",
        &(found.locate(), found.steps(), found.top(), found.totals()),
        &(
            wanted.locate(),
            wanted.steps(),
            wanted.top(),
            wanted.totals(),
        ),
    )?;
    same("the status", &found.status(), &wanted.status())?;
    same_levels(alloc, found, wanted, Side::Buy)?;
    same_levels(alloc, found, wanted, Side::Sell)?;
    same_orders(alloc, found, wanted)?;
    same_spent(found, wanted)
}

/// Compares what two machines return for each reference and each price that a test names, whether there are orders or
/// not.
pub fn same_results<A: Allocator + Copy>(found: &Stock<A>, wanted: &Stock<A>) -> Result<(), Fail> {
    for reference in 0..=1_100u64 {
        same(
            "an order",
            &found.order(reference),
            &wanted.order(reference),
        )?;
    }
    for price in 0..=300u32 {
        same(
            "a level",
            &(
                found.level(Side::Buy, price),
                found.level(Side::Sell, price),
            ),
            &(
                wanted.level(Side::Buy, price),
                wanted.level(Side::Sell, price),
            ),
        )?;
    }
    Ok(())
}

/// Passes a payload of its stock to a machine, and compares the outcome with `wanted`.
pub fn take<A: Allocator + Copy>(
    stock: &mut Stock<A>,
    payload: &[u8],
    wanted: Outcome,
) -> Result<(), Fail> {
    if part(payload) != Part::Locate(stock.locate()) || stock.steps() == u32::MAX {
        return Err(Fail::new("the payload isn't the stock's next one"));
    }
    same("an outcome", &stock.step(payload), &Ok(wanted))
}

/// Passes a message of its stock to a machine, and compares the outcome with `wanted`.
pub fn take_message<A: Allocator + Copy, B: Allocator + Copy>(
    alloc: A,
    stock: &mut Stock<B>,
    msg: &Msg,
    wanted: Outcome,
) -> Result<(), Fail> {
    let payload = payload_of(alloc, msg)?;
    take(stock, &payload, wanted)
}

/// A machine of the stock of locate code 1 after these messages, all of which are applied.
pub fn after<A: Allocator + Copy>(alloc: A, messages: &[Msg]) -> Result<Stock<A>, Fail> {
    let mut stock = Stock::new(alloc, 1);
    for msg in messages {
        take_message(alloc, &mut stock, msg, Outcome::Applied)?;
    }
    Ok(stock)
}
