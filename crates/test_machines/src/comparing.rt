//! What the machine of one stock says, beside what the plain machine says of that stock.
use itch_table::{Outcome, Plain, Side};
use std::alloc::Allocator;
use std::test::Fail;
use stock_machine::Stock;
use test_support::{same, same_list};

// The low references of which it is asked whether they are spent.
const LOW: u64 = 40;

/// Passes the next payload to the plain machine, and returns what became of it.
pub fn step<A: Allocator + Copy>(plain: &mut Plain<A>, payload: &[u8]) -> Result<Outcome, Fail> {
    if plain.steps() == u32::MAX {
        return Err(Fail::new("a machine takes no more messages"));
    }
    Ok(plain.step(payload)?)
}

// The top, the totals and the status.
fn same_known<A: Allocator + Copy>(plain: &Plain<A>, stock: &Stock<A>) -> Result<(), Fail> {
    let locate = stock.locate();
    same(
        "what is known of a stock",
        &(stock.top(), stock.totals(), stock.status()),
        &(
            plain.top(locate),
            plain.totals(locate),
            plain.status(locate),
        ),
    )
}

// The levels of a side, in a list and one by one.
fn same_levels<A: Allocator + Copy>(
    alloc: A,
    plain: &Plain<A>,
    stock: &Stock<A>,
    side: Side,
) -> Result<(), Fail> {
    let found = stock.levels(alloc, side)?;
    let wanted = plain.levels(alloc, stock.locate(), side)?;
    same_list("levels", &found, &wanted)?;
    for level in &wanted {
        same("a level", &stock.level(side, level.price), &level.shares)?;
    }
    Ok(())
}

// The orders, in a list and one by one, and that of the greatest reference.
fn same_orders<A: Allocator + Copy>(
    alloc: A,
    plain: &Plain<A>,
    stock: &Stock<A>,
) -> Result<(), Fail> {
    let found = stock.orders(alloc)?;
    let wanted = plain.orders(alloc, stock.locate())?;
    same_list("orders", &found, &wanted)?;
    for order in &wanted {
        same("an order", &stock.order(order.reference), &Some(*order))?;
    }
    same(
        "the order of the greatest reference",
        &stock.order(u64::MAX),
        &plain.order(stock.locate(), u64::MAX),
    )
}

// The spent references, of few low ones, of those that live, and of the greatest one.
fn same_spent<A: Allocator + Copy>(
    alloc: A,
    plain: &Plain<A>,
    stock: &Stock<A>,
) -> Result<(), Fail> {
    let locate = stock.locate();
    for reference in 0..=LOW {
        let found = (reference, stock.spent(reference));
        same(
            "a spent reference",
            &found,
            &(reference, plain.spent(locate, reference)),
        )?;
    }
    for order in &plain.orders(alloc, locate)? {
        let found = (
            stock.spent(order.reference),
            plain.spent(locate, order.reference),
        );
        same("the reference of an order", &found, &(true, true))?;
    }
    let greatest = stock.spent(u64::MAX);
    same(
        "the greatest reference",
        &greatest,
        &plain.spent(locate, u64::MAX),
    )
}

// Compares all that the machine of a stock says with what the plain machine says of that stock.
fn same_stock<A: Allocator + Copy>(
    alloc: A,
    plain: &Plain<A>,
    stock: &Stock<A>,
) -> Result<(), Fail> {
    same_known(plain, stock)?;
    same_levels(alloc, plain, stock, Side::Buy)?;
    same_levels(alloc, plain, stock, Side::Sell)?;
    same_orders(alloc, plain, stock)?;
    same_spent(alloc, plain, stock)
}

/// Compares the locate code and the steps of a stock with these, and all that its machine says with what the plain machine
/// says.
pub fn same_steps<A: Allocator + Copy>(
    alloc: A,
    plain: &Plain<A>,
    stock: &Stock<A>,
    wanted: (u16, u32),
) -> Result<(), Fail> {
    let found = (stock.locate(), stock.steps());
    same("a stock and its steps", &found, &wanted)?;
    same_stock(alloc, plain, stock)
}

// All that a copy of the machine of a stock says.
fn same_copy<A: Allocator + Copy>(
    alloc: A,
    plain: &Plain<A>,
    stock: &Stock<A>,
) -> Result<(), Fail> {
    let wanted = (stock.locate(), stock.steps());
    same_steps(alloc, plain, &stock.copy(alloc)?, wanted)
}

/// Compares all that the machines of the stocks and their copies say with what the plain machine says, and the sum of
/// their steps with the number of the stocks' messages.
pub fn same_stocks<A: Allocator + Copy>(
    alloc: A,
    plain: &Plain<A>,
    stocks: &[Stock<A>],
    messages: u64,
) -> Result<(), Fail> {
    let mut steps = 0u64;
    for stock in stocks {
        same_stock(alloc, plain, stock)?;
        same_copy(alloc, plain, stock)?;
        steps = steps.saturating_add(u64::from(stock.steps()));
    }
    same("the steps of all stocks", &steps, &messages)
}
