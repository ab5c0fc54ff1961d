//! What a replay makes of a day, beside what the plain machine makes of it.
use binaryfile::Day;
use day_replay::{RefusedMessage, Summary};
use itch_table::{LOCATES, Outcome, Part, Plain, Side, part};
use std::alloc::Allocator;
use std::test::Fail;
use stock_machine::Stock;
use test_support::{same, same_list};

/// What the plain machine makes of a day.
#[derive(Drop)]
pub struct Wanted<A: Allocator> {
    plain: Plain<A>,
    passed: u32,
    refused: Vec<RefusedMessage, A>,
    // The stocks that have messages, by rising locate code, each with how many.
    stocks: Vec<(u16, u32), A>,
}

// The stocks that have messages, each with how many, by how many messages there are at each locate code.
fn with_messages<A: Allocator + Copy>(
    alloc: A,
    counts: &[u32],
) -> Result<Vec<(u16, u32), A>, Fail> {
    let mut stocks = Vec::new(alloc);
    for (count, locate) in counts.iter().zip(0..=u16::MAX) {
        if *count > 0 {
            stocks.push((locate, *count))?;
        }
    }
    Ok(stocks)
}

// The locate code of the stock whose message a payload is.
fn locate_of(payload: &[u8]) -> Option<u16> {
    match part(payload) {
        Part::Locate(locate) => Some(locate),
        Part::Nowhere(_) => None,
    }
}

// Passes the next payload to the plain machine, and notes what became of it.
fn take<A: Allocator + Copy>(wanted: &mut Wanted<A>, payload: &[u8]) -> Result<(), Fail> {
    if wanted.plain.steps() == u32::MAX {
        return Err(Fail::new("a machine takes no more messages"));
    }
    let outcome = wanted.plain.step(payload)?;
    let message = wanted.plain.steps();
    match outcome {
        Outcome::Applied => {}
        Outcome::Passed => wanted.passed = wanted.passed.saturating_add(1),
        Outcome::Refused(_) => wanted.refused.push(RefusedMessage {
            message,
            locate: locate_of(payload),
            outcome,
        })?,
    }
    Ok(())
}

// Leads the plain machine through a day.
fn lead<A: Allocator + Copy>(alloc: A, day: &Day<A>, wanted: &mut Wanted<A>) -> Result<(), Fail> {
    let mut counts = vec![in alloc; 0u32; LOCATES]?;
    for payload in day.payloads() {
        take(wanted, payload)?;
        if let Some(locate) = locate_of(payload)
            && let Some(count) = counts.get_mut(usize::from(locate))
        {
            *count = count.saturating_add(1);
        }
    }
    wanted.stocks = with_messages(alloc, &counts)?;
    Ok(())
}

/// Leads a new plain machine through a day.
pub fn follow<A: Allocator + Copy>(alloc: A, day: &Day<A>) -> Result<Wanted<A>, Fail> {
    let mut wanted = Wanted {
        plain: Plain::new(alloc),
        passed: 0,
        refused: Vec::new(alloc),
        stocks: Vec::new(alloc),
    };
    lead(alloc, day, &mut wanted)?;
    Ok(wanted)
}

// Compares all that the machine of a stock says with what the plain machine says of that stock.
fn same_stock<A: Allocator + Copy>(
    alloc: A,
    plain: &Plain<A>,
    stock: &Stock<A>,
) -> Result<(), Fail> {
    let locate = stock.locate();
    same(
        "a stock",
        &(stock.top(), stock.totals(), stock.status()),
        &(
            plain.top(locate),
            plain.totals(locate),
            plain.status(locate),
        ),
    )?;
    for side in [Side::Buy, Side::Sell] {
        let found = stock.levels(alloc, side)?;
        same_list("levels", &found, &plain.levels(alloc, locate, side)?)?;
    }
    let orders = plain.orders(alloc, locate)?;
    same_list("orders", &stock.orders(alloc)?, &orders)?;
    for order in &orders {
        same("a reference", &stock.spent(order.reference), &true)?;
    }
    Ok(())
}

/// Compares what a replay makes of a day with what the plain machine makes of it.
pub fn same_day<A: Allocator + Copy>(
    alloc: A,
    found: &Summary<A>,
    wanted: &Wanted<A>,
) -> Result<(), Fail> {
    same(
        "messages, those passed over, and the last event",
        &(found.messages, found.passed, found.event),
        &(wanted.plain.steps(), wanted.passed, wanted.plain.event()),
    )?;
    same_list("refused messages", &found.refused, &wanted.refused)?;
    let mut stocks = Vec::new(alloc);
    for stock in &found.stocks {
        same_stock(alloc, &wanted.plain, stock)?;
        stocks.push((stock.locate(), stock.steps()))?;
    }
    same_list("stocks and their messages", &stocks, &wanted.stocks)
}
