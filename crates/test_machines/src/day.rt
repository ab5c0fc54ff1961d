//! A day, message by message, through the plain machine and through a machine for each of its stocks.
use crate::comparing::{same_stocks, step};
use binaryfile::Day;
use itch_layouts::{Msg, Shape, read_msg};
use itch_table::{Outcome, Part, Plain, part};
use std::alloc::{AllocError, Allocator};
use std::test::Fail;
use stock_machine::Stock;
use test_support::same;

// The index of a stock's machine, which is new at the stock's first message.
fn index_of<A: Allocator + Copy>(
    alloc: A,
    stocks: &mut Vec<Stock<A>, A>,
    locate: u16,
) -> Result<usize, AllocError> {
    if let Some(index) = stocks.iter().position(|stock| stock.locate() == locate) {
        return Ok(index);
    }
    let index = stocks.len();
    stocks.push(Stock::new(alloc, locate))?;
    Ok(index)
}

// Passes a payload to the machine of its stock, and returns its outcome.
fn take<A: Allocator + Copy>(
    alloc: A,
    stocks: &mut Vec<Stock<A>, A>,
    payload: &[u8],
) -> Result<Outcome, Fail> {
    let locate = match part(payload) {
        Part::Nowhere(outcome) => return Ok(outcome),
        Part::Locate(locate) => locate,
    };
    let index = index_of(alloc, stocks, locate)?;
    match stocks.get_mut(index) {
        Some(stock) if stock.locate() == locate && stock.steps() < u32::MAX => {
            Ok(stock.step(payload)?)
        }
        _ => Err(Fail::new("a stock's machine isn't at its index")),
    }
}

// The stock and the reference of a payload that names a reference for a new order.
fn named_by(payload: &[u8]) -> Option<(u16, u64)> {
    match read_msg(payload) {
        Shape::Known(Msg::Add(head, m)) => Some((head.locate, m.reference)),
        Shape::Known(Msg::AddMpid(head, m)) => Some((head.locate, m.reference)),
        Shape::Known(Msg::Replace(head, m)) => Some((head.locate, m.new_reference)),
        _ => None,
    }
}

// Compares which of the references that a day names for new orders are spent.
fn same_named<A: Allocator + Copy>(
    day: &Day<A>,
    plain: &Plain<A>,
    stocks: &[Stock<A>],
) -> Result<(), Fail> {
    for (locate, reference) in day.payloads().filter_map(|payload| named_by(payload)) {
        for stock in stocks {
            if stock.locate() == locate {
                let found = (locate, reference, stock.spent(reference));
                let wanted = (locate, reference, plain.spent(locate, reference));
                same("a reference that the day names", &found, &wanted)?;
            }
        }
    }
    Ok(())
}

// Leads these machines through a day.
fn compare_along<A: Allocator + Copy>(
    alloc: A,
    day: &Day<A>,
    plain: &mut Plain<A>,
    stocks: &mut Vec<Stock<A>, A>,
) -> Result<usize, Fail> {
    let every = if day.len() <= 100 { 1 } else { 100 };
    let mut messages = 0u64;
    for payload in day.payloads() {
        let outcome = step(plain, payload)?;
        same("an outcome", &take(alloc, stocks, payload)?, &outcome)?;
        if let Part::Locate(_) = part(payload) {
            messages = messages.saturating_add(1);
        }
        if plain.steps() % every == 0 {
            same_stocks(alloc, plain, stocks, messages)?;
        }
    }
    same_stocks(alloc, plain, stocks, messages)?;
    same_named(day, plain, stocks)?;
    Ok(stocks.len())
}

/// Leads all machines through a day and compares them after each message of a day of at most 100, and after every
/// hundredth of a longer one. Returns how many stocks have messages.
pub fn compare<A: Allocator + Copy>(alloc: A, day: &Day<A>) -> Result<usize, Fail> {
    compare_along(alloc, day, &mut Plain::new(alloc), &mut Vec::new(alloc))
}
