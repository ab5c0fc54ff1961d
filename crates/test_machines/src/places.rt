//! A day at any place that a debugger goes to, beside the plain machine.
use crate::comparing::{same_steps, step};
use binaryfile::Day;
use day_core::locates;
use debugger::Debugger;
use itch_table::{Outcome, Part, Plain, part};
use std::alloc::{AllocError, Allocator};
use std::test::Fail;
use test_support::same;

// How many of a stock's messages apart a debugger is asked to keep copies.
const DISTANCES: [u32; 5] = [1, 2, 3, 7, 1_000];

// Leads a plain machine through the first messages of a day, and returns the outcome of the last of them.
fn step_to<A: Allocator + Copy>(
    plain: &mut Plain<A>,
    day: &Day<A>,
    n: u32,
) -> Result<Option<Outcome>, Fail> {
    let mut outcome = None;
    for payload in day.payloads().take(n as usize) {
        outcome = Some(step(plain, payload)?);
    }
    Ok(outcome)
}

// The plain machine after the first messages of a day, and the outcome of the last of them.
fn plain_at<A: Allocator + Copy>(
    alloc: A,
    day: &Day<A>,
    n: u32,
) -> Result<(Plain<A>, Option<Outcome>), Fail> {
    let mut plain = Plain::new(alloc);
    let outcome = step_to(&mut plain, day, n)?;
    Ok((plain, outcome))
}

// How many of the first messages of a day are of each of these stocks, whose locate codes rise.
fn steps_at<A: Allocator + Copy>(
    alloc: A,
    day: &Day<A>,
    n: u32,
    locates: &[u16],
) -> Result<Vec<u32, A>, AllocError> {
    let mut steps = vec![in alloc; 0u32; locates.len()]?;
    for payload in day.payloads().take(n as usize) {
        if let Part::Locate(locate) = part(payload)
            && let Ok(index) = locates.binary_search(&locate)
            && let Some(count) = steps.get_mut(index)
        {
            *count = count.saturating_add(1);
        }
    }
    Ok(steps)
}

// Compares a stock at a debugger's position with that of the plain machine: its locate code, and how many messages it has
// taken.
fn same_stock_at<A: Allocator + Copy>(
    alloc: A,
    plain: &Plain<A>,
    debugger: &mut Debugger<'_, A>,
    wanted: (u16, u32),
) -> Result<(), Fail> {
    let stock = debugger.stock(alloc, wanted.0)?;
    same_steps(alloc, plain, &stock, wanted)
}

// The same of all stocks.
fn same_stocks_at<A: Allocator + Copy>(
    alloc: A,
    plain: &Plain<A>,
    debugger: &mut Debugger<'_, A>,
    locates: &[u16],
    steps: &[u32],
) -> Result<(), Fail> {
    for (locate, steps) in locates.iter().zip(steps) {
        same_stock_at(alloc, plain, debugger, (*locate, *steps))?;
    }
    Ok(())
}

// Compares all that is at a debugger's place with a plain machine that stands there, and the outcome there.
fn same_there<A: Allocator + Copy>(
    alloc: A,
    day: &Day<A>,
    debugger: &mut Debugger<'_, A>,
    plain: &Plain<A>,
    outcome: Option<Outcome>,
    locates: &[u16],
) -> Result<(), Fail> {
    let n = plain.steps();
    same(
        "a place",
        &(debugger.position(), debugger.outcome(), debugger.event()),
        &(n, outcome, plain.event()),
    )?;
    let steps = steps_at(alloc, day, n, locates)?;
    same_stocks_at(alloc, plain, debugger, locates, &steps)
}

/// Compares the position of a debugger, and the outcome, the event and all stocks there, with those of the plain
/// machine after the first `n` messages.
pub fn same_place<A: Allocator + Copy>(
    alloc: A,
    day: &Day<A>,
    debugger: &mut Debugger<'_, A>,
    n: u32,
    locates: &[u16],
) -> Result<(), Fail> {
    let (plain, outcome) = plain_at(alloc, day, n)?;
    same_there(alloc, day, debugger, &plain, outcome, locates)
}

// Goes to a place, and compares all that is there with the plain machine.
fn compare_at<A: Allocator + Copy>(
    alloc: A,
    day: &Day<A>,
    debugger: &mut Debugger<'_, A>,
    n: u32,
    locates: &[u16],
) -> Result<(), Fail> {
    same("a move", &debugger.goto(alloc, n), &Ok(()))?;
    same_place(alloc, day, debugger, n, locates)
}

// Compares a debugger with the plain machine at all places, forwards and backwards.
fn compare_all<A: Allocator + Copy>(
    alloc: A,
    day: &Day<A>,
    debugger: &mut Debugger<'_, A>,
    locates: &[u16],
) -> Result<(), Fail> {
    let every = if day.len() <= 100 { 1 } else { 100 };
    for n in 0..=day.len() {
        if n % every == 0 {
            compare_at(alloc, day, debugger, n, locates)?;
            compare_at(alloc, day, debugger, day.len() - n, locates)?;
        }
    }
    Ok(())
}

// Compares a new debugger, which keeps copies this many of a stock's messages apart.
fn compare_new<A: Allocator + Copy>(
    alloc: A,
    day: &Day<A>,
    distance: u32,
    locates: &[u16],
) -> Result<(), Fail> {
    if distance == 0 {
        return Err(Fail::new("copies lie no message apart"));
    }
    compare_all(
        alloc,
        day,
        &mut Debugger::new(alloc, day, distance)?,
        locates,
    )
}

/// Compares a debugger with the plain machine after each message of a day of at most 100, and after every hundredth of
/// a longer one; each place is reached from an earlier one and from a later one.
pub fn compare_places<A: Allocator + Copy>(alloc: A, day: &Day<A>) -> Result<(), Fail> {
    let locates = locates(alloc, day)?;
    for distance in DISTANCES {
        compare_new(alloc, day, distance, &locates)?;
    }
    Ok(())
}

// Steps a debugger from the start of a day to its end and back, and compares all that is at each place with the plain
// machine.
fn walk<A: Allocator + Copy>(
    alloc: A,
    day: &Day<A>,
    debugger: &mut Debugger<'_, A>,
    locates: &[u16],
) -> Result<(), Fail> {
    for n in 1..=day.len() {
        same("a step", &debugger.step(alloc), &Ok(()))?;
        same_place(alloc, day, debugger, n, locates)?;
    }
    for n in (0..day.len()).rev() {
        same("a step back", &debugger.back(alloc), &Ok(()))?;
        same_place(alloc, day, debugger, n, locates)?;
    }
    Ok(())
}

/// Compares a debugger with the plain machine at each place of a day, step by step, forwards and backwards.
pub fn compare_walk<A: Allocator + Copy>(
    alloc: A,
    day: &Day<A>,
    locates: &[u16],
) -> Result<(), Fail> {
    walk(alloc, day, &mut Debugger::new(alloc, day, 7)?, locates)
}
