//! Days at random, through all machines, the debugger and the text form.
use crate::compare_day;
use crate::places::compare_walk;
use crate::random::{random_day, wide_day};
use crate::stops::compare_stops;
use crate::tally::Tally;
use crate::texts::compare_texts;
use binaryfile::Day;
use day_core::locates;
use debugger::Break;
use itch_layouts::Nanos;
use itch_table::Side;
use rand::SeedableRng;
use rand::rngs::SmallRng;
use std::alloc::Allocator;
use std::sync::Wait;
use std::test::Fail;
use std::thread::Threads;

/// How many days there are.
pub const DAYS: u64 = 100;

/// How many messages each of them has after the first four, the directory messages: so a day has 100.
pub const MESSAGES: u32 = 96;

// How many texts with one byte changed are assembled for each day.
const CHANGED_TEXTS: u32 = 100;

// How many of these denote a file at least, over all days.
const ASSEMBLED_TEXTS: u64 = 300;

// Breakpoints of each kind. Most times at random are below 1,000, and others mostly at an edge, as the later one of these
// two is, so that one message reaches both.
fn breakpoints() -> Result<[Break; 6], Fail> {
    let (Some(earlier), Some(later)) = (Nanos::new(1_000), Nanos::new(u64::from(u16::MAX))) else {
        return Err(Fail::new("no time"));
    };
    Ok([
        Break::Price {
            locate: 1,
            side: Side::Buy,
            price: 2,
        },
        Break::Price {
            locate: 3,
            side: Side::Sell,
            price: 4,
        },
        Break::Reference {
            locate: 2,
            reference: 5,
        },
        Break::Reference {
            locate: 1,
            reference: u64::MAX,
        },
        Break::Time { time: earlier },
        Break::Time { time: later },
    ])
}

// Steps a debugger through a day, and lets breakpoints stop another one along it.
fn compare_moves<A: Allocator + Copy>(alloc: A, day: &Day<A>) -> Result<(), Fail> {
    let locates = locates(alloc, day)?;
    compare_walk(alloc, day, &locates)?;
    compare_stops(alloc, day, &breakpoints()?, &locates)
}

/// Compares the machines over a day at random of more stocks than a debugger keeps tracks of, and the debugger at each
/// of its places, so that it drops tracks and makes them again. Returns how many stocks have messages.
pub fn compare_wide_day<R: Threads + Wait + Sync, A: Allocator + Copy + Send + Sync>(
    rt: &R,
    alloc: A,
) -> Result<usize, Fail> {
    let day = wide_day(alloc, DAYS, MESSAGES)?;
    let stocks = compare_day(rt, alloc, &day)?;
    compare_walk(alloc, &day, &locates(alloc, &day)?)?;
    Ok(stocks)
}

// Compares the machines, the debugger and the texts over the day of a seed, and counts its outcomes. Returns how many of its
// changed texts denote a file.
fn compare_random_day<R: Threads + Wait + Sync, A: Allocator + Copy + Send + Sync>(
    rt: &R,
    alloc: A,
    seed: u64,
    day: &Day<A>,
    tally: &mut Tally,
) -> Result<u64, Fail> {
    compare_day(rt, alloc, day)?;
    compare_moves(alloc, day)?;
    tally.add_day(alloc, day)?;
    let mut random = SmallRng::seed_from_u64(seed.wrapping_add(DAYS));
    compare_texts(alloc, day, &mut random, CHANGED_TEXTS)
}

/// Compares the machines, the debugger and the texts over days at random, and fails too where an outcome is rare.
/// Returns how often each outcome occurs, and how many changed texts denote a file.
pub fn compare_random_days<R: Threads + Wait + Sync, A: Allocator + Copy + Send + Sync>(
    rt: &R,
    alloc: A,
) -> Result<(Tally, u64), Fail> {
    let mut tally = Tally::NONE;
    let mut assembled = 0u64;
    for seed in 0..DAYS {
        let day = random_day(alloc, seed, MESSAGES)?;
        let texts = compare_random_day(rt, alloc, seed, &day, &mut tally)?;
        assembled = assembled.saturating_add(texts);
    }
    if assembled < ASSEMBLED_TEXTS {
        return Err(Fail::new(format_args!("{assembled} changed texts denote a file")));
    }
    tally.judge()?;
    Ok((tally, assembled))
}
