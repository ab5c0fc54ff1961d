//! Leads day files, and days at random, through the plain machine, through a machine for each of their stocks, through
//! the parts of several numbers of workers, one after another and in threads, through segments of several sizes, through
//! the tracks of their stocks, and through a debugger, and compares what they say. The program test_days calls it.
#![tactic(auto)]

mod blaming;
mod comparing;
mod day;
mod meaning;
mod places;
mod random;
mod random_days;
mod stops;
mod tally;
mod texts;
mod tracks;
mod workers;

use binaryfile::{Day, Feed, Limits};
use std::alloc::{Allocator, Global};
use std::fs;
use std::rt::Runtime;
use std::sync::Wait;
use std::test::Fail;
use std::thread::Threads;

// No example is larger.
const LIMITS: Limits = Limits {
    bytes: 1 << 20,
    messages: 1 << 16,
};

// Compares the machines over a day, and returns how many stocks have messages.
fn compare_day<R: Threads + Wait + Sync, A: Allocator + Copy + Send + Sync>(
    rt: &R,
    alloc: A,
    day: &Day<A>,
) -> Result<usize, Fail> {
    let stocks = day::compare(alloc, day)?;
    workers::compare_workers(rt, alloc, day)?;
    places::compare_places(alloc, day)?;
    tracks::compare_tracks(alloc, day)?;
    Ok(stocks)
}

// The day of a file.
fn load<R: Runtime + AllocGlobal>(rt: &R, path: &str) -> Result<Day<Global>, Fail> {
    let Ok(file) = fs::open(rt, path) else {
        return Err(Fail::new("the file can't be opened"));
    };
    match Day::load(rt.alloc(), &mut Feed::new(file), LIMITS) {
        Ok(day) => Ok(day),
        Err(_) => Err(Fail::new("the file can't be loaded")),
    }
}

// Prints how many messages and stocks a file has.
fn print_file<R: Runtime>(rt: &R, path: &str, messages: u32, stocks: usize) -> Result<(), Fail> {
    match println!(rt; "{path}: {messages} messages, {stocks} stocks") {
        Ok(()) => Ok(()),
        Err(_) => Err(Fail::new("a line can't be printed")),
    }
}

/// Compares the machines over one file, and prints how many messages and stocks it has.
pub fn compare_file<R: Runtime + AllocGlobal + Threads + Wait + Sync>(
    rt: &R,
    path: &str,
) -> Result<(), Fail> {
    let day = load(rt, path)?;
    let stocks = compare_day(rt, rt.alloc(), &day)?;
    print_file(rt, path, day.len(), stocks)
}

/// Compares the machines over days at random, and prints how many there are, how often each outcome occurs, how many
/// changed texts denote a file, and how many stocks a wide day has.
pub fn compare_random<R: Runtime + AllocGlobal + Threads + Wait + Sync>(
    rt: &R,
) -> Result<(), Fail> {
    let (tally, assembled) = random_days::compare_random_days(rt, rt.alloc())?;
    let stocks = random_days::compare_wide_day(rt, rt.alloc())?;
    match println!(rt;
        "at random: {} days, {} messages each\n{tally}\nchanged texts that denote a file {assembled}\n\
        a day at random of {stocks} stocks",
        random_days::DAYS,
        random_days::MESSAGES
    ) {
        Ok(()) => Ok(()),
        Err(_) => Err(Fail::new("a line can't be printed")),
    }
}
