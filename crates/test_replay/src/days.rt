//! Days that are cut anywhere, and replayed by several numbers of threads.
use crate::comparing::{Wanted, follow, same_day};
use crate::cutting::{Cut, first_of, segments_of};
use crate::random::random_day;
use crate::replaying::replay_segments;
use binaryfile::Day;
use std::alloc::Allocator;
use std::test::Fail;
use std::thread::Threads;
use test_support::{crossed_book, two_stocks};
use worker_count::WorkerCount;

// The numbers of threads.
const THREADS: [u32; 5] = [1, 2, 3, 4, 64];

// How many days at random there are, and how many messages each of them has.
const DAYS: u64 = 3;

const MESSAGES: u32 = 300;

// Of so many messages of a day at random each first part is replayed.
const PREFIXES: u32 = 15;

/// A number of threads.
pub fn threads_of(count: u32) -> Result<WorkerCount, Fail> {
    WorkerCount::new(count)
        .ok_or("1 to 64 threads")
        .map_err(|case| Fail::new(case))
}

/// Replays a day that is cut, and compares it with what the plain machine makes.
pub fn compare<R: Threads + Sync, A: Allocator + Copy + Send + Sync>(
    rt: &R,
    alloc: A,
    day: &Day<A>,
    wanted: &Wanted<A>,
    cut: Cut,
    threads: u32,
) -> Result<(), Fail> {
    let segments = segments_of(alloc, day, cut)?;
    let found = replay_segments(rt, alloc, &segments, threads_of(threads)?)?;
    same_day(alloc, &found, wanted)
}

// Cuts a day everywhere, and after each so many messages.
fn compare_all_cuts<R: Threads + Sync, A: Allocator + Copy + Send + Sync>(
    rt: &R,
    alloc: A,
    day: &Day<A>,
    threads: u32,
) -> Result<(), Fail> {
    let wanted = follow(alloc, day)?;
    for message in 0..=day.len() {
        compare(rt, alloc, day, &wanted, Cut::After(message), threads)?;
        compare(rt, alloc, day, &wanted, Cut::Every(message), threads)?;
    }
    Ok(())
}

#[test]
fn a_day_is_the_same_wherever_it_is_cut(rt: HostRuntime) -> Result<(), Fail> {
    let alloc = rt.alloc();
    compare_all_cuts(&rt, alloc, &two_stocks(alloc)?, 1)?;
    compare_all_cuts(&rt, alloc, &crossed_book(alloc)?, 3)
}

// Each first part of a day is a day.
#[test]
fn a_day_is_the_same_message_by_message(rt: HostRuntime) -> Result<(), Fail> {
    let alloc = rt.alloc();
    let day = random_day(alloc, DAYS, PREFIXES)?;
    for messages in 0..=day.len() {
        let first = first_of(alloc, &day, messages as usize)?;
        let wanted = follow(alloc, &first)?;
        compare(&rt, alloc, &first, &wanted, Cut::Every(7), 2)?;
    }
    Ok(())
}

#[test]
fn days_at_random_are_the_same(rt: HostRuntime) -> Result<(), Fail> {
    let alloc = rt.alloc();
    for seed in 0..DAYS {
        let day = random_day(alloc, seed, MESSAGES)?;
        let wanted = follow(alloc, &day)?;
        compare(&rt, alloc, &day, &wanted, Cut::Every(1), 2)?;
        for threads in THREADS {
            compare(&rt, alloc, &day, &wanted, Cut::Every(100), threads)?;
        }
    }
    Ok(())
}
