//! Days that are split among workers.
use crate::days::{add_entry, day_of, parts_of, two_stocks};
use binaryfile::Day;
use day_core::{Event, Parts, Piece, Seen, SplitFault, Turns, play, split};
use itch_table::Outcome;
use std::alloc::{Allocator, Global};
use std::test::Fail;
use std::thread::Threads;
use test_refusing::{Refusal, Refusing, Tried, refuse_each};
use test_support::{AAPL, MSFT, same, same_bytes, same_list, system};
use worker_count::WorkerCount;

// An entry of an unknown type, of one byte.
const UNKNOWN: &[u8] = b"\x00\x01O";

// A day that is long enough for several threads: a message of a stock stands first, and after each 1,000 messages
// of an unknown type.
fn long_day<A: Allocator + Copy>(alloc: A) -> Result<Day<A>, Fail> {
    let mut file = Vec::new(alloc);
    add_entry(alloc, &mut file, &AAPL.directory())?;
    for thousand in 0..200u32 {
        for _ in 0..1_000u32 {
            file.extend_from_slice(UNKNOWN)?;
        }
        let stock = if thousand % 2 == 0 { MSFT } else { AAPL };
        add_entry(alloc, &mut file, &stock.directory())?;
    }
    day_of(alloc, file)
}

#[test]
fn each_stock_has_its_worker(rt: HostRuntime) -> Result<(), Fail> {
    let day = two_stocks(rt.alloc())?;
    let parts = parts_of(&rt, rt.alloc(), &day, 2)?;
    same_list("the stocks", parts.locates(), &[1, 2, 3])?;
    for (worker, numbers) in [(0, &[2, 4][..]), (1, &[1, 3, 5, 6, 7]), (2, &[])] {
        same_list("a worker's messages", parts.own(worker), numbers)?;
    }
    same("the messages of no stock", &parts.fixed().len(), &0)?;
    same("the event", &parts.event(), &None)
}

// A day of one system event, which begins it.
fn one_event<A: Allocator + Copy>(alloc: A) -> Result<Day<A>, Fail> {
    let mut file = Vec::new(alloc);
    add_entry(alloc, &mut file, &system(0, b'O'))?;
    day_of(alloc, file)
}

#[test]
fn a_system_event_is_of_no_stock(rt: HostRuntime) -> Result<(), Fail> {
    let day = one_event(rt.alloc())?;
    let parts = parts_of(&rt, rt.alloc(), &day, 2)?;
    same("the stocks", &parts.locates().len(), &0)?;
    let (message, outcome) = (1, Outcome::Applied);
    let wanted = Piece { message, outcome };
    same_list("the messages of no stock", parts.fixed(), &[wanted])?;
    same("the event", &parts.event(), &Some(b'O'))
}

#[test]
fn a_system_event_is_no_turn(rt: HostRuntime) -> Result<(), Fail> {
    let day = one_event(rt.alloc())?;
    let turn = Turns::new(&rt, rt.alloc(), &day, 2)?.turn(0)?;
    same("a turn", &turn, &None)?;
    let (screen, locate, words) = (7, 1, [0; 4]);
    let events = [Event::Turn(1), Event::Look { screen, locate }];
    let seen = play(&rt, rt.alloc(), &day, 2, &events)?;
    let wanted = Seen {
        screen,
        locate,
        words,
    };
    same_list("what is seen", &seen, &[wanted])
}

// The number is looked at before any growth.
#[test]
fn a_day_is_split_for_1_to_64_workers(rt: HostRuntime) -> Result<(), Fail> {
    let heap = Refusing::new(rt.alloc(), Refusal::Never);
    let day = two_stocks(&heap)?;
    for (workers, refusal, wanted) in [
        (0, Refusal::From(1), Err(SplitFault::Workers)),
        (1, Refusal::Never, Ok(1)),
        (64, Refusal::Never, Ok(64)),
        (65, Refusal::From(1), Err(SplitFault::Workers)),
        (u32::MAX, Refusal::From(1), Err(SplitFault::Workers)),
    ] {
        heap.restart(refusal);
        let found = split(&rt, &heap, &day, workers).map(|parts| parts.workers());
        same("a number of workers", &(workers, found), &(workers, wanted))?;
    }
    same("the least number", &WorkerCount::ONE.get(), &1)
}

// A worker of two has this many messages of the long day, with 2,001 others before the next one.
fn has_messages<A: Allocator>(
    parts: &Parts<A>,
    worker: u32,
    first: u32,
    count: usize,
) -> Result<(), Fail> {
    let own = parts.own(worker);
    same("how many", &(worker, own.len()), &(worker, count))?;
    for (found, wanted) in own.iter().zip((first..).step_by(2_002)) {
        same("a message", &(worker, *found), &(worker, wanted))?;
    }
    Ok(())
}

#[test]
fn a_long_day_is_split_whole(rt: HostRuntime) -> Result<(), Fail> {
    let day = long_day(rt.alloc())?;
    let parts = parts_of(&rt, rt.alloc(), &day, 2)?;
    same_list("the stocks", parts.locates(), &[1, 2])?;
    has_messages(&parts, 0, 1_002, 100)?;
    has_messages(&parts, 1, 1, 101)?;
    let fixed = parts.fixed();
    let last = fixed.last().map(|piece| (piece.message, piece.outcome));
    same("the messages of no stock", &fixed.len(), &200_000)?;
    same(
        "the last one of no stock",
        &last,
        &Some((200_200, Outcome::Passed)),
    )
}

// Compares the parts of a day, which has these stocks, with those of a good run.
fn compare<R: Threads + Sync, A: Allocator + Copy + Send + Sync>(
    rt: &R,
    alloc: A,
    day: &Day<A>,
    parts: &Parts<A>,
    locates: &[u16],
) -> Result<(), Fail> {
    same_list("the stocks", parts.locates(), locates)?;
    let whole = parts_of(rt, alloc, day, parts.workers())?;
    same_list("the messages of no stock", parts.fixed(), whole.fixed())?;
    for worker in 0..parts.workers() {
        same_list("a worker's messages", parts.own(worker), whole.own(worker))?;
    }
    same("the event", &parts.event(), &whole.event())
}

// The same of the parts for this many workers.
fn compare_next<R: Threads + Sync, A: Allocator + Copy + Send + Sync>(
    rt: &R,
    alloc: A,
    day: &Day<A>,
    workers: u32,
    locates: &[u16],
) -> Result<(), Fail> {
    compare(rt, alloc, day, &parts_of(rt, alloc, day, workers)?, locates)
}

// Splits a day under a refusal, which leaves the day as it is. Where it is refused, it is split with memory. It has
// these stocks.
fn try_split<R: Threads + Sync, A: Allocator + Copy + Send + Sync>(
    rt: &R,
    heap: &Refusing<Global>,
    alloc: A,
    file: &[u8],
    workers: u32,
    locates: &[u16],
    refusal: Refusal,
) -> Result<Tried, Fail> {
    let day = day_of(alloc, file.to_vec(alloc)?)?;
    heap.restart(refusal);
    let made = split(rt, alloc, &day, workers);
    let tried = heap.tried(made.is_err());
    same_bytes("the day", day.bytes(), file)?;
    match made {
        Ok(parts) => compare(rt, alloc, &day, &parts, locates),
        Err(SplitFault::Memory) => compare_next(rt, alloc, &day, workers, locates),
        Err(SplitFault::Workers) => Err(Fail::new("a bad number of workers")),
    }?;
    Ok(tried)
}

// Whose each message is, the table of stocks, the list of the seven workers' lists and the locate codes take a growth
// each, and the lists of workers 1, 2 and 3, which have messages, one or two.
#[test]
fn a_day_without_memory_stays_whole(rt: HostRuntime) -> Result<(), Fail> {
    let heap = Refusing::new(rt.alloc(), Refusal::Never);
    let day = two_stocks(rt.alloc())?;
    let growths = refuse_each(|refusal: Refusal| -> Result<Tried, Fail> {
        try_split(&rt, &heap, &heap, day.bytes(), 7, &[1, 2, 3], refusal)
    })?;
    same("some growths", &(growths > 5 && growths <= 20), &true)
}

// Some growths are refused, alone and with all after them.
#[test]
fn a_long_day_without_memory_has_no_parts(rt: HostRuntime) -> Result<(), Fail> {
    let heap = Refusing::new(rt.alloc(), Refusal::Never);
    let day = long_day(rt.alloc())?;
    let whole = try_split(&rt, &heap, &heap, day.bytes(), 64, &[1, 2], Refusal::Never)?;
    same(
        "growths",
        &(whole.growths > 20, whole.refused),
        &(true, false),
    )?;
    for growth in [1, 2, 20, whole.growths / 2] {
        for refusal in [Refusal::Only(growth), Refusal::From(growth)] {
            let tried = try_split(&rt, &heap, &heap, day.bytes(), 64, &[1, 2], refusal)?;
            same(
                "a refused growth",
                &(refusal, tried.refused),
                &(refusal, true),
            )?;
        }
    }
    Ok(())
}
