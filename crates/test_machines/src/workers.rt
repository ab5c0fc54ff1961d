//! A day replayed for several numbers of workers, beside the plain machine, and in segments of several sizes.
use crate::comparing::{same_stocks, step};
use binaryfile::{Day, Feed, Sink};
use day_core::{Parts, Piece, Turns, merge, split};
use file_replay::Silent;
use itch_engine::{replay_run, report_run};
use itch_table::{Outcome, Part, Plain, part};
use std::alloc::Allocator;
use std::sync::Wait;
use std::test::Fail;
use std::thread::Threads;
use stock_machine::Stock;
use stock_workers::{FreeGate, Replayed, run};
use test_support::{same, same_bytes, same_list};
use top_cell::Board;
use worker_count::WorkerCount;

/// The numbers of workers.
const WORKERS: [u32; 4] = [1, 2, 3, 64];

// How many bytes a segment takes, and how many threads replay it. The first ones are for short files, since each segment
// takes time of its own.
const SEGMENTS: [(u32, u32); 6] = [
    (7, 1),
    (50, 2),
    (333, 3),
    (1_000, 4),
    (2_000, 64),
    (1 << 20, 2),
];

// What the plain machine makes of a day.
#[derive(Drop)]
struct Wanted<A: Allocator> {
    plain: Plain<A>,
    outcomes: Vec<Outcome, A>,
    // How many messages are of a stock.
    messages: u64,
}

// Leads the plain machine along a day, whose messages are those that are wanted then.
fn lead<A: Allocator + Copy>(wanted: &mut Wanted<A>, day: &Day<A>) -> Result<(), Fail> {
    for payload in day.payloads() {
        wanted.outcomes.push(step(&mut wanted.plain, payload)?)?;
        if let Part::Locate(_) = part(payload) {
            wanted.messages = wanted.messages.saturating_add(1);
        }
    }
    Ok(())
}

// What the plain machine says of a day.
fn follow<A: Allocator + Copy>(alloc: A, day: &Day<A>) -> Result<Wanted<A>, Fail> {
    let mut wanted = Wanted {
        plain: Plain::new(alloc),
        outcomes: Vec::new(alloc),
        messages: 0,
    };
    lead(&mut wanted, day)?;
    Ok(wanted)
}

// Compares the outcomes, the event and all stocks of a day with those of the plain machine.
fn same_day<A: Allocator + Copy>(
    alloc: A,
    outcomes: &[Outcome],
    stocks: &[Stock<A>],
    event: Option<u8>,
    wanted: &Wanted<A>,
) -> Result<(), Fail> {
    same_list("the outcomes", outcomes, &wanted.outcomes)?;
    same("the last event", &event, &wanted.plain.event())?;
    same_stocks(alloc, &wanted.plain, stocks, wanted.messages)
}

// What became of a worker's messages, by this many of its turns.
fn own_pieces<A: Allocator + Copy>(
    alloc: A,
    turns: &mut Turns<'_, A>,
    worker: u32,
    count: usize,
) -> Result<Vec<Piece, A>, Fail> {
    let mut own = Vec::new(alloc);
    for _ in 0..count {
        own.extend(turns.turn(worker)?)?;
    }
    Ok(own)
}

// Adds what became of all messages: of those of no stock, and of each worker's, whose turns are taken one after another.
fn add_pieces<A: Allocator + Copy>(
    alloc: A,
    parts: &Parts<A>,
    turns: &mut Turns<'_, A>,
    pieces: &mut Vec<Vec<Piece, A>, A>,
) -> Result<(), Fail> {
    pieces.push(parts.fixed().to_vec(alloc)?)?;
    for worker in 0..parts.workers() {
        pieces.push(own_pieces(alloc, turns, worker, parts.own(worker).len())?)?;
    }
    Ok(())
}

// What became of all messages.
fn all_pieces<A: Allocator + Copy>(
    alloc: A,
    parts: &Parts<A>,
    turns: &mut Turns<'_, A>,
) -> Result<Vec<Vec<Piece, A>, A>, Fail> {
    let mut pieces = Vec::new(alloc);
    add_pieces(alloc, parts, turns, &mut pieces)?;
    Ok(pieces)
}

// What became of all messages by new workers, this many.
fn pieces_of<R: Threads + Sync, A: Allocator + Copy + Send + Sync>(
    rt: &R,
    alloc: A,
    day: &Day<A>,
    workers: u32,
) -> Result<Vec<Vec<Piece, A>, A>, Fail> {
    let parts = split(rt, alloc, day, workers)?;
    all_pieces(alloc, &parts, &mut Turns::new(rt, alloc, day, workers)?)
}

// Does the turns of a day's workers one after another, and puts together what became of the messages.
fn compare_turns<R: Threads + Sync, A: Allocator + Copy + Send + Sync>(
    rt: &R,
    alloc: A,
    day: &Day<A>,
    workers: u32,
    wanted: &Wanted<A>,
) -> Result<(), Fail> {
    let pieces = pieces_of(rt, alloc, day, workers)?;
    let found = merge(alloc, day.len(), pieces)?;
    same_list("the outcomes", &found, &wanted.outcomes)
}

// What a run has made.
fn same_run<A: Allocator + Copy>(
    alloc: A,
    found: &Replayed<A>,
    wanted: &Wanted<A>,
) -> Result<(), Fail> {
    same_day(alloc, &found.outcomes, &found.stocks, found.event, wanted)
}

// Replays a day by workers in threads.
fn compare_run<R: Threads + Wait + Sync, A: Allocator + Copy + Send + Sync>(
    rt: &R,
    alloc: A,
    day: &Day<A>,
    workers: u32,
    wanted: &Wanted<A>,
) -> Result<(), Fail> {
    let (board, writers) = Board::new(alloc, day)?;
    match run(rt, alloc, day, &board, writers, workers, &FreeGate) {
        Ok(found) => same_run(alloc, &found, wanted),
        Err(fault) => Err(Fail::from(fault)),
    }
}

// This many workers.
fn worker_count(workers: u32) -> Result<WorkerCount, Fail> {
    WorkerCount::new(workers)
        .ok_or("a replay has 1 to 64 workers")
        .map_err(|case| Fail::new(case))
}

// The report of a day, and how many of its messages were refused.
fn report_of<R: Threads + Wait + Sync, A: Allocator + Copy + Send + Sync>(
    rt: &R,
    alloc: A,
    day: &Day<A>,
    workers: u32,
) -> Result<(Vec<u8, A>, u32), Fail> {
    let workers = worker_count(workers)?.get();
    let mut report = Vec::new(alloc);
    let refused = replay_run(
        rt,
        alloc,
        &mut Feed::new(day.bytes()),
        &mut Sink::new(&mut report),
        workers,
        &FreeGate,
    )?;
    Ok((report, refused))
}

// The same of a day that is replayed in segments while its file is read.
fn report_in_segments<R: Threads + Sync, A: Allocator + Copy + Send + Sync>(
    rt: &R,
    alloc: A,
    day: &Day<A>,
    segment: u32,
    threads: u32,
) -> Result<(Vec<u8, A>, u32), Fail> {
    if segment == 0 || segment > 1 << 30 {
        return Err(Fail::new("a segment takes 1 to 2^30 bytes"));
    }
    let threads = worker_count(threads)?;
    let mut report = Vec::new(alloc);
    let refused = report_run(
        rt,
        alloc,
        &mut Feed::new(day.bytes()),
        &mut Sink::new(&mut report),
        segment,
        threads,
        &Silent,
    )?;
    Ok((report, refused))
}

// Compares what a day makes for each number of workers.
fn compare_outcomes<R: Threads + Wait + Sync, A: Allocator + Copy + Send + Sync>(
    rt: &R,
    alloc: A,
    day: &Day<A>,
    wanted: &Wanted<A>,
) -> Result<(), Fail> {
    for workers in WORKERS {
        compare_turns(rt, alloc, day, workers, wanted)?;
        compare_run(rt, alloc, day, workers, wanted)?;
    }
    Ok(())
}

// Compares two reports, and how many messages each says were refused.
fn same_report<A: Allocator>(
    found: &(Vec<u8, A>, u32),
    wanted: &(Vec<u8, A>, u32),
) -> Result<(), Fail> {
    same_bytes("a report", &found.0, &wanted.0)?;
    same("refused messages", &found.1, &wanted.1)
}

// Compares the reports of each number of workers, and those of a replay in segments.
fn compare_reports<R: Threads + Wait + Sync, A: Allocator + Copy + Send + Sync>(
    rt: &R,
    alloc: A,
    day: &Day<A>,
    wanted: &(Vec<u8, A>, u32),
) -> Result<(), Fail> {
    for workers in WORKERS {
        same_report(&report_of(rt, alloc, day, workers)?, wanted)?;
    }
    for (segment, threads) in SEGMENTS {
        if day.bytes().len() < 10_000 || segment >= 1_000 {
            let found = report_in_segments(rt, alloc, day, segment, threads)?;
            same_report(&found, wanted)?;
        }
    }
    Ok(())
}

/// Compares what a day makes for each number of workers with what the plain machine makes of it, and the reports with
/// each other, those of a replay in segments too.
pub fn compare_workers<R: Threads + Wait + Sync, A: Allocator + Copy + Send + Sync>(
    rt: &R,
    alloc: A,
    day: &Day<A>,
) -> Result<(), Fail> {
    compare_outcomes(rt, alloc, day, &follow(alloc, day)?)?;
    compare_reports(rt, alloc, day, &report_of(rt, alloc, day, 1)?)
}
