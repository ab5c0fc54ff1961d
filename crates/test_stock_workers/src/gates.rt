//! Workers that a gate holds.
ghost use Rattle.itch_table.specs.Shows.{locates_of_day};
ghost use Rattle.top_cell.specs.Boards.{AreNew, IsOn};

use crate::screens::first_screen;
use binaryfile::{Day, Feed, Sink};
use itch_engine::replay_run;
use std::alloc::{Allocator, Global};
use std::sync::Wait;
use std::sync::atomic::{AtomicU64, Ordering};
use std::test::Fail;
use std::thread::{Threads, join, yield_now};
use stock_workers::{Gate, run};
use test_support::{AAPL, MSFT, crossed_book, day_with, same};
use top_cell::{Board, Reading, Screen};

// How often a worker that is held looks whether it may go on, at most; each time other threads may run.
const LOOKS: u32 = 1_000_000;

// Holds worker 1 at message 1 and worker 0 at message 2, each until the other has come there too.
#[derive(Drop)]
struct Meeting {
    first: AtomicU64,
    second: AtomicU64,
    met: AtomicU64,
}

// Waits until a word isn't 0, and returns whether that was seen.
fn is_set(word: &AtomicU64) -> bool {
    for _ in 0..LOOKS {
        if word.load(Ordering::SeqCst) != 0 {
            return true;
        }
        yield_now();
    }
    false
}

impl Meeting {
    // Nobody has come yet.
    fn new() -> Meeting {
        Meeting {
            first: AtomicU64::new(0),
            second: AtomicU64::new(0),
            met: AtomicU64::new(0),
        }
    }
}

impl Gate for Meeting {
    fn at<R: Threads + Wait + Sync>(&self, _rt: &R, worker: u32, message: u32) {
        let (own, other) = match (worker, message) {
            (1, 1) => (&self.first, &self.second),
            (0, 2) => (&self.second, &self.first),
            _ => return,
        };
        own.store(1, Ordering::SeqCst);
        if is_set(other) {
            self.met.fetch_add(1, Ordering::SeqCst);
        }
    }
}

#[test]
fn two_workers_run_beside_each_other(rt: HostRuntime) -> Result<(), Fail> {
    let alloc = rt.alloc();
    let day = day_with(alloc, &[AAPL.directory(), MSFT.directory()])?;
    let gate = Meeting::new();
    let (board, writers) = Board::new(alloc, &day)?;
    let replayed = run(&rt, alloc, &day, &board, writers, 2, &gate).is_ok();
    let met = gate.met.load(Ordering::SeqCst);
    same("who met the other in a run", &(replayed, met), &(true, 2))
}

#[test]
fn two_workers_of_a_report_run_beside_each_other(rt: HostRuntime) -> Result<(), Fail> {
    let alloc = rt.alloc();
    let day = day_with(alloc, &[AAPL.directory(), MSFT.directory()])?;
    let gate = Meeting::new();
    let mut report = Vec::new(alloc);
    let returned = replay_run(
        &rt,
        alloc,
        &mut Feed::new(day.bytes()),
        &mut Sink::new(&mut report),
        2,
        &gate,
    );
    let met = gate.met.load(Ordering::SeqCst);
    same(
        "who met the other in a replay",
        &(returned, met),
        &(Ok(0), 2),
    )
}

// Holds the worker at message 2 until a screen has seen message 1.
#[derive(Drop)]
struct Seeing {
    seen: AtomicU64,
    held: AtomicU64,
}

impl Gate for Seeing {
    fn at<R: Threads + Wait + Sync>(&self, _rt: &R, _worker: u32, message: u32) {
        if message == 2 && is_set(&self.seen) {
            self.held.fetch_add(1, Ordering::SeqCst);
        }
    }
}

// Reads until message 1 is there, then lets the worker go on. Returns that reading, or none where it didn't come.
fn see_first<R: Wait, A: Allocator>(
    rt: &R,
    board: &Board<A>,
    mut screen: Screen,
    gate: &Seeing,
) -> Option<Reading>
    requires { IsOn board.now screen.place }
{
    for _ in 0..LOOKS {
        let reading = screen.read(rt, board);
        if reading.message == 1 {
            gate.seen.store(1, Ordering::SeqCst);
            return Some(reading);
        }
        yield_now();
    }
    None
}

// A run by one worker, and a screen in another thread: whether the day is replayed, and what the screen has seen.
fn run_and_see<R: Threads + Wait + Sync>(
    rt: &R,
    alloc: Global,
    day: &Day<Global>,
    gate: &Seeing,
) -> Result<(bool, Option<Reading>), Fail> {
    let (board, mut writers) = Board::new(alloc, day)?;
    let screen = first_screen(&board, &mut writers)?;
    let board = &board;
    Ok(join(
        rt,
        || -> bool
            requires { AreNew day.now.payloads (locates_of_day day.now.payloads) board.now writers.items }
        { run(rt, alloc, day, board, writers, 1, gate).is_ok() },
        || -> Option<Reading>
            requires { IsOn board.now screen.place }
        { see_first(rt, board, screen, gate) },
    ))
}

#[test]
fn a_screen_reads_while_a_worker_is_held(rt: HostRuntime) -> Result<(), Fail> {
    let alloc = rt.alloc();
    let day = crossed_book(alloc)?;
    let gate = Seeing {
        seen: AtomicU64::new(0),
        held: AtomicU64::new(0),
    };
    let (replayed, seen) = run_and_see(&rt, alloc, &day, &gate)?;
    let first = Reading {
        message: 1,
        bid_price: 0,
        bid_shares: 0,
        ask_price: 0,
        ask_shares: 0,
    };
    same(
        "the day and the screen",
        &(replayed, seen),
        &(true, Some(first)),
    )?;
    same(
        "how often it was held",
        &gate.held.load(Ordering::SeqCst),
        &1,
    )
}
