//! Runs that are refused memory.
ghost use Rattle.itch_table.specs.Shows.{locates_of_day};
ghost use Rattle.top_cell.specs.Boards.{AreNew};

use crate::runs::same_two_stocks;
use crate::screens::first_screen;
use binaryfile::Day;
use std::alloc::{Allocator, Global};
use std::sync::Wait;
use std::sync::atomic::{AtomicU64, Ordering};
use std::test::Fail;
use std::thread::{Threads, yield_now};
use stock_workers::{Gate, Replayed, RunFault, run};
use test_refusing::{Refusal, Refusing, Tried, refuse_each};
use test_support::{same, two_stocks};
use top_cell::{Board, Reading, TopWriter};

// Lets each worker linger at each message while other threads run, and knows how many are there.
#[derive(Drop)]
struct Lingering {
    there: AtomicU64,
}

impl Gate for Lingering {
    fn at<R: Threads + Wait + Sync>(&self, _rt: &R, _worker: u32, _message: u32) {
        self.there.fetch_add(1, Ordering::SeqCst);
        for _ in 0..100u32 {
            yield_now();
        }
        self.there.fetch_sub(1, Ordering::SeqCst);
    }
}

// A reading of a stock that has bids only.
fn bid(message: u32, bid_price: u32, bid_shares: u64) -> Reading {
    Reading {
        message,
        bid_price,
        bid_shares,
        ask_price: 0,
        ask_shares: 0,
    }
}

// What a screen may read of the first of two stocks, before the first message and after each of its own.
fn readings() -> [Reading; 5] {
    [
        bid(0, 0, 0),
        bid(1, 0, 0),
        bid(3, 100, 10),
        bid(5, 0, 0),
        bid(7, 0, 0),
    ]
}

// A run that succeeds has made the whole day.
fn whole_day<A: Allocator + Copy + Send + Sync>(
    heap: &Refusing<Global>,
    alloc: A,
    replayed: &Replayed<A>,
) -> Result<Tried, Fail> {
    let tried = heap.tried(false);
    same_two_stocks(alloc, replayed)?;
    Ok(tried)
}

// The fault of a run by two workers, and what became of it. No worker is at its gate any more.
fn fault_of<R: Threads + Wait + Sync, A: Allocator + Copy + Send + Sync>(
    rt: &R,
    heap: &Refusing<Global>,
    alloc: A,
    day: &Day<A>,
    board: &Board<A>,
    writers: Vec<TopWriter, A>,
) -> Result<(Option<RunFault>, Tried), Fail>
    requires { AreNew day.now.payloads (locates_of_day day.now.payloads) board.now writers.items }
{
    let gate = Lingering {
        there: AtomicU64::new(0),
    };
    let (fault, tried) = match run(rt, alloc, day, board, writers, 2, &gate) {
        Ok(replayed) => (None, whole_day(heap, alloc, &replayed)?),
        Err(fault) => (Some(fault), heap.tried(true)),
    };
    same("who is at a gate", &gate.there.load(Ordering::SeqCst), &0)?;
    Ok((fault, tried))
}

// A run by two workers under a refusal, on a new board: its fault, what a screen of the first stock, made before the
// run, reads after it, and what became of it.
fn run_under<R: Threads + Wait + Sync, A: Allocator + Copy + Send + Sync>(
    rt: &R,
    heap: &Refusing<Global>,
    alloc: A,
    day: &Day<A>,
    refusal: Refusal,
) -> Result<(Option<RunFault>, Reading, Tried), Fail> {
    let (board, mut writers) = Board::new(alloc, day)?;
    let mut screen = first_screen(&board, &mut writers)?;
    heap.restart(refusal);
    let (fault, tried) = fault_of(rt, heap, alloc, day, &board, writers)?;
    Ok((fault, screen.read(rt, &board), tried))
}

// Whether a run that ends so is as it must be: either it succeeds, and a screen reads the last message of its stock, or
// memory was refused, and what the screen reads is true of the day.
fn is_true(fault: Option<RunFault>, reading: Reading) -> bool {
    match fault {
        None => reading == bid(7, 0, 0),
        Some(RunFault::Memory) => readings().contains(&reading),
        Some(RunFault::Workers) => false,
    }
}

// A run under a refusal, which ends as it must. Where it is refused, a run on another board does the day with memory.
fn try_run<R: Threads + Wait + Sync, A: Allocator + Copy + Send + Sync>(
    rt: &R,
    heap: &Refusing<Global>,
    alloc: A,
    refusal: Refusal,
) -> Result<Tried, Fail> {
    let day = two_stocks(alloc)?;
    let (fault, reading, tried) = run_under(rt, heap, alloc, &day, refusal)?;
    let ended = (refusal, fault, reading);
    same(
        "how it ends",
        &(ended, is_true(fault, reading)),
        &(ended, true),
    )?;
    if tried.refused {
        let (fault, reading, _) = run_under(rt, heap, alloc, &day, Refusal::Never)?;
        same("with memory", &(fault, reading), &(None, bid(7, 0, 0)))?;
    }
    Ok(tried)
}

#[test]
fn a_run_without_memory_ends(rt: HostRuntime) -> Result<(), Fail> {
    let heap = Refusing::new(rt.alloc(), Refusal::Never);
    let growths = refuse_each(|refusal: Refusal| -> Result<Tried, Fail> {
        try_run(&rt, &heap, &heap, refusal)
    })?;
    same("some growths", &(1 < growths && growths <= 1_000), &true)
}
