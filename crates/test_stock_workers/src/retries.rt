//! Turns that are refused memory and taken again, at a gate that notes with which messages it is called.
ghost use Rattle.std.specs.Prelude.{◌≡◌, All};
ghost use Rattle.itch_table.specs.Shows.{locates_of_day};
ghost use Rattle.day_core.specs.Splitting.{ArePartsOf};
ghost use Rattle.top_cell.specs.Boards.{IsOn};
ghost use Rattle.stock_workers.specs.Running.{IsWaiting};
ghost use Rattle.stock_workers.specs.Working.{IsWorkerOf, places_of};

use crate::alone::{Waiting, only_worker, prepare};
use binaryfile::Day;
use day_core::Parts;
use std::alloc::{Allocator, Global};
use std::sync::Wait;
use std::sync::atomic::{AtomicU64, Ordering};
use std::test::Fail;
use std::thread::Threads;
use stock_workers::{Gate, Worker};
use test_refusing::{Refusal, Refusing, Tried, refuse_each};
use test_support::{same, two_stocks};
use top_cell::Board;

// Notes the message of each call as a decimal digit, the last one lowest.
#[derive(Drop)]
struct Noting {
    digits: AtomicU64,
}

// Digits with one more.
fn with_digit(digits: u64, message: u32) -> u64 {
    digits.wrapping_mul(10).wrapping_add(u64::from(message))
}

impl Gate for Noting {
    fn at<R: Threads + Wait + Sync>(&self, _rt: &R, _worker: u32, message: u32) {
        let digits = self.digits.load(Ordering::SeqCst);
        let more = with_digit(digits, message);
        self.digits.store(more, Ordering::SeqCst);
    }
}

// Takes the turns of the only worker of two stocks under a refusal, and one more where none of its seven messages is
// left. A turn that is refused is taken again with memory. The gate was called once for each try, with the message of
// that turn, and not at all where no message was left.
fn take_turns<R: Threads + Wait + Sync, A: Allocator + Copy + Send + Sync>(
    rt: &R,
    heap: &Refusing<Global>,
    day: &Day<A>,
    board: &Board<A>,
    worker: &mut Worker<'_, A>,
) -> Result<Tried, Fail>
    requires worker { IsWorkerOf day.now.payloads worker.old }
    requires board { All (IsOn board.now) (places_of worker.old) }
{
    let gate = Noting {
        digits: AtomicU64::new(0),
    };
    let mut tried = None;
    let mut wanted = 0;
    for message in 1..=7 {
        wanted = with_digit(wanted, message);
        if worker.turn(rt, day, board, &gate).is_err() {
            tried = Some(heap.tried(true));
            wanted = with_digit(wanted, message);
            worker.turn(rt, day, board, &gate)?;
        }
    }
    let last = worker.turn(rt, day, board, &gate)?;
    let digits = gate.digits.load(Ordering::SeqCst);
    same("the gate's messages", &(last, digits), &(None, wanted))?;
    Ok(tried.unwrap_or_else(|| heap.tried(false)))
}

// Takes the turns of a new worker under a refusal.
fn turns_of<R: Threads + Wait + Sync, A: Allocator + Copy + Send + Sync>(
    rt: &R,
    heap: &Refusing<Global>,
    alloc: A,
    day: &Day<A>,
    parts: &Parts<A>,
    waiting: Waiting<A>,
    refusal: Refusal,
) -> Result<Tried, Fail>
    requires parts { ArePartsOf day.now.payloads parts.now }
    requires one { parts.now.workers ≡ 1 }
    requires waits { IsWaiting day.now.payloads (locates_of_day day.now.payloads) waiting.board
        waiting.writers.items }
    requires screen { IsOn waiting.board waiting.screen.place }
{
    match only_worker(alloc, day, parts, waiting) {
        Ok((mut worker, board, _)) => {
            heap.restart(refusal);
            take_turns(rt, heap, day, &board, &mut worker)
        }
        Err(error) => Err(Fail::from(error)),
    }
}

// Takes the turns of the only worker of two stocks under a refusal.
fn try_turns<R: Threads + Wait + Sync, A: Allocator + Copy + Send + Sync>(
    rt: &R,
    heap: &Refusing<Global>,
    alloc: A,
    refusal: Refusal,
) -> Result<Tried, Fail> {
    let day = two_stocks(alloc)?;
    let (parts, waiting) = prepare(rt, alloc, &day)?;
    turns_of(rt, heap, alloc, &day, &parts, waiting, refusal)
}

#[test]
fn a_refused_turn_comes_to_the_gate_again(rt: HostRuntime) -> Result<(), Fail> {
    let heap = Refusing::new(rt.alloc(), Refusal::Never);
    let growths = refuse_each(|refusal: Refusal| -> Result<Tried, Fail> {
        try_turns(&rt, &heap, &heap, refusal)
    })?;
    same("some growths", &(growths > 1 && growths <= 100), &true)
}
