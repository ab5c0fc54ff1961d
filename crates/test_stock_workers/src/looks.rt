//! A screen that looks after each turn of a worker, and looks that are refused memory.
ghost use Rattle.std.specs.Prelude.{◌≡◌, All};
ghost use Rattle.itch_table.specs.Shows.{locates_of_day};
ghost use Rattle.top_cell.specs.Boards.{IsOn};
ghost use Rattle.day_core.specs.Splitting.{ArePartsOf};
ghost use Rattle.stock_workers.specs.Running.{IsWaiting};
ghost use Rattle.stock_workers.specs.Working.{IsWorkerOf, places_of};

use crate::alone::{Waiting, only_worker, piece, prepare, words_of};
use binaryfile::Day;
use day_core::{Parts, Piece, Turns};
use itch_table::Outcome;
use itch_watch::look;
use std::alloc::{Allocator, Global};
use std::sync::Wait;
use std::test::Fail;
use std::thread::Threads;
use stock_workers::{FreeGate, Worker};
use test_refusing::{Refusal, Refusing, Tried, refuse_each};
use test_support::{AAPL, crossed_book, day_with, same};
use top_cell::{Board, Reading, Screen};

// Takes the turns of the only worker of a day, and the same turns without threads. After each of them, the last that the
// screen has seen is what is looked at there.
fn follow<R: Threads + Wait + Sync, A: Allocator + Copy>(
    rt: &R,
    day: &Day<A>,
    board: &Board<A>,
    worker: &mut Worker<'_, A>,
    screen: &mut Screen,
    seen: &mut Vec<Reading, A>,
    turns: &mut Turns<'_, A>,
    wanted: &[(Option<Piece>, [u64; 4])],
) -> Result<(), Fail>
    requires worker { IsWorkerOf day.now.payloads worker.old }
    requires board { All (IsOn board.now) (places_of worker.old) }
    requires screen { IsOn board.now screen.old.place }
{
    for after in wanted {
        let piece = worker.turn(rt, day, board, &FreeGate)?;
        look(board, screen, seen)?;
        let words = seen.last().copied().map_or([0; 4], words_of);
        same("a turn", &(piece, words), after)?;
        let looked = (turns.turn(0)?, turns.look(1));
        same("the same turn without threads", &looked, after)?;
    }
    Ok(())
}

// A stock with a bid, a lower one, which leaves its best bid and ask as they are, and an ask below both.
fn two_bids<A: Allocator + Copy>(alloc: A) -> Result<Day<A>, Fail> {
    day_with(
        alloc,
        &[
            AAPL.directory(),
            AAPL.add(1, b'B', 100, 1_010_000),
            AAPL.add(2, b'B', 10, 1_000_000),
            AAPL.add(3, b'S', 50, 1_000_000),
        ],
    )
}

// The turns of the only worker of that day, and the best bid and ask after each of them.
fn turns_of_two_bids() -> [(Option<Piece>, [u64; 4]); 5] {
    let crossed = [4, 0x000f_6950_000f_4240, 100, 50];
    [
        (piece(1, Outcome::Applied), [1, 0, 0, 0]),
        (
            piece(2, Outcome::Applied),
            [2, 0x000f_6950_0000_0000, 100, 0],
        ),
        (
            piece(3, Outcome::Applied),
            [3, 0x000f_6950_0000_0000, 100, 0],
        ),
        (piece(4, Outcome::Applied), crossed),
        (None, crossed),
    ]
}

// Takes the turns of a new worker, and compares what a screen sees that has seen nothing.
fn follow_new<R: Threads + Wait + Sync, A: Allocator + Copy>(
    rt: &R,
    alloc: A,
    day: &Day<A>,
    parts: &Parts<A>,
    waiting: Waiting<A>,
    turns: &mut Turns<'_, A>,
    wanted: &[(Option<Piece>, [u64; 4])],
) -> Result<(), Fail>
    requires parts { ArePartsOf day.now.payloads parts.now }
    requires one { parts.now.workers ≡ 1 }
    requires waits { IsWaiting day.now.payloads (locates_of_day day.now.payloads) waiting.board
        waiting.writers.items }
    requires screen { IsOn waiting.board waiting.screen.place }
{
    match only_worker(alloc, day, parts, waiting) {
        Ok((mut worker, board, mut screen)) => follow(
            rt,
            day,
            &board,
            &mut worker,
            &mut screen,
            &mut Vec::new(alloc),
            turns,
            wanted,
        ),
        Err(error) => Err(Fail::from(error)),
    }
}

// The turns of the only worker of a crossed book, and the best bid and ask after each of them.
fn turns_of_crossed_book() -> [(Option<Piece>, [u64; 4]); 4] {
    let crossed = [3, 0x000f_6950_000f_4240, 100, 50];
    [
        (piece(1, Outcome::Applied), [1, 0, 0, 0]),
        (
            piece(2, Outcome::Applied),
            [2, 0x000f_6950_0000_0000, 100, 0],
        ),
        (piece(3, Outcome::Applied), crossed),
        (None, crossed),
    ]
}

// Takes the turns of the only worker of a day, with a screen and without threads.
fn follow_day<R: Threads + Wait + Sync, A: Allocator + Copy + Send + Sync>(
    rt: &R,
    alloc: A,
    day: &Day<A>,
    wanted: &[(Option<Piece>, [u64; 4])],
) -> Result<(), Fail> {
    let (parts, waiting) = prepare(rt, alloc, day)?;
    let mut turns = Turns::new(rt, alloc, day, 1)?;
    follow_new(rt, alloc, day, &parts, waiting, &mut turns, wanted)
}

#[test]
fn a_screen_sees_what_each_turn_leaves(rt: HostRuntime) -> Result<(), Fail> {
    let alloc = rt.alloc();
    follow_day(&rt, alloc, &two_bids(alloc)?, &turns_of_two_bids())?;
    follow_day(&rt, alloc, &crossed_book(alloc)?, &turns_of_crossed_book())
}

// Looks under a refusal after the first turn of a worker. Where it is refused, nothing is added, and the next look adds
// the reading.
fn look_under<R: Threads + Wait + Sync, A: Allocator + Copy>(
    rt: &R,
    heap: &Refusing<Global>,
    alloc: A,
    day: &Day<A>,
    board: &Board<A>,
    worker: &mut Worker<'_, A>,
    screen: &mut Screen,
    refusal: Refusal,
) -> Result<Tried, Fail>
    requires worker { IsWorkerOf day.now.payloads worker.old }
    requires board { All (IsOn board.now) (places_of worker.old) }
    requires screen { IsOn board.now screen.old.place }
{
    let mut seen = Vec::new(alloc);
    worker.turn(rt, day, board, &FreeGate)?;
    heap.restart(refusal);
    let refused = look(board, screen, &mut seen).is_err();
    let tried = heap.tried(refused);
    if refused {
        same("readings after a refusal", &seen.len(), &0)?;
        look(board, screen, &mut seen)?;
    }
    let words = seen.last().copied().map_or([0; 4], words_of);
    same("readings", &(seen.len(), words), &(1, [1, 0, 0, 0]))?;
    Ok(tried)
}

// Looks under a refusal at the board of a new worker.
fn look_new<R: Threads + Wait + Sync, A: Allocator + Copy>(
    rt: &R,
    heap: &Refusing<Global>,
    alloc: A,
    day: &Day<A>,
    parts: &Parts<A>,
    waiting: Waiting<A>,
    refusal: Refusal,
) -> Result<Tried, Fail>
    requires parts { ArePartsOf day.now.payloads parts.now }
    requires one { parts.now.workers ≡ 1 }
    requires waits { IsWaiting day.now.payloads (locates_of_day day.now.payloads) waiting.board
        waiting.writers.items }
    requires screen { IsOn waiting.board waiting.screen.place }
{
    match only_worker(alloc, day, parts, waiting) {
        Ok((mut worker, board, mut screen)) => look_under(
            rt,
            heap,
            alloc,
            day,
            &board,
            &mut worker,
            &mut screen,
            refusal,
        ),
        Err(error) => Err(Fail::from(error)),
    }
}

// Looks under a refusal at the board of a crossed book.
fn try_look<R: Threads + Wait + Sync, A: Allocator + Copy + Send + Sync>(
    rt: &R,
    heap: &Refusing<Global>,
    alloc: A,
    refusal: Refusal,
) -> Result<Tried, Fail> {
    let day = crossed_book(alloc)?;
    let (parts, waiting) = prepare(rt, alloc, &day)?;
    look_new(rt, heap, alloc, &day, &parts, waiting, refusal)
}

#[test]
fn a_look_without_memory_adds_nothing(rt: HostRuntime) -> Result<(), Fail> {
    let heap = Refusing::new(rt.alloc(), Refusal::Never);
    let growths = refuse_each(|refusal: Refusal| -> Result<Tried, Fail> {
        try_look(&rt, &heap, &heap, refusal)
    })?;
    same("growths", &growths, &1)
}
