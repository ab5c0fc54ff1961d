//! The only worker of a day, its board, and a screen.
ghost use Rattle.std.specs.Prelude.{◌≡◌, All, IfOk};
ghost use Rattle.itch_table.specs.Shows.{locates_of_day};
ghost use Rattle.top_cell.specs.Boards.{IsOn};
ghost use Rattle.day_core.specs.Splitting.{ArePartsOf};
ghost use Rattle.stock_workers.specs.Running.{IsWaiting};
ghost use Rattle.stock_workers.specs.Working.{IsWorkerOf, places_of};

use crate::screens::first_screen;
use binaryfile::Day;
use day_core::{Parts, Piece, split};
use itch_table::{Outcome, Top};
use std::alloc::{AllocError, Allocator};
use std::sync::Wait;
use std::test::Fail;
use std::thread::Threads;
use stock_workers::Worker;
use top_cell::{Board, Reading, Screen, TopWriter};

/// The writers of the only worker of a day, their board, and a screen of the day's first stock.
#[derive(Drop)]
pub struct Waiting<A: Allocator> {
    board: Board<A>,
    writers: Vec<TopWriter, A>,
    screen: Screen,
}

/// The parts of a day for one worker, and what the worker is made of.
pub fn prepare<R: Threads + Wait + Sync, A: Allocator + Copy + Send + Sync>(
    rt: &R,
    alloc: A,
    day: &Day<A>,
) -> Result<(Parts<A>, Waiting<A>), Fail>
    ensures parts { IfOk result (λ made. ArePartsOf day.now.payloads made.0) }
    ensures one { IfOk result (λ made. made.0.workers ≡ 1) }
    ensures waits { IfOk result (λ made.
        IsWaiting day.now.payloads (locates_of_day day.now.payloads) made.1.board made.1.writers.items) }
    ensures screen { IfOk result (λ made. IsOn made.1.board made.1.screen.place) }
{
    let parts = split(rt, alloc, day, 1)?;
    let (board, mut writers) = Board::new(alloc, day)?;
    let screen = first_screen(&board, &mut writers)?;
    let waiting = Waiting {
        board,
        writers,
        screen,
    };
    Ok((parts, waiting))
}

/// The only worker of a day, its board, and a screen of the day's first stock.
pub fn only_worker<'p, A: Allocator + Copy>(
    alloc: A,
    day: &Day<A>,
    parts: &'p Parts<A>,
    waiting: Waiting<A>,
) -> Result<(Worker<'p, A>, Board<A>, Screen), AllocError>
    requires parts { ArePartsOf day.now.payloads parts.now }
    requires one { parts.now.workers ≡ 1 }
    requires waits { IsWaiting day.now.payloads (locates_of_day day.now.payloads) waiting.board
        waiting.writers.items }
    requires screen { IsOn waiting.board waiting.screen.place }
    ensures worker { IfOk result (λ made. IsWorkerOf day.now.payloads made.0) }
    ensures board { IfOk result (λ made. All (IsOn made.1) (places_of made.0)) }
    ensures screen { IfOk result (λ made. IsOn made.1 made.2.place) }
{
    let Waiting {
        board,
        writers,
        screen,
    } = waiting;
    let worker = Worker::new(alloc, parts, 0, writers)?;
    Ok((worker, board, screen))
}

/// What becomes of a message.
pub fn piece(message: u32, outcome: Outcome) -> Option<Piece> {
    Some(Piece { message, outcome })
}

/// The four words of a reading.
pub fn words_of(reading: Reading) -> [u64; 4] {
    let Reading {
        message,
        bid_price,
        bid_shares,
        ask_price,
        ask_shares,
    } = reading;
    let top = Top {
        bid_price,
        bid_shares,
        ask_price,
        ask_shares,
    };
    top.to_words(message)
}
