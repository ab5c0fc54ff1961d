//! All turns of all workers of a day, by threads.
ghost use Rattle.std.specs.Prelude.{All, IfOk, List};
ghost use Rattle.std.specs.Thread.{IsSend, IsSync};
ghost use denote.Param.Send.{Frees};
ghost use Rattle.day_core.specs.Splitting.{ArePartsOf};
ghost use Rattle.top_cell.specs.Boards.{WriterAt};
ghost use Rattle.stock_workers.specs.Running.{AreFinished, AreWaiting, IsFinished, IsWaiting};
ghost use Rattle.stock_workers.specs.Working.{codes_by};

use crate::gate::Gate;
use crate::worker::Worker;
use binaryfile::Day;
use day_core::{Parts, Piece};
use std::alloc::{AllocError, Allocator};
use std::sync::Wait;
use std::thread::{Threads, map_vec};
use stock_machine::Stock;
use top_cell::{Board, TopWriter};

/// A worker that hasn't started: its number, and the writers of its stocks.
#[derive(Drop)]
pub(crate) struct Waiting<A: Allocator> {
    pub worker: u32,
    pub writers: Vec<TopWriter, A>,
}

/// What one worker made of its messages: what became of each, and the machines and the writers of its stocks after all of
/// them.
#[derive(Drop)]
pub(crate) struct Finished<A: Allocator> {
    pub pieces: Vec<Piece, A>,
    pub stocks: Vec<Stock<A>, A>,
    pub writers: Vec<TopWriter, A>,
}

// All turns of one worker.
fn finish<R: Threads + Wait + Sync, A: Allocator + Copy, G: Gate>(
    rt: &R,
    alloc: A,
    day: &Day<A>,
    board: &Board<A>,
    parts: &Parts<A>,
    waiting: Waiting<A>,
    gate: &G,
) -> Result<Finished<A>, AllocError>
    requires parts { ArePartsOf day.now.payloads parts.now }
    requires waits { IsWaiting day.now.payloads (codes_by parts.now waiting.worker) board.now
        waiting.writers.items }
    ensures { IfOk result (λ made. IsFinished day.now.payloads parts.now waiting.worker waiting.writers.items
        made.pieces.items made.stocks.items made.writers.items) }
{
    let mut pieces = Vec::new(alloc);
    let mut worker = Worker::new(alloc, parts, waiting.worker, waiting.writers)?;
    while let Some(piece) = worker.turn(rt, day, board, gate)? {
        pieces.push(piece)?;
    }
    let (stocks, writers) = worker.into_stocks();
    Ok(Finished {
        pieces,
        stocks,
        writers,
    })
}

/// All turns of all workers of a day, each in a thread of its own where one can be made, and else in the thread that
/// asked for one.
pub(crate) fn finish_all<R: Threads + Wait + Sync, A: Allocator + Copy + Send + Sync, G: Gate>(
    rt: &R,
    alloc: A,
    day: &Day<A>,
    board: &Board<A>,
    parts: &Parts<A>,
    all: Vec<Waiting<A>, A>,
    gate: &G,
) -> Result<Vec<Result<Finished<A>, AllocError>, A>, AllocError>
    requires parts { ArePartsOf day.now.payloads parts.now }
    requires wait { All (λ w. IsWaiting day.now.payloads (codes_by parts.now w.worker) board.now w.writers.items)
        all.items }
    ensures { IfOk result (λ made. (writers : List WriterAt) → AreWaiting parts.now writers all.items
        → AreFinished day.now.payloads parts.now writers made.items) }
{
    map_vec(
        rt,
        all,
        &|waiting: Waiting<A>| -> Result<Finished<A>, AllocError>
            requires { IsSync R.row × IsSync G.row × IsSend A.row × IsSync A.row
                × Frees A.Allocator A.dealloc_token × ArePartsOf day.now.payloads parts.now
                × IsWaiting day.now.payloads (codes_by parts.now waiting.worker) board.now
                waiting.writers.items }
            ensures { IfOk result (λ made. IsFinished day.entry.now.payloads parts.entry.now waiting.worker
                waiting.writers.items made.pieces.items made.stocks.items made.writers.items) }
        { finish(rt, alloc, day, board, parts, waiting, gate) },
    )
}
