//! A day, replayed by all of its workers beside each other.
ghost use Rattle.std.specs.Prelude.{◌≡◌, ◌<◌, ◌⊎◌, ◌↔◌, ℕ, IfOk, IsErrOf, List, map};
ghost use Rattle.itch_table.specs.After.{outcomes};
ghost use Rattle.itch_table.specs.Shows.{locates_of_day};
ghost use Rattle.day_core.specs.Replaying.{IsReplayed, each_worker, pieces_by};
ghost use Rattle.day_core.specs.Splitting.{ArePartsOf, DayParts};
ghost use Rattle.top_cell.specs.Boards.{AreNew, WriterAt};
ghost use Rattle.stock_workers.specs.FaultNumbers.{number_of, of_split};
ghost use Rattle.stock_workers.specs.Running.{AreFinished, AreGathered, AreWaiting, at_last};
ghost use Rattle.stock_workers.specs.declared.running.RunFault.TheVariants.{Memory};

use crate::fork_join::{Finished, Waiting, finish_all};
use crate::gate::Gate;
use binaryfile::Day;
use day_core::{MergeFault, Parts, Piece, SplitFault, by_worker, in_order, merge, split};
use itch_table::Outcome;
use std::alloc::{AllocError, Allocator};
use std::sync::Wait;
use std::thread::Threads;
use stock_machine::Stock;
use top_cell::{Board, TopWriter};

/// What a whole day makes, and the writers that have shown it.
#[derive(Drop)]
pub struct Replayed<A: Allocator> {
    /// What became of each message, in order.
    pub outcomes: Vec<Outcome, A>,
    /// The machines of the stocks that have messages in the day, by rising locate code.
    pub stocks: Vec<Stock<A>, A>,
    /// The event code of the day's last system event message, where it has one.
    pub event: Option<u8>,
    /// The writers of these stocks, in the same order.
    pub writers: Vec<TopWriter, A>,
}

/// Why a day isn't replayed.
#[derive(Debug, Clone, Copy, PartialEq, Eq)]
pub enum RunFault {
    /// Memory was refused.
    Memory,
    /// The number of workers isn't from 1 to 64.
    Workers,
}

impl RunFault {
    /// The fault's fixed number, from 1 to 2.
    pub fn number(self) -> u8
        ensures { result ≡ number_of self }
    {
        match self {
            RunFault::Memory => 1,
            RunFault::Workers => 2,
        }
    }
}

impl From<AllocError> for RunFault {
    ghost from_gives = { λ _ fault. fault ≡ Memory };

    fn from(_error: AllocError) -> RunFault {
        RunFault::Memory
    }
}

impl From<SplitFault> for RunFault {
    ghost from_gives = { λ cause fault. fault ≡ of_split cause };

    fn from(cause: SplitFault) -> RunFault {
        match cause {
            SplitFault::Memory => RunFault::Memory,
            SplitFault::Workers => RunFault::Workers,
        }
    }
}

// What all workers made, by worker.
#[derive(Drop)]
struct Gathered<A: Allocator> {
    pieces: Vec<Vec<Piece, A>, A>,
    stocks: Vec<Vec<Stock<A>, A>, A>,
    writers: Vec<Vec<TopWriter, A>, A>,
}

// The workers of a day before they start, in the order of their numbers.
fn waiting_workers<A: Allocator + Copy>(
    alloc: A,
    parts: &Parts<A>,
    writers: Vec<TopWriter, A>,
) -> Result<Vec<Waiting<A>, A>, AllocError>
    ensures { IfOk result (λ all. AreWaiting parts.now writers.items all.items) }
{
    let count = parts.workers();
    let lists = by_worker(alloc, parts, writers)?;
    let mut all = Vec::with_capacity(alloc, count as usize)?;
    for (worker, writers) in (0..count).zip(lists) {
        all.push(Waiting { worker, writers })?;
    }
    Ok(all)
}

// What all workers made, where none was refused memory.
fn gather<A: Allocator + Copy>(
    alloc: A,
    made: Vec<Result<Finished<A>, AllocError>, A>,
) -> Result<Gathered<A>, AllocError>
    ensures { IfOk result (λ all. (day : List (List ℕ)) (parts : DayParts) (writers : List WriterAt)
        → AreFinished day parts writers made.items → AreGathered day parts writers
        (map (λ own. own.items) all.pieces.items) (map (λ own. own.items) all.stocks.items)
        (map (λ own. own.items) all.writers.items)) }
{
    let count = made.len();
    let mut pieces = Vec::with_capacity(alloc, count)?;
    let mut stocks = Vec::with_capacity(alloc, count)?;
    let mut writers = Vec::with_capacity(alloc, count)?;
    for one in made {
        let finished = one?;
        pieces.push(finished.pieces)?;
        stocks.push(finished.stocks)?;
        writers.push(finished.writers)?;
    }
    Ok(Gathered {
        pieces,
        stocks,
        writers,
    })
}

// The outcomes of all messages of a day, of the pieces of each worker and those of no stock.
fn outcomes_of<A: Allocator + Copy>(
    alloc: A,
    day: &Day<A>,
    parts: &Parts<A>,
    by_worker: Vec<Vec<Piece, A>, A>,
) -> Result<Vec<Outcome, A>, AllocError>
    requires parts { ArePartsOf day.now.payloads parts.now }
    requires pieces { map (λ own. own.items) by_worker.items
        ≡ each_worker (pieces_by day.now.payloads parts.now.workers) parts.now.workers }
    ensures { IfOk result (λ all. all.items ≡ outcomes day.now.payloads) }
{
    let mut pieces = by_worker;
    pieces.push(Vec::from_slice(alloc, parts.fixed())?)?;
    let fault = match merge(alloc, day.len(), pieces) {
        Ok(outcomes) => return Ok(outcomes),
        Err(fault) => fault,
    };
    match fault {
        MergeFault::Memory => Err(AllocError),
        _ => unreachable!(),
    }
}

// Replays a day that is split, as `run` does.
fn run_split<R: Threads + Wait + Sync, A: Allocator + Copy + Send + Sync, G: Gate>(
    rt: &R,
    alloc: A,
    day: &Day<A>,
    board: &Board<A>,
    writers: Vec<TopWriter, A>,
    parts: &Parts<A>,
    gate: &G,
) -> Result<Replayed<A>, AllocError>
    requires new { AreNew day.now.payloads (locates_of_day day.now.payloads) board.now writers.items }
    requires parts { ArePartsOf day.now.payloads parts.now }
    ensures replayed { IfOk result (λ made. IsReplayed day.now.payloads
        made.outcomes.items made.stocks.items made.event) }
    ensures writers { IfOk result (λ made.
        made.writers.items ≡ map (at_last day.now.payloads) writers.items) }
{
    let waiting = waiting_workers(alloc, parts, writers)?;
    let made = finish_all(rt, alloc, day, board, parts, waiting, gate)?;
    let gathered = gather(alloc, made)?;
    Ok(Replayed {
        outcomes: outcomes_of(alloc, day, parts, gathered.pieces)?,
        stocks: in_order(alloc, parts, gathered.stocks)?,
        event: parts.event(),
        writers: in_order(alloc, parts, gathered.writers)?,
    })
}

/// Replays a day by this many workers, from 1 to 64, each in a thread of its own where one can be made, and publishes
/// each message's best bid and ask as it is done. The caller passes the day's board and all of its writers, none of
/// which has published anything.
///
/// What it returns is the same for every number of workers: the outcome of each message, each stock's machine after the
/// day, the last event, and each writer at the last message of its stock. All threads that it started have ended when
/// it returns. Where no thread can be made, the work is done by the thread that asked for one.
///
/// [`RunFault::Workers`] where the number of workers is another, which is looked at first, and else
/// [`RunFault::Memory`] where memory is refused. After a fault the writers are gone. Screens go on reading, and what
/// they read is still true of the day; a new run takes a new board.
///
/// It may wait at the gate, and for its threads.
pub fn run<R: Threads + Wait + Sync, A: Allocator + Copy + Send + Sync, G: Gate>(
    rt: &R,
    alloc: A,
    day: &Day<A>,
    board: &Board<A>,
    writers: Vec<TopWriter, A>,
    workers: u32,
    gate: &G,
) -> Result<Replayed<A>, RunFault>
    requires { AreNew day.now.payloads (locates_of_day day.now.payloads) board.now writers.items }
    ensures replayed { IfOk result (λ made. IsReplayed day.now.payloads
        made.outcomes.items made.stocks.items made.event) }
    ensures writers { IfOk result (λ made.
        made.writers.items ≡ map (at_last day.now.payloads) writers.items) }
    ensures workers { IsErrOf result RunFault.Workers ↔ ((workers ≡ 0) ⊎ (64 < workers)) }
{
    let parts = split(rt, alloc, day, workers)?;
    Ok(run_split(rt, alloc, day, board, writers, &parts, gate)?)
}
