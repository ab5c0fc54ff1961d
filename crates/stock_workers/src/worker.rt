//! One worker with the writers of its stocks' cells.
ghost use Rattle.std.specs.Prelude.{◌≡◌, ◌<◌, ℕ, All, IfOk, List, MatchOption, OnErr, length, slice_index};
ghost use Rattle.std.specs.List.{Contains};
ghost use Rattle.day_core.specs.Owners.{locates_by, machine_of};
ghost use Rattle.day_core.specs.Splitting.{ArePartsOf};
ghost use Rattle.top_cell.specs.Boards.{IsOn};
ghost use Rattle.stock_workers.specs.Working.{IsWorkerOf, MayGrowNext, TakesTurn, WritersAt, codes_by, codes_of, first_working, places_of, progress_in, stands, writer_state};

use crate::gate::Gate;
use binaryfile::Day;
use day_core::{Parts, Piece, do_message, new_stocks};
use std::alloc::{AllocError, Allocator};
use std::marker::Model;
use std::sync::Wait;
use std::thread::Threads;
use stock_machine::Stock;
use top_cell::{Board, TopWriter};

/// One worker of a day that is split, with the writers of its stocks' cells: whatever it has done is shown there.
///
/// It borrows the parts of the day. It is seen as these, its number, how many of its messages it has done, and its stocks'
/// machines and writers.
#[derive(Drop)]
pub struct Worker<'p, A: Allocator> {
    parts: &'p Parts<A>,
    worker: u32,
    done: usize,
    // The locate codes of its stocks, rising, and the machine and the writer of each.
    locates: Vec<u16, A>,
    stocks: Vec<Stock<A>, A>,
    writers: Vec<TopWriter, A>,
}

impl<'p, A: Allocator> Model for Worker<'p, A> {
    ghost use Rattle.std.specs.Prelude.{◌≡◌};
    ghost use Rattle.std.specs.Coded.{codes};
    ghost use Rattle.std.specs.List.Sorted.{IsStrictlyIncreasing};
    ghost use Rattle.itch_table.specs.CodedWorld.{coded_world};
    ghost use Rattle.stock_workers.specs.Working.{Working, codes_by};

    ghost Value = { Working };

    ghost coded = { Prim.hlevel (codes, coded_world) };

    ghost view = { λ w. record {
      parts = w.parts.now;
      worker = w.worker;
      done = w.done;
      stocks = w.stocks.items;
      writers = w.writers.items;
    } };

    ghost invariant = { λ w. IsStrictlyIncreasing w.locates.items
        × (w.locates.items ≡ codes_by w.parts.now w.worker) };
}

// Those of some locate codes whose stocks belong to a worker.
fn own_codes<A: Allocator + Copy>(
    alloc: A,
    locates: &[u16],
    workers: u32,
    worker: u32,
) -> Result<Vec<u16, A>, AllocError>
    requires { 0 < workers }
    ensures { IfOk result (λ codes. codes.items ≡ locates_by workers worker locates.now) }
{
    locates
        .iter()
        .copied()
        .filter(|locate| u32::from(*locate) % workers == worker)
        .collect(alloc)
}

impl<'p, A: Allocator + Copy> Worker<'p, A> {
    /// A worker that has done nothing yet. The caller passes the writers of its stocks, by rising locate code, none of
    /// which has published anything. A number from `parts.workers()` on has no messages and no stocks.
    ///
    /// After an error the writers are gone.
    pub fn new(
        alloc: A,
        parts: &'p Parts<A>,
        worker: u32,
        writers: Vec<TopWriter, A>,
    ) -> Result<Worker<'p, A>, AllocError>
        ensures first { IfOk result (λ made. made ≡ first_working parts.now worker writers.items) }
        ensures of { IfOk result (λ made. (day : List (List ℕ)) → ArePartsOf day parts.now
            → WritersAt day (λ _. 0) (codes_by parts.now worker) writers.items
            → IsWorkerOf day made) }
    {
        let locates = own_codes(alloc, parts.locates(), parts.workers(), worker)?;
        let stocks = new_stocks(alloc, &locates)?;
        Ok(Worker {
            parts,
            worker,
            done: 0,
            locates,
            stocks,
            writers,
        })
    }

    /// Waits at the gate with the worker's next message, does it on the machine of its stock, publishes the best bid
    /// and ask that it leaves, and returns what became of it; none, with nothing changed, exactly where the worker has
    /// done all of them. Each message is published, also where the best bid and ask stay as they were. The caller
    /// passes the day that was split, and the writers' board.
    ///
    /// An error comes only where a message is left that would be applied and may need a new order or trade. Nothing was
    /// published and the worker is as it was, so that its next turn comes to the gate with the same message again. It
    /// may wait at the gate, and for nothing else.
    pub fn turn<R: Threads + Wait + Sync, G: Gate>(
        &mut self,
        rt: &R,
        day: &Day<A>,
        board: &Board<A>,
        gate: &G,
    ) -> Result<Option<Piece>, AllocError>
        requires day { IsWorkerOf day.now.payloads self.old }
        requires board { All (IsOn board.now) (places_of self.old) }
        ensures turned { IfOk result (TakesTurn day.now.payloads self.old self.new) }
        // So that its next turn may be taken, whatever the result.
        ensures stands { IsWorkerOf day.now.payloads self.new }
        ensures same { places_of self.new ≡ places_of self.old }
        ensures err { OnErr result (self.new ≡ self.old) }
        ensures grows { OnErr result (MayGrowNext day.now.payloads self.old) }
    {
        let Some(next) = self.parts.next(day, self.worker, self.done) else {
            return Ok(None);
        };
        let place = self.index_of(next.locate).unwrap();
        gate.at(rt, self.worker, next.message);
        let stock = &mut self.stocks[place];
        let piece = do_message(day, stock, next.message)?;
        self.writers[place].publish(board, next.message, stock.top());
        self.done += 1;
        Ok(Some(piece))
    }
}

impl<'p, A: Allocator> Worker<'p, A> {
    // Where a stock stands among its own; none where it isn't one of them.
    fn index_of(&self, locate: u16) -> Option<usize>
        ensures { MatchOption result (¬ Contains (codes_of self.now) locate) (λ index.
            (index < length (codes_of self.now)) × (slice_index (codes_of self.now) index ≡ locate)) }
    {
        self.locates.binary_search(&locate).ok()
    }

    /// The machine of one of the worker's stocks, after the last of its messages that the worker has done; none where
    /// it isn't one of them.
    pub fn stock(&self, locate: u16) -> Option<&Stock<A>>
        ensures { (day : List (List ℕ)) → IsWorkerOf day self.now
            → MatchOption result (¬ Contains (codes_of self.now) locate)
            (λ stock. stock.now ≡ machine_of day locate (progress_in day self.now locate)) }
    {
        let index = self.index_of(locate)?;
        self.stocks.get(index)
    }

    /// The writer of one of the worker's stocks, at the last of its messages that the worker has done, of one of the
    /// worker's own cells; none where it isn't one of them.
    pub fn writer(&self, locate: u16) -> Option<&TopWriter>
        ensures { (day : List (List ℕ)) → IsWorkerOf day self.now
            → MatchOption result (¬ Contains (codes_of self.now) locate) (λ writer.
            (writer_state writer.now ≡ stands day self.now locate) × Contains self.now.writers writer.now) }
    {
        let index = self.index_of(locate)?;
        self.writers.get(index)
    }

    // The machines of its stocks and their writers, by rising locate code.
    pub(crate) fn into_stocks(self) -> (Vec<Stock<A>, A>, Vec<TopWriter, A>)
        ensures stocks { result.0.items ≡ self.entry.stocks }
        ensures writers { result.1.items ≡ self.entry.writers }
    {
        let Worker {
            stocks,
            writers,
            ..
        } = self;
        (stocks, writers)
    }
}
