//! All workers of a day without threads, in any order.
ghost use Rattle.std.specs.Prelude.{◌≡◌, ◌<◌, ◌⊎◌, ◌↔◌, IfOk, IsErrOf, MatchOption, OnErr, replicate};
ghost use Rattle.std.specs.List.{Contains};
ghost use Rattle.itch_table.specs.Shows.{Shows, locates_of_day};
ghost use Rattle.day_core.specs.Owners.{machine_of};
ghost use Rattle.day_core.specs.Turns.{MayGrowAt, TurnsWorker, progress_in};

use crate::machines::{do_message, new_stocks};
use crate::merging::Piece;
use crate::parts::Parts;
use crate::splitting::{SplitFault, split};
use binaryfile::Day;
use std::alloc::{AllocError, Allocator};
use std::marker::Model;
use std::thread::Threads;
use stock_machine::Stock;

/// All workers of a day without threads, whose turns come in any order, and the words that screens read of each stock.
///
/// It is seen as the day, and how many of its own messages each worker has done.
#[derive(Drop)]
pub struct Turns<'d, A: Allocator> {
    day: &'d Day<A>,
    parts: Parts<A>,
    // How many of its messages each worker has done.
    done: Vec<usize, A>,
    // The machine of each stock, and the four words that screens read of it, by rising locate code.
    stocks: Vec<Stock<A>, A>,
    cells: Vec<[u64; 4], A>,
}

impl<'d, A: Allocator> Model for Turns<'d, A> {
    ghost use Rattle.day_core.specs.Turns.{AreTurns, TurnsState, state_of};

    ghost Value = { TurnsState };

    ghost view = { λ t. state_of t.day.now.payloads t.done.items };

    ghost invariant = { λ t.
        AreTurns (state_of t.day.now.payloads t.done.items) t.parts t.stocks.items t.cells.items };
}

impl<'d, A: Allocator + Copy> Turns<'d, A> {
    /// The workers of a day before their first turn. The day is split for this many of them, from 1 to 64.
    ///
    /// [`SplitFault::Workers`] where the number is another, which is looked at first, and else [`SplitFault::Memory`]
    /// where memory is refused.
    pub fn new<R: Threads + Sync>(
        rt: &R,
        alloc: A,
        day: &'d Day<A>,
        workers: u32,
    ) -> Result<Turns<'d, A>, SplitFault>
    where
        A: Send + Sync,
        ensures first { IfOk result (λ turns.
            turns ≡ record { day = day.now.payloads; done = replicate workers 0 }) }
        ensures workers { IsErrOf result SplitFault.Workers ↔ ((workers ≡ 0) ⊎ (64 < workers)) }
    {
        let parts = split(rt, alloc, day, workers)?;
        let done = vec![in alloc; 0; parts.workers() as usize]?;
        let stocks = new_stocks(alloc, parts.locates())?;
        let cells = vec![in alloc; [0; 4]; stocks.len()]?;
        Ok(Turns {
            day,
            parts,
            done,
            stocks,
            cells,
        })
    }

    /// Does the next message of a worker, sets the words of its stock, and returns what became of it; none, with
    /// nothing changed, exactly where the worker has done all of its messages or isn't one. An error comes only where
    /// a message is left that would be applied and may need a new order or trade. It leaves all as it was.
    pub fn turn(&mut self, worker: u32) -> Result<Option<Piece>, AllocError>
        ensures turned { IfOk result (TurnsWorker self.old self.new worker) }
        ensures err { OnErr result (self.new ≡ self.old) }
        ensures grows { OnErr result (MayGrowAt self.old worker) }
    {
        let index = worker as usize;
        if index >= self.done.len() {
            return Ok(None);
        }
        let Some(next) = self.parts.next(self.day, worker, self.done[index]) else {
            return Ok(None);
        };
        let place = self.parts.index_of(next.locate).unwrap();
        let stock = &mut self.stocks[place];
        let piece = do_message(self.day, stock, next.message)?;
        self.cells[place] = stock.top().to_words(next.message);
        self.done[index] += 1;
        Ok(Some(piece))
    }

    /// The four words that a screen reads of a stock: those of the last of its messages that its worker has done; four
    /// zeros before the first, and where no message of the day is of the stock.
    pub fn look(&self, locate: u16) -> [u64; 4]
        ensures { Shows self.now.day locate (progress_in self.now locate) result }
    {
        match self.parts.index_of(locate) {
            Some(index) => self.cells[index],
            None => [0; 4],
        }
    }

    /// The machine of a stock after the last of its messages that its worker has done; none where no message of the day
    /// is of the stock.
    pub fn stock(&self, locate: u16) -> Option<&Stock<A>>
        ensures { MatchOption result (¬ Contains (locates_of_day self.now.day) locate) (λ stock.
            stock.now ≡ machine_of self.now.day locate (progress_in self.now locate)) }
    {
        let index = self.parts.index_of(locate)?;
        Some(&self.stocks[index])
    }
}
