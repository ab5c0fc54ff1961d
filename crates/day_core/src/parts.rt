//! Which messages of a day each worker does.
ghost use Rattle.std.specs.Prelude.{◌≡◌, ◌<◌, ◌≤◌, [], MatchOption, length, slice_index, slice_index_or};
ghost use Rattle.std.specs.List.{Contains};
ghost use Rattle.std.specs.List.Sorted.{IsStrictlyIncreasing};
ghost use Rattle.day_core.specs.Owners.{IsNext, own_of};
ghost use Rattle.day_core.specs.Splitting.{ArePartsOf};

use crate::merging::Piece;
use binaryfile::Day;
use itch_table::locate_in;
use std::alloc::Allocator;
use std::marker::Model;
use worker_count::WorkerCount;

/// The parts of a day, one for each worker, and what belongs to none.
///
/// A stock belongs to the worker whose number is the remainder of its locate code by the number of workers. Workers are
/// numbered from 0. The parts are seen as what they hold.
#[derive(Drop)]
pub struct Parts<A: Allocator> {
    pub(crate) workers: WorkerCount,
    pub(crate) locates: Vec<u16, A>,
    pub(crate) own: Vec<Vec<u32, A>, A>,
    pub(crate) fixed: Vec<Piece, A>,
    pub(crate) event: Option<u8>,
}

impl<A: Allocator> Model for Parts<A> {
    ghost use Rattle.std.specs.Prelude.{◌≡◌, length, map};
    ghost use Rattle.std.specs.List.Sorted.{IsStrictlyIncreasing};
    ghost use Rattle.day_core.specs.Splitting.{DayParts};

    ghost Value = { DayParts };

    ghost view = { λ p. record {
      workers = p.workers;
      locates = p.locates.items;
      own = map (λ own. own.items) p.own.items;
      fixed = p.fixed.items;
      event = p.event;
    } };

    ghost invariant = { λ p. IsStrictlyIncreasing p.locates.items };
}

/// A message that a worker comes to.
#[derive(Debug, Clone, Copy, PartialEq, Eq)]
pub struct Next {
    /// The message's number in the day, counted from 1.
    pub message: u32,
    /// The locate code of its stock.
    pub locate: u16,
}

impl<A: Allocator> Parts<A> {
    /// For how many workers the day was split, from 1 to 64.
    pub fn workers(&self) -> u32
        ensures workers { result ≡ self.now.workers }
        ensures some { 0 < result }
        ensures most { result ≤ 64 }
    {
        self.workers.get()
    }

    /// The locate codes of the stocks that have messages in the day, rising.
    pub fn locates(&self) -> &[u16]
        ensures locates { result.now ≡ self.now.locates }
        ensures rising { IsStrictlyIncreasing result.now }
    {
        &self.locates
    }

    /// The messages of a worker's stocks, by their numbers, rising; none for a number that is no worker's.
    pub fn own(&self, worker: u32) -> &[u32]
        ensures { result.now ≡ slice_index_or self.now.own worker [] }
    {
        match self.own.get(worker as usize) {
            Some(own) => own,
            None => &[],
        }
    }

    /// The message that a worker does after this many of its own; none where these are all, and for a number that is no
    /// worker's. The caller passes the day that was split.
    pub fn next(&self, day: &Day<A>, worker: u32, done: usize) -> Option<Next>
        requires { ArePartsOf day.now.payloads self.now }
        ensures { MatchOption result (length (own_of self.now.workers worker day.now.payloads) ≤ done)
            (IsNext day.now.payloads self.now.workers worker done) }
    {
        let own = self.own(worker);
        if done >= own.len() {
            return None;
        }
        let message = own[done];
        let locate = locate_in(day.payload(message));
        Some(Next { message, locate })
    }

    /// The messages of no stock, with their outcomes, by rising number.
    pub fn fixed(&self) -> &[Piece]
        ensures { result.now ≡ self.now.fixed }
    {
        &self.fixed
    }

    /// The event code of the day's last system event message, where it has one.
    pub fn event(&self) -> Option<u8>
        ensures { result ≡ self.now.event }
    {
        self.event
    }

    /// Where a locate code stands among those of the stocks; none where it isn't one of them.
    pub(crate) fn index_of(&self, locate: u16) -> Option<usize>
        ensures { MatchOption result (¬ Contains self.now.locates locate) (λ index.
            (index < length self.now.locates) × (slice_index self.now.locates index ≡ locate)) }
    {
        self.locates.binary_search(&locate).ok()
    }
}
