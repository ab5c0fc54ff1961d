//! A day that is replayed segment by segment.
ghost use Rattle.std.specs.Prelude.{◌≡◌, ◌+◌, ◌<◌, ◌^◌, ◌++◌, ℕ, List, [], All, IfOk, OnOk, count_by, false, length, slice_index_or};
ghost use Rattle.std.specs.Thread.{IsSend, IsSync};
ghost use denote.Param.Send.{Frees};
ghost use Rattle.itch_table.specs.After.{outcomes};
ghost use Rattle.day_replay.specs.Summaries.{IsSummary, is_passed};
ghost use Rattle.day_replay.specs.Batches.{BatchState, Does, DoesOrFails, MayDo};
ghost use Rattle.day_replay.specs.Dealing.{IsDealt};
ghost use Rattle.day_replay.specs.Replays.{HasReplayed};

use crate::BATCHES;
use crate::batch::Batch;
use crate::batch_messages::BatchMessages;
use crate::dealt_messages::DealtMessages;
use crate::ending::{all_refused, all_stocks};
use crate::no_stock::NoStock;
use crate::refusals::RefusedMessage;
use std::alloc::{AllocError, Allocator};
use std::marker::Model;
use std::thread::{Threads, for_each_mut};
use stock_machine::Stock;
use worker_count::WorkerCount;

/// A replay of the first messages of a day, seen as what its batches have made of them, and what is known of those of no
/// stock.
///
/// Of this project.
#[derive(Drop)]
pub struct Replay<A: Allocator> {
    batches: Vec<Batch<A>, A>,
    no_stock: NoStock<A>,
    messages: u32,
}

impl<A: Allocator> Model for Replay<A> {
    ghost use Rattle.std.specs.Prelude.{◌≡◌, length};
    ghost use Rattle.std.specs.Coded.{codes};
    ghost use Rattle.itch_table.specs.CodedWorld.{coded_world};
    ghost use Rattle.day_replay.specs.declared.TheConstants.{BATCHES};
    ghost use Rattle.day_replay.specs.Replays.{ReplayState};

    ghost Value = { ReplayState };

    ghost coded = { Prim.hlevel (codes, coded_world) };

    ghost view = { λ r.
        record { batches = r.batches.items; no_stock = r.no_stock; messages = r.messages } };

    ghost invariant = { λ r. length r.batches.items ≡ BATCHES };
}

/// What a whole day makes, in short.
#[derive(Drop)]
pub struct Summary<A: Allocator> {
    /// How many messages there are.
    pub messages: u32,
    /// How many of them were passed over.
    pub passed: u32,
    /// The refused messages, by rising number: whose each is, and its fault.
    pub refused: Vec<RefusedMessage, A>,
    /// The machines of the stocks that have messages in the day, by rising locate code.
    pub stocks: Vec<Stock<A>, A>,
    /// The event code of the day's last system event message, where it has one.
    pub event: Option<u8>,
}

// Whether memory was refused to one of the batches.
fn any_failed<A: Allocator>(batches: &[Batch<A>]) -> bool
    ensures { result ≡ false → All (λ b. b.failed ≡ false) batches.now }
{
    batches.iter().any(|batch| batch.has_failed())
}

// Each batch does its messages, by so many threads at most.
fn do_all<R: Threads + Sync, A: Allocator + Copy + Send + Sync>(
    rt: &R,
    alloc: A,
    batches: &mut Vec<Batch<A>, A>,
    all: &[BatchMessages<A>],
    threads: WorkerCount,
) -> Result<(), AllocError>
    requires long { length batches.old.items ≡ length all.now }
    requires may { (k : ℕ) (d : List (ℕ × List ℕ)) (b : BatchState) → k < length all.now
        → MayDo (slice_index_or all.now k d) (slice_index_or batches.old.items k b) }
    ensures long { length batches.new.items ≡ length batches.old.items }
    ensures done { OnOk result ((k : ℕ) (d : List (ℕ × List ℕ)) (b : BatchState) → k < length all.now
        → Does (slice_index_or all.now k d) (slice_index_or batches.old.items k b)
        (slice_index_or batches.new.items k b)) }
{
    for_each_mut(
        rt,
        batches.as_mut_slice(),
        threads.get() as usize,
        &|index: usize, batch: &mut Batch<A>|
            requires { IsSend A.row × IsSync A.row × Frees A.Allocator A.dealloc_token
                × (index < length all.now)
                × MayDo (slice_index_or all.now index []) batch.now }
            ensures { DoesOrFails (slice_index_or all.entry.now index []) batch.entry.now batch.exit.now }
        {
            batch.do_or_fail(alloc, &all[index]);
        },
    );
    if any_failed(batches) {
        return Err(AllocError);
    }
    Ok(())
}

impl<A: Allocator + Copy + Send + Sync> Replay<A> {
    /// A replay of no messages. Its memory is that of `alloc`.
    pub fn new(alloc: A) -> Result<Replay<A>, AllocError>
        ensures { IfOk result (HasReplayed []) }
    {
        let mut batches = Vec::with_capacity(alloc, BATCHES)?;
        for _batch in 0..BATCHES {
            batches.push(Batch::new(alloc)?)?;
        }
        Ok(Replay {
            batches,
            no_stock: NoStock::new(alloc),
            messages: 0,
        })
    }

    /// How many messages were replayed.
    pub fn len(&self) -> u32
        ensures { (day : List (List ℕ)) → HasReplayed day self.now → result ≡ length day }
    {
        self.messages
    }

    /// Replays the messages that come next, by so many threads at most. They must be dealt with as many messages before
    /// them as were replayed ([`Replay::len`]).
    ///
    /// An error says that memory was refused. Then nothing is known of the replay, and it can only be dropped.
    pub fn go_on<R: Threads + Sync>(
        &mut self,
        rt: &R,
        alloc: A,
        dealt: &DealtMessages<A>,
        threads: WorkerCount,
    ) -> Result<(), AllocError>
        requires { (day payloads : List (List ℕ)) × HasReplayed day self.old
            × IsDealt (length day) payloads dealt.now }
        ensures { OnOk result ((day payloads : List (List ℕ)) → HasReplayed day self.old
            → IsDealt (length day) payloads dealt.now → HasReplayed (day ++ payloads) self.new) }
    {
        do_all(rt, alloc, &mut self.batches, dealt.batches(), threads)?;
        self.no_stock.append(dealt.no_stock())?;
        self.messages += dealt.len();
        Ok(())
    }

    /// What the messages that were replayed make, as a whole day. An error says that memory was refused.
    pub fn end(self, alloc: A) -> Result<Summary<A>, AllocError>
        ensures summary { IfOk result (λ made. (day : List (List ℕ)) → HasReplayed day self
            → IsSummary day made.refused.items made.stocks.items made.event) }
        ensures messages { IfOk result (λ made. (day : List (List ℕ)) → HasReplayed day self
            → made.messages ≡ length day) }
        ensures passed { IfOk result (λ made. (day : List (List ℕ)) → HasReplayed day self
            → made.passed ≡ count_by is_passed (outcomes day)) }
    {
        let Replay {
            batches,
            no_stock,
            messages,
        } = self;
        let refused = all_refused(alloc, &batches, &no_stock)?;
        let stocks = all_stocks(alloc, batches)?;
        Ok(Summary {
            messages,
            passed: no_stock.passed(),
            refused,
            stocks,
            event: no_stock.event(),
        })
    }
}
