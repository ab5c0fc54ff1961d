//! Messages of a day in a row, dealt to the batches of their stocks.
ghost use Rattle.std.specs.Prelude.{◌≡◌, ◌+◌, ◌<◌, ◌^◌, ◌++◌, ◌∷◌, ℕ, List, [], IfOk, OnOk, length};
ghost use Rattle.binaryfile.specs.Entries.{IsPayload};
ghost use Rattle.day_replay.specs.Dealing.{IsDealt};

use crate::BATCHES;
use crate::batch_messages::BatchMessages;
use crate::no_stock::NoStock;
use binaryfile::Day;
use itch_table::{Part, part};
use std::alloc::{AllocError, Allocator};
use std::marker::Model;

// How many times the bytes of its entries the buffers may have room for, before their memory is given back.
const MOST_ROOM: usize = 8;

// Fewer bytes count as so many, since 128 buffers are larger than their entries then.
const LEAST_BYTES: usize = 1 << 20;

/// Messages of a day in a row, dealt to the batches of their stocks: for each batch copies of its messages, and what is
/// known of those of no stock. It is seen as these.
///
/// Of this project.
#[derive(Drop)]
pub struct DealtMessages<A: Allocator> {
    batches: Vec<BatchMessages<A>, A>,
    no_stock: NoStock<A>,
    messages: u32,
}

impl<A: Allocator> Model for DealtMessages<A> {
    ghost use Rattle.std.specs.Prelude.{◌≡◌, length};
    ghost use Rattle.day_replay.specs.declared.TheConstants.{BATCHES};
    ghost use Rattle.day_replay.specs.Dealing.{Dealt};

    ghost Value = { Dealt };

    ghost view = { λ d.
        record { batches = d.batches.items; no_stock = d.no_stock; messages = d.messages } };

    ghost invariant = { λ d. length d.batches.items ≡ BATCHES };
}

impl<A: Allocator> DealtMessages<A> {
    /// No messages. The memory of its buffers is that of `alloc`.
    pub fn new(alloc: A) -> Result<DealtMessages<A>, AllocError>
    where
        A: Copy,
        ensures { IfOk result (λ dealt. (before : ℕ) → before < 2 ^ 32 → IsDealt before [] dealt) }
    {
        let mut batches = Vec::with_capacity(alloc, BATCHES)?;
        for _batch in 0..BATCHES {
            batches.push(BatchMessages::new(alloc))?;
        }
        Ok(DealtMessages {
            batches,
            no_stock: NoStock::new(alloc),
            messages: 0,
        })
    }

    // Whether its batches have memory for far more bytes than their messages take.
    fn is_roomy(&self) -> bool {
        let (mut bytes, mut room) = (0usize, 0usize);
        for batch in &self.batches {
            bytes = bytes.saturating_add(batch.bytes());
            room = room.saturating_add(batch.room());
        }
        room / MOST_ROOM > bytes.max(LEAST_BYTES)
    }

    /// Removes all messages. The memory of its buffers is kept, unless they have grown to far more than the messages took,
    /// as they do where those before were of other stocks. What the refused messages of no stock took is kept always.
    pub fn clear(&mut self)
        ensures { (before : ℕ) → before < 2 ^ 32 → IsDealt before [] self.new }
    {
        let keep = !self.is_roomy();
        for batch in 0..BATCHES {
            self.batches[batch].clear(keep);
        }
        self.no_stock.clear();
        self.messages = 0;
    }

    // Deals one message more.
    fn push(&mut self, before: u32, payload: &[u8]) -> Result<(), AllocError>
        requires payload { IsPayload payload.now }
        requires dealt { (payloads : List (List ℕ)) × IsDealt before payloads self.old
            × (before + length payloads + 1 < 2 ^ 32) }
        ensures { OnOk result ((payloads : List (List ℕ)) → IsDealt before payloads self.old
            → before + length payloads + 1 < 2 ^ 32
            → IsDealt before (payloads ++ payload.now ∷ []) self.new) }
    {
        let number = before + self.messages + 1;
        match part(payload) {
            Part::Locate(locate) => {
                self.batches[usize::from(locate) % BATCHES].push(number, payload)?;
            }
            Part::Nowhere(outcome) => self.no_stock.note(number, payload, outcome)?,
        }
        self.messages += 1;
        Ok(())
    }

    /// Deals the messages of a segment after those that it has. `before` is how many messages of the day come before all of
    /// these; with them the day has fewer than 2^32.
    ///
    /// An error says that memory was refused. Then it may hold anything, until it is cleared.
    pub fn deal(&mut self, before: u32, segment: &Day<A>) -> Result<(), AllocError>
        requires dealt { (payloads : List (List ℕ)) × IsDealt before payloads self.old
            × (before + length payloads + length segment.now.payloads < 2 ^ 32) }
        ensures dealt { OnOk result ((payloads : List (List ℕ)) → IsDealt before payloads self.old
            → IsDealt before (payloads ++ segment.now.payloads) self.new) }
    {
        // For the proof alone: it says that each is the payload of an entry.
        let _bytes = segment.bytes();
        for payload in segment.payloads() {
            self.push(before, payload)?;
        }
        Ok(())
    }

    /// How many messages it has.
    pub fn len(&self) -> u32
        ensures { result ≡ self.now.messages }
    {
        self.messages
    }

    // The messages of each batch.
    pub(crate) fn batches(&self) -> &[BatchMessages<A>]
        ensures batches { result.now ≡ self.now.batches }
        ensures long { length result.now ≡ BATCHES }
    {
        &self.batches
    }

    // What is known of the messages of no stock.
    pub(crate) fn no_stock(&self) -> &NoStock<A>
        ensures { result.now ≡ self.now.no_stock }
    {
        &self.no_stock
    }
}
