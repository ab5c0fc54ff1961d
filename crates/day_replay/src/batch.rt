//! The machines of the stocks of one batch.
ghost use Rattle.std.specs.Prelude.{◌≡◌, ◌+◌, ◌-◌, ◌<◌, ◌^◌, ◌++◌, ◌∷◌, ℕ, List, [], IfOk, IfSome, None, OnOk, Option, Some, length, slice_index_or, slice_set, true};
ghost use Rattle.std.specs.Option.{option_map};
ghost use Rattle.stock_machine.specs.StockRows.{StockMachine};
ghost use Rattle.itch_table.specs.declared.outcome.Part.{Part};
ghost use Rattle.itch_table.specs.Parts.{part};
ghost use Rattle.day_replay.specs.Batches.{Does, DoesOrFails, HasDone, MayDo, outcome_in, stepped};

use crate::batch_messages::BatchMessages;
use crate::refusals::{RefusedMessage, note_refused};
use crate::{BATCHES, STOCKS};
use itch_table::{Outcome, locate_in};
use std::alloc::{AllocError, Allocator};
use std::marker::Model;
use std::mem;
use stock_machine::Stock;

/// The machines of the stocks of one batch, each in the slot whose index is its locate code divided by how many batches
/// there are, and which of the batch's messages were refused. It is seen as these.
#[derive(Drop)]
pub(crate) struct Batch<A: Allocator> {
    stocks: Vec<Option<Box<Stock<A>, A>>, A>,
    refused: Vec<RefusedMessage, A>,
    // Whether memory was refused to it, so that it hasn't done all of its messages.
    failed: bool,
}

impl<A: Allocator> Model for Batch<A> {
    ghost use Rattle.std.specs.Prelude.{◌≡◌, length, map};
    ghost use Rattle.std.specs.Coded.{codes};
    ghost use Rattle.std.specs.Option.{option_map};
    ghost use Rattle.itch_table.specs.CodedWorld.{coded_world};
    ghost use Rattle.day_replay.specs.declared.TheConstants.{STOCKS};
    ghost use Rattle.day_replay.specs.Batches.{BatchState};

    ghost Value = { BatchState };

    ghost coded = { Prim.hlevel (codes, coded_world) };

    ghost view = { λ b. record {
      stocks = map (option_map (λ stock. stock.value)) b.stocks.items;
      refused = b.refused.items;
      failed = b.failed;
    } };

    ghost invariant = { λ b. length b.stocks.items ≡ STOCKS };
}

// Steps the machine in a slot, or a new one where there is none. Where memory is refused, the slot may hold anything.
fn step_in<A: Allocator + Copy>(
    alloc: A,
    slot: &mut Option<Box<Stock<A>, A>>,
    locate: u16,
    payload: &[u8],
) -> Result<Outcome, AllocError>
    requires own { part payload.now ≡ Part.Locate locate }
    requires same { IfSome slot.old (λ stock. stock.value.locate ≡ locate) }
    requires few { IfSome slot.old (λ stock. stock.value.steps < 2 ^ 32 - 1) }
    ensures outcome { IfOk result (λ outcome.
        outcome ≡ outcome_in (option_map (λ stock. stock.value) slot.old) payload.now) }
    ensures stepped { OnOk result (option_map (λ stock. stock.value) slot.new
        ≡ Some (stepped locate (option_map (λ stock. stock.value) slot.old) payload.now)) }
{
    if let Some(stock) = slot {
        return stock.step(payload);
    }
    let mut stock = Box::new(alloc, Stock::new(alloc, locate))?;
    let outcome = stock.step(payload)?;
    *slot = Some(stock);
    Ok(outcome)
}

impl<A: Allocator + Copy> Batch<A> {
    /// A batch that has done no message.
    pub fn new(alloc: A) -> Result<Batch<A>, AllocError>
        ensures { IfOk result (λ made. (batch : ℕ) → HasDone batch [] made) }
    {
        let mut stocks = Vec::with_capacity(alloc, STOCKS)?;
        for _slot in 0..STOCKS {
            stocks.push(None)?;
        }
        Ok(Batch {
            stocks,
            refused: Vec::new(alloc),
            failed: false,
        })
    }

    // Does the batch's next message.
    fn step(&mut self, alloc: A, number: u32, payload: &[u8]) -> Result<(), AllocError>
        requires { MayDo ((number, payload.now) ∷ []) self.old }
        ensures { OnOk result (Does ((number, payload.now) ∷ []) self.old self.new) }
    {
        let locate = locate_in(payload);
        let outcome = step_in(
            alloc,
            &mut self.stocks[usize::from(locate) / BATCHES],
            locate,
            payload,
        )?;
        note_refused(
            &mut self.refused,
            RefusedMessage {
                message: number,
                locate: Some(locate),
                outcome,
            },
        )
    }

    // Does the batch's messages.
    fn do_all(&mut self, alloc: A, messages: &BatchMessages<A>) -> Result<(), AllocError>
        requires { MayDo messages.now self.old }
        ensures { OnOk result (Does messages.now self.old self.new) }
    {
        for message in messages.messages() {
            self.step(alloc, message.number, message.payload)?;
        }
        Ok(())
    }

    /// Does the batch's messages, or fails where memory is refused. A batch that has failed may hold
    /// anything.
    pub fn do_or_fail(&mut self, alloc: A, messages: &BatchMessages<A>)
        requires { MayDo messages.now self.old }
        ensures { DoesOrFails messages.now self.old self.new }
    {
        self.failed = self.do_all(alloc, messages).is_err();
    }
}

impl<A: Allocator> Batch<A> {
    /// Whether memory was refused to it.
    pub fn has_failed(&self) -> bool
        ensures { result ≡ self.now.failed }
    {
        self.failed
    }

    /// The refused ones of the messages that it has done, with their faults, in their order.
    pub fn refused(&self) -> &[RefusedMessage]
        ensures { result.now ≡ self.now.refused }
    {
        &self.refused
    }

    /// Takes the machine out of a slot.
    pub fn take_stock(&mut self, slot: usize) -> Option<Box<Stock<A>, A>>
        requires { slot < STOCKS }
        ensures took { (d : Option StockMachine) →
            option_map (λ stock. stock.value) result ≡ slice_index_or self.old.stocks slot d }
        ensures left { self.new.stocks ≡ slice_set self.old.stocks slot None }
        ensures kept { (self.new.refused ≡ self.old.refused) × (self.new.failed ≡ self.old.failed) }
    {
        mem::take(&mut self.stocks[slot])
    }
}
