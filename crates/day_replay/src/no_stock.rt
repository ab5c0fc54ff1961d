//! What is known of messages of no stock.
ghost use Rattle.std.specs.Prelude.{◌≡◌, ◌+◌, ◌-◌, ◌<◌, ◌^◌, ◌++◌, ◌∷◌, ℕ, List, [], OnOk};
ghost use Rattle.itch_table.specs.declared.outcome.Part.{Part};
ghost use Rattle.itch_table.specs.Parts.{part};
ghost use Rattle.day_replay.specs.NoStock.{no_stock_of};

use crate::refusals::RefusedMessage;
use day_core::event_after;
use itch_table::Outcome;
use std::alloc::{AllocError, Allocator};
use std::marker::Model;

/// What is known of those of some messages that are of no stock: the messages of the whole market and of an offering,
/// of unknown types, and of wrong lengths.
#[derive(Drop)]
pub(crate) struct NoStock<A: Allocator> {
    refused: Vec<RefusedMessage, A>,
    passed: u32,
    event: Option<u8>,
}

impl<A: Allocator> Model for NoStock<A> {
    ghost use Rattle.day_replay.specs.NoStock.{NoStockFacts};

    ghost Value = { NoStockFacts };

    ghost view = { λ f. record { refused = f.refused.items; passed = f.passed; event = f.event } };
}

impl<A: Allocator> NoStock<A> {
    /// What is known of no messages. It takes no memory yet.
    pub fn new(alloc: A) -> NoStock<A>
        ensures { result ≡ no_stock_of [] }
    {
        NoStock {
            refused: Vec::new(alloc),
            passed: 0,
            event: None,
        }
    }

    /// Forgets all messages, and keeps the memory.
    pub fn clear(&mut self)
        ensures { self.new ≡ no_stock_of [] }
    {
        self.refused.clear();
        self.passed = 0;
        self.event = None;
    }

    /// Takes note of one message of no stock more, which has this outcome. An error says that memory was refused.
    pub fn note(&mut self, number: u32, payload: &[u8], outcome: Outcome) -> Result<(), AllocError>
        requires part { part payload.now ≡ Part.Nowhere outcome }
        requires few { self.old.passed < 2 ^ 32 - 1 }
        ensures { OnOk result ((messages : List (ℕ × List ℕ)) → self.old ≡ no_stock_of messages
            → self.new ≡ no_stock_of (messages ++ (number, payload.now) ∷ [])) }
    {
        match outcome {
            Outcome::Applied => {}
            Outcome::Passed => self.passed += 1,
            Outcome::Refused(_) => self.refused.push(RefusedMessage {
                message: number,
                locate: None,
                outcome,
            })?,
        }
        self.event = event_after(payload, self.event);
        Ok(())
    }

    /// Takes note of what is known of further messages. An error says that memory was refused.
    pub fn append(&mut self, more: &NoStock<A>) -> Result<(), AllocError>
        requires { self.old.passed + more.now.passed < 2 ^ 32 }
        ensures { OnOk result ((messages further : List (ℕ × List ℕ)) → self.old ≡ no_stock_of messages
            → more.now ≡ no_stock_of further → self.new ≡ no_stock_of (messages ++ further)) }
    {
        self.refused.extend_from_slice(&more.refused)?;
        self.passed += more.passed;
        self.event = more.event.or(self.event);
        Ok(())
    }

    /// The refused messages with their faults, in their order.
    pub fn refused(&self) -> &[RefusedMessage]
        ensures { result.now ≡ self.now.refused }
    {
        &self.refused
    }

    /// How many messages were passed over.
    pub fn passed(&self) -> u32
        ensures { result ≡ self.now.passed }
    {
        self.passed
    }

    /// The event code of the last system event message, where there is one.
    pub fn event(&self) -> Option<u8>
        ensures { result ≡ self.now.event }
    {
        self.event
    }
}
