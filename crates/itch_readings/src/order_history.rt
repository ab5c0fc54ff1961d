//! What is kept of a stock's messages for the life of one of its orders.
ghost use Rattle.std.specs.Prelude.{◌≡◌, ◌++◌, ◌∷◌, [], IfOk, List, OnOk};
ghost use Rattle.byte_strings.specs.Extending.{Extends};
ghost use Rattle.itch_readings.specs.OrderHistory.{AreKept, HavePayloads, first_by, kept_lines};
ghost use Rattle.itch_readings.specs.OrderLives.{life_line};
ghost use Rattle.itch_readings.specs.OwnMessages.{OwnMessage};

use crate::lives::Lives;
use crate::notes::Notes;
use itch_print::put_payload;
use itch_table::{Order, Outcome};
use std::alloc::{AllocError, Allocator};
use stock_machine::Stock;
use stock_text::put_outcome;
use text_fields::put_count;

/// What is kept of a message beside its payload.
#[derive(Debug, Clone, Copy, PartialEq, Eq)]
pub(crate) struct Kept {
    /// The message's number in the day.
    pub number: u32,
    /// What became of it.
    pub outcome: Outcome,
    /// How many bytes its payload has.
    pub length: usize,
}

/// A stock's messages and the lives of its orders, as far as they were noted.
#[derive(Drop)]
pub(crate) struct OrderHistory<A: Allocator> {
    kept: Vec<Kept, A>,
    // The payloads, one after the other.
    payloads: Vec<u8, A>,
    /// The lives of its orders.
    pub lives: Lives<A>,
}

impl<A: Allocator + Copy> OrderHistory<A> {
    /// That of no message.
    pub fn new(alloc: A) -> OrderHistory<A>
        ensures { AreKept result.kept.items result.payloads.items result.lives.firsts [] }
    {
        OrderHistory {
            kept: Vec::new(alloc),
            payloads: Vec::new(alloc),
            lives: Lives::new(alloc),
        }
    }

    // Adds the line of a message, where it names the life.
    fn put_line(
        &self,
        text: &mut Vec<u8, A>,
        reference: u64,
        kept: Kept,
        payload: &[u8],
    ) -> Result<(), AllocError>
        ensures { Extends text.old text.new (life_line (first_by self.now.lives.firsts) reference
            kept.number kept.outcome payload.now) result }
    {
        if self.lives.names(reference, payload) {
            put_count(text, b"", kept.number)?;
            text.push(b' ')?;
            put_outcome(text, kept.outcome)?;
            text.push(b' ')?;
            put_payload(text, payload)?;
        }
        Ok(())
    }

    /// Adds the lines of the messages that name the life which has this reference.
    pub fn put_lines(&self, text: &mut Vec<u8, A>, reference: u64) -> Result<(), AllocError>
        requires { HavePayloads self.now.kept.items self.now.payloads.items }
        ensures { Extends text.old text.new (kept_lines (first_by self.now.lives.firsts) reference
            self.now.kept.items self.now.payloads.items) result }
    {
        let mut rest = self.payloads.as_slice();
        for kept in &self.kept {
            let (payload, later) = rest.split_at(kept.length);
            self.put_line(text, reference, *kept, payload)?;
            rest = later;
        }
        Ok(())
    }
}

impl<A: Allocator + Copy> Notes for OrderHistory<A> {
    ghost noted = { λ _ now messages. AreKept now.kept.items now.payloads.items now.lives.firsts messages };

    fn note<B: Allocator + Copy>(
        &mut self,
        number: u32,
        payload: &[u8],
        _named: Option<Order>,
        outcome: Outcome,
        _stock: &Stock<B>,
    ) -> Result<(), AllocError> {
        let length = payload.len();
        self.kept.push(Kept {
            number,
            outcome,
            length,
        })?;
        self.payloads.extend_from_slice(payload)?;
        self.lives.take(payload, outcome)
    }
}
