//! Lines of a trace, from when they are made to when they are sent.
ghost use Rattle.std.specs.Prelude.{◌≡◌, ◌++◌, ◌∷◌, IfOk, List, [], OnOk, true};
ghost use Rattle.itch_readings.specs.OwnMessages.{OwnMessage};
ghost use Rattle.itch_trace.specs.Made.{AreMade, MadeLines as Lines, head_left};
ghost use Rattle.itch_trace.specs.Messages.{other_message};

use crate::extent::Extent;
use crate::fields::{put_depth, put_head, put_message, put_no_depth};
use itch_readings::Notes;
use itch_table::{Order, Outcome};
use std::alloc::{AllocError, Allocator};
use std::marker::Model;
use std::mem;
use stock_machine::Stock;

/// Lines that were made and are still to be sent.
#[derive(Drop)]
pub(crate) struct MadeLines<A: Allocator> {
    extent: Extent,
    text: Vec<u8, A>,
}

impl<A: Allocator> Model for MadeLines<A> {
    ghost use Rattle.std.specs.Coded.{codes, coded_ℕ, coded_list};
    ghost use Rattle.itch_trace.specs.Made.{MadeLines};

    ghost Value = { MadeLines };

    ghost view = { λ m. record { extent = m.extent; text = m.text.items } };
}

impl<A: Allocator + Copy> MadeLines<A> {
    /// None.
    pub fn new(alloc: A, extent: Extent) -> MadeLines<A>
        ensures { result ≡ record { extent = extent; text = [] } }
    {
        MadeLines {
            extent,
            text: Vec::new(alloc),
        }
    }

    /// How much of the trace is wanted.
    pub fn extent(&self) -> Extent
        ensures { result ≡ self.now.extent }
    {
        self.extent
    }

    /// Takes note of a message of no stock, by its number in the day, its payload and its outcome. An error says that memory
    /// was refused.
    pub fn note_other(
        &mut self,
        number: u32,
        payload: &[u8],
        outcome: Outcome,
    ) -> Result<(), AllocError>
        ensures { OnOk result ((sent : Lines) (before : List OwnMessage) → AreMade sent self.old before
            → AreMade sent self.new (before ++ other_message number payload.now outcome ∷ [])) }
    {
        if self.extent.has(number) {
            put_message(&mut self.text, number, payload, outcome)?;
            put_no_depth(&mut self.text, self.extent.depth)?;
            self.text.push(b'\n')?;
        }
        Ok(())
    }

    /// Takes the lines away, to be sent, and before them the first line of the trace where it hasn't begun.
    pub fn take(&mut self, alloc: A, begun: &mut bool) -> Result<Vec<u8, A>, AllocError>
        ensures text { IfOk result (λ text.
            text.items ≡ head_left begun.old self.old.extent.depth ++ self.old.text) }
        ensures left { OnOk result (self.new ≡ record { extent = self.old.extent; text = [] }) }
        ensures begun { OnOk result (begun.new ≡ true) }
    {
        let mut text = Vec::new(alloc);
        if !*begun {
            put_head(&mut text, self.extent.depth)?;
            *begun = true;
        }
        let lines = mem::replace(&mut self.text, Vec::new(alloc));
        text.extend_from_slice(&lines)?;
        Ok(text)
    }
}

impl<A: Allocator> Notes for MadeLines<A> {
    ghost noted = { AreMade };

    fn note<B: Allocator + Copy>(
        &mut self,
        number: u32,
        payload: &[u8],
        _named: Option<Order>,
        outcome: Outcome,
        stock: &Stock<B>,
    ) -> Result<(), AllocError> {
        if self.extent.has(number) {
            put_message(&mut self.text, number, payload, outcome)?;
            put_depth(&mut self.text, stock, self.extent.depth)?;
            self.text.push(b'\n')?;
        }
        Ok(())
    }
}
