//! All stocks of a day, whose messages are noted one by one.
ghost use Rattle.std.specs.Prelude.{ℕ, ◌≡◌, ◌+◌, ◌<◌, ◌^◌, ◌++◌, ◌∷◌, List, [], IfOk, OnOk, length};
ghost use Rattle.itch_readings.specs.AllStocks.{HasNotedAll, own_all};

use crate::machines::Machines;
use crate::notes::Notes;
use crate::segments::TakesSegments;
use binaryfile::Day;
use itch_table::{Part, own_rows_suffice, part, stocks_are_independent};
use std::alloc::{AllocError, Allocator};

/// All stocks of a day, as far as it was read, and the notes of their messages in the file's order.
#[derive(Drop)]
pub(crate) struct AllNoted<A: Allocator, N: Drop> {
    machines: Machines<A>,
    // How many messages were taken.
    messages: u32,
    notes: N,
}

impl<A: Allocator + Copy, N: Notes + Drop> AllNoted<A, N> {
    /// Before the first message of a day, with these notes, which are of no message.
    pub fn new(alloc: A, notes: N) -> Result<AllNoted<A, N>, AllocError>
        requires { N.noted notes notes [] }
        ensures notes { IfOk result (λ noted. noted.notes ≡ notes) }
        ensures none { IfOk result (λ noted.
            HasNotedAll N.noted noted.notes [] noted.machines noted.messages noted.notes) }
    {
        let machines = Machines::new(alloc)?;
        Ok(AllNoted {
            machines,
            messages: 0,
            notes,
        })
    }

    // Takes the next message of the day.
    fn take(&mut self, alloc: A, payload: &[u8]) -> Result<(), AllocError>
        requires { (first : N) × (day : List (List ℕ))
            × HasNotedAll N.noted first day self.old.machines self.old.messages self.old.notes
            × (length day + 1 < 2 ^ 32) }
        ensures { OnOk result ((first : N) (day : List (List ℕ))
            → HasNotedAll N.noted first day self.old.machines self.old.messages self.old.notes
            → HasNotedAll N.noted first (day ++ payload.now ∷ [])
            self.new.machines self.new.messages self.new.notes) }
    {
        // Laws that the proof cites: they do nothing.
        stocks_are_independent();
        own_rows_suffice();
        self.messages += 1;
        let Part::Locate(locate) = part(payload) else {
            return Ok(());
        };
        self.machines
            .note_next(alloc, locate, &mut self.notes, self.messages, payload)
    }

    /// The notes of all messages that were taken.
    pub fn into_notes(self) -> N
        ensures { (first : N) (day : List (List ℕ))
            → HasNotedAll N.noted first day self.machines self.messages self.notes
            → N.noted first result (own_all day) }
    {
        self.notes
    }
}

impl<A: Allocator + Copy, N: Notes + Drop> TakesSegments<A> for AllNoted<A, N> {
    ghost has_taken = { λ first now day.
        HasNotedAll N.noted first.notes day now.machines now.messages now.notes };

    fn take_segment(&mut self, alloc: A, segment: &Day<A>) -> Result<(), AllocError> {
        for payload in segment.payloads() {
            self.take(alloc, payload)?;
        }
        Ok(())
    }
}
