//! The trace of all messages of a day, made segment by segment.
ghost use Rattle.std.specs.Prelude.{◌≡◌, ◌+◌, ◌<◌, ◌^◌, ◌++◌, ◌∷◌, List, [], IfOk, OnOk, false, length, ℕ};
ghost use Rattle.itch_readings.specs.AllStocks.{HasNotedAll};
ghost use Rattle.itch_trace.specs.Made.{Anything, HasTraced, IsTraced, MadeLines as Lines};
ghost use Rattle.itch_trace.specs.Printers.{IsTrace, trace_printer};

use crate::extent::Extent;
use crate::made::MadeLines;
use binaryfile::Day;
use day_printing::Printing;
use itch_readings::Machines;
use itch_table::{Part, own_rows_suffice, part, stocks_are_independent};
use std::alloc::{AllocError, Allocator};

/// The trace of all messages of a day, as far as it was read.
#[derive(Drop)]
pub(crate) struct DayTrace<A: Allocator> {
    machines: Machines<A>,
    // How many messages were taken.
    messages: u32,
    made: MadeLines<A>,
    // Whether its first line was made.
    begun: bool,
}

impl<A: Allocator + Copy> DayTrace<A> {
    /// Before the first message of a day. It takes 512 KiB of `alloc`; an error says that these were refused.
    pub fn new(alloc: A, extent: Extent) -> Result<DayTrace<A>, AllocError>
        ensures made { IfOk result (λ trace. trace.made ≡ record { extent = extent; text = [] }) }
        ensures begun { IfOk result (λ trace. trace.begun ≡ false) }
        ensures took { IfOk result (λ trace. HasNotedAll Anything tt [] trace.machines trace.messages tt) }
    {
        let machines = Machines::new(alloc)?;
        Ok(DayTrace {
            machines,
            messages: 0,
            made: MadeLines::new(alloc, extent),
            begun: false,
        })
    }

    // Takes the next message of the day.
    fn take(&mut self, alloc: A, payload: &[u8]) -> Result<(), AllocError>
        requires { (sent : Lines) × (day : List (List ℕ))
            × HasTraced sent day self.old.machines self.old.messages self.old.made
            × (length day + 1 < 2 ^ 32) }
        ensures took { OnOk result ((sent : Lines) (day : List (List ℕ))
            → HasTraced sent day self.old.machines self.old.messages self.old.made
            → HasTraced sent (day ++ payload.now ∷ [])
            self.new.machines self.new.messages self.new.made) }
        ensures begun { self.new.begun ≡ self.old.begun }
    {
        // Laws that the proof cites: they do nothing.
        stocks_are_independent();
        own_rows_suffice();
        self.messages += 1;
        match part(payload) {
            Part::Nowhere(outcome) => self.made.note_other(self.messages, payload, outcome),
            Part::Locate(locate) => {
                self.machines
                    .note_next(alloc, locate, &mut self.made, self.messages, payload)
            }
        }
    }

    // Takes the messages of the next segment.
    fn take_segment(&mut self, alloc: A, segment: &Day<A>) -> Result<(), AllocError>
        requires { (sent : Lines) × (day : List (List ℕ))
            × HasTraced sent day self.old.machines self.old.messages self.old.made
            × (length day + length segment.now.payloads < 2 ^ 32) }
        ensures took { OnOk result ((sent : Lines) (day : List (List ℕ))
            → HasTraced sent day self.old.machines self.old.messages self.old.made
            → HasTraced sent (day ++ segment.now.payloads)
            self.new.machines self.new.messages self.new.made) }
        ensures begun { self.new.begun ≡ self.old.begun }
    {
        for payload in segment.payloads() {
            self.take(alloc, payload)?;
        }
        Ok(())
    }
}

impl<A: Allocator + Copy> Printing<A> for DayTrace<A> {
    ghost printer = { λ first. trace_printer first.made.extent };

    ghost has_printed = { λ first now read text.
        IsTraced first.made.extent now.machines now.messages now.made now.begun read text };

    ghost has_ended = { λ first now read text. IsTrace first.made.extent read text };

    fn suffices(&self, messages: u64) -> bool {
        messages > 0 && self.made.extent().ends_within(messages)
    }

    fn print_segment(
        &mut self,
        alloc: A,
        _before: u32,
        segment: &Day<A>,
    ) -> Result<Vec<u8, A>, AllocError> {
        self.take_segment(alloc, segment)?;
        let text = self.made.take(alloc, &mut self.begun)?;
        Ok(text)
    }

    fn print_end(&mut self, alloc: A, _carried: &[u8]) -> Result<Vec<u8, A>, AllocError> {
        self.made.take(alloc, &mut self.begun)
    }

    fn texts_go_on(&self) {}
}
