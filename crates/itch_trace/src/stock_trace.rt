//! The trace of the messages of one stock, made segment by segment.
ghost use Rattle.std.specs.Prelude.{◌≡◌, ◌↔◌, [], IfOk, IsSome, false, true};
ghost use Rattle.itch_readings.specs.Noting.{HasTaken};
ghost use Rattle.itch_trace.specs.Made.{AreMade, IsStockTraced};
ghost use Rattle.itch_trace.specs.Printers.{EndsStockTrace, stock_trace_printer};

use crate::extent::Extent;
use crate::made::MadeLines;
use binaryfile::Day;
use day_printing::Printing;
use itch_readings::{Noted, StockName, TakesSegments};
use std::alloc::{AllocError, Allocator};

/// The trace of the messages of the stock that is named, as far as a day was read.
#[derive(Drop)]
pub(crate) struct StockTrace<A: Allocator> {
    noted: Noted<A, MadeLines<A>>,
    // Whether its first line was made.
    begun: bool,
}

impl<A: Allocator + Copy> StockTrace<A> {
    /// Before the first message of a day. An error says that memory was refused.
    pub fn new(alloc: A, extent: Extent, name: StockName) -> Result<StockTrace<A>, AllocError>
        ensures made { IfOk result (λ trace. trace.noted.notes ≡ record { extent = extent; text = [] }) }
        ensures name { IfOk result (λ trace. trace.noted.search.name ≡ name) }
        ensures begun { IfOk result (λ trace. trace.begun ≡ false) }
        ensures took { IfOk result (λ trace. HasTaken AreMade trace.noted.notes [] trace.noted.search.name
            trace.noted.search trace.noted.messages trace.noted.stock trace.noted.notes) }
    {
        let noted = Noted::new(alloc, name, MadeLines::new(alloc, extent))?;
        Ok(StockTrace {
            noted,
            begun: false,
        })
    }

    /// Whether the stock has begun.
    pub fn has_begun(&self) -> bool
        ensures { (result ≡ true) ↔ IsSome self.now.noted.stock }
    {
        self.noted.stock.is_some()
    }
}

impl<A: Allocator + Copy> Printing<A> for StockTrace<A> {
    ghost printer = { λ first. stock_trace_printer first.noted.notes.extent first.noted.search.name };

    ghost has_printed = { λ first now read text. IsStockTraced first.noted.notes.extent
        first.noted.search.name now.noted.search now.noted.messages now.noted.stock now.noted.notes
        now.begun read text };

    ghost has_ended = { λ first now read text. EndsStockTrace first.noted.notes.extent
        first.noted.search.name now.noted.stock read text };

    fn suffices(&self, messages: u64) -> bool {
        self.noted.stock.is_some() && self.noted.notes.extent().ends_within(messages)
    }

    fn print_segment(
        &mut self,
        alloc: A,
        _before: u32,
        segment: &Day<A>,
    ) -> Result<Vec<u8, A>, AllocError> {
        self.noted.take_segment(alloc, segment)?;
        if self.noted.stock.is_none() {
            return Ok(Vec::new(alloc));
        }
        let text = self.noted.notes.take(alloc, &mut self.begun)?;
        Ok(text)
    }

    fn print_end(&mut self, alloc: A, _carried: &[u8]) -> Result<Vec<u8, A>, AllocError> {
        if self.noted.stock.is_none() {
            return Ok(Vec::new(alloc));
        }
        let text = self.noted.notes.take(alloc, &mut self.begun)?;
        Ok(text)
    }

    fn texts_go_on(&self) {}
}
