//! The text of a file, or of some of its messages, made segment by segment.
ghost use Rattle.std.specs.Prelude.{◌≡◌};
ghost use Rattle.itch_dis.specs.Extents.{IsPrinted, printer_of, text_of_extent};
ghost use Rattle.itch_dis.specs.declared.text_end.TextEnd.TheVariants.{Open};

use crate::extent::Extent;
use crate::text_end::TextEnd;
use binaryfile::Day;
use day_printing::Printing;
use std::alloc::{AllocError, Allocator};

/// The text of a file, or of some of its messages, as far as it was made.
#[derive(Drop)]
pub(crate) struct DayText {
    extent: Extent,
    // How far the end of the file's text was written.
    end: TextEnd,
}

impl DayText {
    /// So much of a text, of which nothing was made.
    pub fn new(extent: Extent) -> DayText
        ensures extent { result.extent ≡ extent }
        ensures end { result.end ≡ Open }
    {
        DayText {
            extent,
            end: TextEnd::Open,
        }
    }
}

impl<A: Allocator + Copy> Printing<A> for DayText {
    ghost printer = { λ first. printer_of first.extent };

    ghost has_printed = { λ first now read text. IsPrinted first.extent now.extent now.end read text };

    ghost has_ended = { λ first now read text. text ≡ text_of_extent first.extent read };

    fn suffices(&self, messages: u64) -> bool {
        self.extent.ends_within(messages)
    }

    fn print_segment(
        &mut self,
        alloc: A,
        before: u32,
        segment: &Day<A>,
    ) -> Result<Vec<u8, A>, AllocError> {
        let text = self
            .extent
            .text_of_segment(alloc, before, self.end, segment)?;
        self.end = self.end.after(segment.marked(), segment.tail());
        Ok(text)
    }

    fn print_end(&mut self, alloc: A, carried: &[u8]) -> Result<Vec<u8, A>, AllocError> {
        self.extent.closing_text(alloc, self.end, carried)
    }

    fn texts_go_on(&self) {}
}
