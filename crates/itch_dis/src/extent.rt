//! How much of a file is written.
ghost use Rattle.std.specs.Prelude.{◌≡◌, ◌↔◌, IfOk, length, true};
ghost use Rattle.itch_dis.specs.Extents.{ReachesEnd, closing_text, segment_text};

use crate::text_end::{TextEnd, put_closing, put_end};
use binaryfile::Day;
use itch_print::disassemble_between;
use std::alloc::{AllocError, Allocator};

/// How much of a file is written.
#[derive(Debug, Clone, Copy, PartialEq, Eq)]
pub(crate) enum Extent {
    /// Its whole text.
    Whole,
    /// The lines of its messages from number `first` on, to number `last`, or to the last one where that is `None`.
    Messages { first: u32, last: Option<u32> },
}

impl Extent {
    /// Whether so many messages, the first ones of a file, suffice for it.
    pub fn ends_within(self, messages: u64) -> bool
        ensures { (result ≡ true) ↔ ReachesEnd self messages }
    {
        match self {
            Extent::Whole => false,
            Extent::Messages { first: _, last } => match last {
                None => false,
                Some(last) => u64::from(last) <= messages,
            },
        }
    }

    /// What is written of a segment that comes after so many messages of a file whose end was written so far.
    pub fn text_of_segment<A: Allocator + Copy>(
        self,
        alloc: A,
        before: u32,
        end: TextEnd,
        segment: &Day<A>,
    ) -> Result<Vec<u8, A>, AllocError>
        ensures { IfOk result (λ text. text.items ≡ segment_text self before end segment.now) }
    {
        match self {
            Extent::Whole => {
                let mut text = disassemble_between(alloc, segment, 1, u32::MAX)?;
                put_end(alloc, &mut text, end, segment.marked(), segment.tail())?;
                Ok(text)
            }
            Extent::Messages { first, last } => {
                let first = first.saturating_sub(before);
                let last = last.unwrap_or(u32::MAX).saturating_sub(before);
                disassemble_between(alloc, segment, first, last)
            }
        }
    }

    /// What is written after all segments, where these bytes are less than a whole entry.
    pub fn closing_text<A: Allocator + Copy>(
        self,
        alloc: A,
        end: TextEnd,
        cut: &[u8],
    ) -> Result<Vec<u8, A>, AllocError>
        ensures { IfOk result (λ text. text.items ≡ closing_text self end cut.now) }
    {
        let mut text = Vec::new(alloc);
        if let Extent::Whole = self {
            put_closing(alloc, &mut text, end, cut)?;
        }
        Ok(text)
    }
}
