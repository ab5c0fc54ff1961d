//! The line of a message.
ghost use Rattle.itch_layouts.specs.StaticLayouts.{as_layout};
ghost use Rattle.itch_text.specs.Words.{words};
ghost use Rattle.itch_text.specs.Faults.{Message};
ghost use Rattle.itch_text.specs.Parsing.{named_bytes};
ghost use Rattle.itch_text.specs.Fields.{Puts};

use crate::fault::{LineError, LineFault};
use crate::fields::put_fields;
use crate::words::split_word;
use itch_layouts::{Layout, head_fields};
use std::alloc::Allocator;

/// Appends the entry of a message of this layout, whose fields are the words of a line, all of them in their order.
pub(crate) fn put_message<A: Allocator>(
    out: &mut Vec<u8, A>,
    layout: &Layout,
    line: &[u8],
) -> Result<(), LineError>
    ensures { Puts out.old.items out.new.items
        (named_bytes (Message (as_layout layout.now)) (words line.now)) result }
{
    out.reserve(2 + usize::from(layout.size))?;
    out.extend_from_slice(&layout.size.to_be_bytes())?;
    out.push(layout.kind)?;
    let body = put_fields(out, head_fields(), line)?;
    let rest = put_fields(out, layout.body, body)?;
    if split_word(rest).is_some() {
        return Err(LineError::Wrong(LineFault::Field));
    }
    Ok(())
}
