//! The lines of answers.
ghost use Rattle.std.specs.Prelude.{◌≢◌, ◌+◌, ◌++◌, OnOk, codes};
ghost use Rattle.byte_strings.specs.Extending.{Extends};
ghost use Rattle.itch_table.specs.After.{after};
ghost use Rattle.itch_debug.specs.Answering.{break_line, break_text, breaks_text, event_line, hit_text, numbered_break, refusal_text};
ghost use Rattle.stock_text.specs.Sessions.{position_text};

use debugger::{Break, DebugFault, Debugger};
use std::alloc::{AllocError, Allocator};
use stock_text::put_side;
use text_fields::{put_count, put_quoted_byte};

/// Adds the position and what became of its message.
pub(crate) fn put_position<A: Allocator>(
    text: &mut Vec<u8, A>,
    debugger: &Debugger<'_, A>,
) -> Result<(), AllocError>
    ensures { Extends text.old text.new (position_text debugger.now.day debugger.now.position) result }
{
    stock_text::put_position(text, debugger.position(), debugger.outcome())
}

/// Adds the line of the position.
pub(crate) fn put_position_line<A: Allocator>(
    text: &mut Vec<u8, A>,
    debugger: &Debugger<'_, A>,
) -> Result<(), AllocError>
    ensures { Extends text.old text.new
        (position_text debugger.now.day debugger.now.position ++ codes "\n") result }
{
    stock_text::put_position_line(text, debugger.position(), debugger.outcome())
}

/// Adds the number of the breakpoint at an index.
pub(crate) fn put_hit<A: Allocator>(
    text: &mut Vec<u8, A>,
    index: Option<usize>,
) -> Result<(), AllocError>
    ensures { Extends text.old text.new (hit_text index) result }
{
    match index {
        None => text.extend_from_slice(b" no break"),
        Some(index) => put_count(text, b" break ", index as u128 + 1),
    }
}

/// Adds why a move was refused. Where memory was, it returns an error.
pub(crate) fn put_refusal<A: Allocator>(
    text: &mut Vec<u8, A>,
    fault: DebugFault,
) -> Result<(), AllocError>
    ensures text { Extends text.old text.new (refusal_text fault) result }
    ensures memory { OnOk result (fault ≢ DebugFault.Memory) }
{
    match fault {
        DebugFault::Memory => Err(AllocError),
        DebugFault::PastEnd => text.extend_from_slice(b"? past end\n"),
        DebugFault::BeforeStart => text.extend_from_slice(b"? before start\n"),
    }
}

/// Adds the line of the number of the breakpoint at an index.
pub(crate) fn put_break_number<A: Allocator>(
    text: &mut Vec<u8, A>,
    index: usize,
) -> Result<(), AllocError>
    ensures { Extends text.old text.new (break_line (index + 1)) result }
{
    put_count(text, b"break ", index as u128 + 1)?;
    text.push(b'\n')?;
    Ok(())
}

// Adds a breakpoint.
fn put_break<A: Allocator>(text: &mut Vec<u8, A>, breakpoint: Break) -> Result<(), AllocError>
    ensures { Extends text.old text.new (break_text breakpoint) result }
{
    match breakpoint {
        Break::Price {
            locate,
            side,
            price,
        } => {
            put_count(text, b"price ", locate)?;
            text.push(b' ')?;
            put_side(text, side)?;
            put_count(text, b" ", price)
        }
        Break::Reference { locate, reference } => {
            put_count(text, b"reference ", locate)?;
            put_count(text, b" ", reference)
        }
        Break::Time { time } => put_count(text, b"time ", time.get()),
    }
}

// Adds the line of a breakpoint, with its number.
fn put_numbered_break<A: Allocator>(
    text: &mut Vec<u8, A>,
    number: u128,
    breakpoint: Break,
) -> Result<(), AllocError>
    ensures { Extends text.old text.new (numbered_break number breakpoint) result }
{
    put_count(text, b"", number)?;
    text.push(b' ')?;
    put_break(text, breakpoint)?;
    text.push(b'\n')?;
    Ok(())
}

/// Adds the lines of all breakpoints.
pub(crate) fn put_breaks<A: Allocator>(
    text: &mut Vec<u8, A>,
    debugger: &Debugger<'_, A>,
) -> Result<(), AllocError>
    ensures { Extends text.old text.new (breaks_text debugger.now.breaks) result }
{
    let count = debugger.break_len();
    if count == 0 {
        return text.extend_from_slice(b"no breaks\n");
    }
    'breaks: for index in 0..count {
        let breakpoint = debugger.break_at(index).unwrap();
        put_numbered_break(text, index as u128 + 1, breakpoint)?;
    }
    Ok(())
}

/// Adds the line of the last event.
pub(crate) fn put_event<A: Allocator>(
    text: &mut Vec<u8, A>,
    debugger: &Debugger<'_, A>,
) -> Result<(), AllocError>
    ensures { Extends text.old text.new
        (event_line (after debugger.now.day debugger.now.position).event) result }
{
    text.extend_from_slice(b"event ")?;
    put_quoted_byte(text, debugger.event())?;
    text.push(b'\n')?;
    Ok(())
}
