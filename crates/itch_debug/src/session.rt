//! A session, line by line.
ghost use Rattle.std.specs.Prelude.{◌≡◌, Some, OnErr, OnOk, IfOk};
ghost use Rattle.byte_strings.specs.Extending.{Extends};
ghost use Rattle.itch_debug.specs.Answering.{IsBeforeOrAfter};
ghost use Rattle.itch_debug.specs.Going.{session_of};
ghost use Rattle.itch_debug.specs.Sessions.{reply_of};
ghost use Rattle.itch_debug.specs.declared.session.Next.TheVariants.{Over};

use crate::answer::answer;
use crate::command::{Command, parse};
use debugger::Debugger;
use std::alloc::{AllocError, Allocator};

/// Whether a session goes on.
#[derive(Debug, Clone, Copy, PartialEq, Eq)]
pub enum Next {
    /// It goes on.
    Going,
    /// It is over.
    Over,
}

/// Does what a line of a session asks for, and adds its answer. After an error the text may have a part of the
/// answer.
pub(crate) fn put_answer<A: Allocator + Copy>(
    alloc: A,
    text: &mut Vec<u8, A>,
    debugger: &mut Debugger<'_, A>,
    line: &[u8],
) -> Result<Next, AllocError>
    ensures text { Extends text.old text.new (reply_of (Some debugger.old) line.now).text result }
    ensures next { IfOk result (λ next.
        (reply_of (Some debugger.old) line.now).next ≡ session_of next debugger.new) }
    ensures over { IfOk result (λ next. next ≡ Over → debugger.new ≡ debugger.old) }
    ensures err { IsBeforeOrAfter debugger.old (reply_of (Some debugger.old) line.now) debugger.new result }
{
    let command = parse(line);
    if let Some(Command::Quit) = command {
        return Ok(Next::Over);
    }
    answer(alloc, text, debugger, command)?;
    Ok(Next::Going)
}

/// Does what a line of a session asks for, and adds its answer to `text`: the lines that answer the command, and
/// nothing for a blank line and for `quit`, which ends the session and leaves the debugger where it is. `line` has no
/// line feed.
///
/// After an error `text` is as it was, and the debugger stands as it did or as the line makes it stand.
pub fn answer_line<A: Allocator + Copy>(
    alloc: A,
    text: &mut Vec<u8, A>,
    debugger: &mut Debugger<'_, A>,
    line: &[u8],
) -> Result<Next, AllocError>
    ensures text { Extends text.old text.new (reply_of (Some debugger.old) line.now).text result }
    ensures next { IfOk result (λ next.
        (reply_of (Some debugger.old) line.now).next ≡ session_of next debugger.new) }
    ensures over { IfOk result (λ next. next ≡ Over → debugger.new ≡ debugger.old) }
    ensures unchanged { OnErr result (text.new.items ≡ text.old.items) }
    ensures err { IsBeforeOrAfter debugger.old (reply_of (Some debugger.old) line.now) debugger.new result }
{
    let mut answer = Vec::new(alloc);
    let next = put_answer(alloc, &mut answer, debugger, line)?;
    text.extend_from_slice(&answer)?;
    Ok(next)
}
