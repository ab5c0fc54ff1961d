//! The answers of commands.
ghost use Rattle.std.specs.Prelude.{◌≢◌, Some, None};
ghost use Rattle.byte_strings.specs.Extending.{Extends};
ghost use Rattle.itch_debug.specs.Answering.{IsBeforeOrAfter, Replies, add_reply, back_reply, goto_reply, onward_reply, rearward_reply, remove_reply, reply_or, reply_to, step_reply, stop_text};

use crate::command::Command;
use crate::lines::{
    put_break_number, put_breaks, put_event, put_hit, put_position, put_position_line, put_refusal,
};
use crate::stock::put_shown;
use debugger::{Break, DebugFault, Debugger, Stop};
use std::alloc::{AllocError, Allocator};

// Moves to a position, and adds the answer.
fn goto<A: Allocator + Copy>(
    alloc: A,
    text: &mut Vec<u8, A>,
    debugger: &mut Debugger<'_, A>,
    n: u64,
) -> Result<(), AllocError>
    ensures reply { Replies text.old text.new (goto_reply debugger.old n) (Some debugger.new) result }
    ensures err { IsBeforeOrAfter debugger.old (goto_reply debugger.old n) debugger.new result }
{
    if n > u64::from(debugger.last()) {
        return put_refusal(text, DebugFault::PastEnd);
    }
    match debugger.goto(alloc, n as u32) {
        Ok(()) => put_position_line(text, debugger),
        Err(fault) => put_refusal(text, fault),
    }
}

// Moves one message on, and adds the answer.
fn step<A: Allocator + Copy>(
    alloc: A,
    text: &mut Vec<u8, A>,
    debugger: &mut Debugger<'_, A>,
) -> Result<(), AllocError>
    ensures reply { Replies text.old text.new (step_reply debugger.old) (Some debugger.new) result }
    ensures err { IsBeforeOrAfter debugger.old (step_reply debugger.old) debugger.new result }
{
    match debugger.step(alloc) {
        Ok(()) => put_position_line(text, debugger),
        Err(fault) => put_refusal(text, fault),
    }
}

// Moves one message back, and adds the answer.
fn back<A: Allocator + Copy>(
    alloc: A,
    text: &mut Vec<u8, A>,
    debugger: &mut Debugger<'_, A>,
) -> Result<(), AllocError>
    ensures reply { Replies text.old text.new (back_reply debugger.old) (Some debugger.new) result }
    ensures err { IsBeforeOrAfter debugger.old (back_reply debugger.old) debugger.new result }
{
    match debugger.back(alloc) {
        Ok(()) => put_position_line(text, debugger),
        Err(fault) => put_refusal(text, fault),
    }
}

// Adds the answer of a search for a breakpoint.
fn put_stop<A: Allocator>(
    text: &mut Vec<u8, A>,
    debugger: &Debugger<'_, A>,
    stop: Stop,
) -> Result<(), AllocError>
    ensures { Extends text.old text.new (stop_text debugger.now stop.hit) result }
{
    put_position(text, debugger)?;
    put_hit(text, stop.hit)?;
    text.push(b'\n')?;
    Ok(())
}

// Moves to the next stop, and adds the answer.
fn onward<A: Allocator + Copy>(
    alloc: A,
    text: &mut Vec<u8, A>,
    debugger: &mut Debugger<'_, A>,
) -> Result<(), AllocError>
    ensures reply { Replies text.old text.new (onward_reply debugger.old) (Some debugger.new) result }
    ensures err { IsBeforeOrAfter debugger.old (onward_reply debugger.old) debugger.new result }
{
    match debugger.onward(alloc) {
        Ok(stop) => put_stop(text, debugger, stop),
        Err(fault) => put_refusal(text, fault),
    }
}

// Moves to the stop before, and adds the answer.
fn rearward<A: Allocator + Copy>(
    alloc: A,
    text: &mut Vec<u8, A>,
    debugger: &mut Debugger<'_, A>,
) -> Result<(), AllocError>
    ensures reply { Replies text.old text.new (rearward_reply debugger.old) (Some debugger.new) result }
    ensures err { IsBeforeOrAfter debugger.old (rearward_reply debugger.old) debugger.new result }
{
    match debugger.rearward(alloc) {
        Ok(stop) => put_stop(text, debugger, stop),
        Err(fault) => put_refusal(text, fault),
    }
}

// Adds a breakpoint, and the answer.
fn add_break<A: Allocator + Copy>(
    alloc: A,
    text: &mut Vec<u8, A>,
    debugger: &mut Debugger<'_, A>,
    breakpoint: Break,
) -> Result<(), AllocError>
    ensures reply { Replies text.old text.new (add_reply debugger.old breakpoint) (Some debugger.new) result }
    ensures err { IsBeforeOrAfter debugger.old (add_reply debugger.old breakpoint) debugger.new result }
{
    let index = debugger.add_break(alloc, breakpoint)?;
    put_break_number(text, index)
}

// Removes the breakpoint of a number, and adds the answer.
fn remove_break<A: Allocator>(
    text: &mut Vec<u8, A>,
    debugger: &mut Debugger<'_, A>,
    number: u64,
) -> Result<(), AllocError>
    ensures reply { Replies text.old text.new (remove_reply debugger.old number) (Some debugger.new) result }
    ensures err { IsBeforeOrAfter debugger.old (remove_reply debugger.old number) debugger.new result }
{
    if number == 0 {
        return text.extend_from_slice(b"? no such break\n");
    }
    match debugger.remove_break((number - 1) as usize) {
        Some(_) => text.extend_from_slice(b"removed\n"),
        None => text.extend_from_slice(b"? no such break\n"),
    }
}

// Does what a command asks for, and adds its answer.
fn answer_command<A: Allocator + Copy>(
    alloc: A,
    text: &mut Vec<u8, A>,
    debugger: &mut Debugger<'_, A>,
    command: Command,
) -> Result<(), AllocError>
    requires { command ≢ Command.Quit }
    ensures reply { Replies text.old text.new (reply_to debugger.old command) (Some debugger.new) result }
    ensures err { IsBeforeOrAfter debugger.old (reply_to debugger.old command) debugger.new result }
{
    match command {
        Command::Blank => Ok(()),
        Command::Quit => unreachable!(),
        Command::Goto(n) => goto(alloc, text, debugger, n),
        Command::Step => step(alloc, text, debugger),
        Command::Back => back(alloc, text, debugger),
        Command::Onward => onward(alloc, text, debugger),
        Command::Rearward => rearward(alloc, text, debugger),
        Command::AddBreak(breakpoint) => add_break(alloc, text, debugger, breakpoint),
        Command::ListBreaks => put_breaks(text, debugger),
        Command::RemoveBreak(number) => remove_break(text, debugger, number),
        Command::Event => put_event(text, debugger),
        Command::Show(locate) => put_shown(alloc, text, debugger, locate),
    }
}

/// Does what a line asks for, which is anything but to quit, and adds its answer.
pub(crate) fn answer<A: Allocator + Copy>(
    alloc: A,
    text: &mut Vec<u8, A>,
    debugger: &mut Debugger<'_, A>,
    command: Option<Command>,
) -> Result<(), AllocError>
    requires { command ≢ Some Command.Quit }
    ensures reply { Replies text.old text.new (reply_or debugger.old command) (Some debugger.new) result }
    ensures err { IsBeforeOrAfter debugger.old (reply_or debugger.old command) debugger.new result }
{
    match command {
        Some(command) => answer_command(alloc, text, debugger, command),
        None => text.extend_from_slice(b"? command\n"),
    }
}
