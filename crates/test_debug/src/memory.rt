//! Memory that is refused in a session.
use crate::worked::{TRADED, day_in};
use debugger::Debugger;
use itch_debug::answer_line;
use std::alloc::{Allocator, Global};
use std::test::Fail;
use test_refusing::{Refusal, Refusing, Tried, refuse_each};
use test_support::{same, same_bytes};

// What a text has before an answer.
const BEFORE: &[u8] = b"before\n";

// The breakpoints of a session before a line.
const BREAKS: &str = "1 time 3\n";

// Passes a line to a session, with memory.
fn answer<A: Allocator + Copy>(
    alloc: A,
    debugger: &mut Debugger<'_, A>,
    line: &str,
    wanted: &str,
) -> Result<(), Fail> {
    let mut text = Vec::new(alloc);
    answer_line(alloc, &mut text, debugger, line.as_bytes())?;
    same_bytes(line, &text, wanted.as_bytes())
}

// Passes a line to a session under a refusal, with a text that has something. The answer follows that, or nothing does
// where memory was refused.
fn answer_under<A: Allocator + Copy>(
    heap: &Refusing<Global>,
    alloc: A,
    debugger: &mut Debugger<'_, A>,
    line: &str,
    wanted: &str,
    refusal: Refusal,
) -> Result<Tried, Fail> {
    let mut text = Vec::from_slice(alloc, BEFORE)?;
    heap.restart(refusal);
    let refused = answer_line(alloc, &mut text, debugger, line.as_bytes()).is_err();
    let tried = heap.tried(refused);
    let Some(added) = text.strip_prefix(BEFORE) else {
        return Err(Fail::new("the text before an answer is gone"));
    };
    let wanted = if tried.refused { "" } else { wanted };
    same_bytes(line, added, wanted.as_bytes())?;
    Ok(tried)
}

// Asks a session for its breakpoints: those after a line, or where it was refused memory maybe those before it.
fn ask_breaks<A: Allocator + Copy>(
    alloc: A,
    debugger: &mut Debugger<'_, A>,
    after: &str,
    refused: bool,
) -> Result<(), Fail> {
    let mut text = Vec::new(alloc);
    answer_line(alloc, &mut text, debugger, b"breaks")?;
    if refused
        && text
            .strip_prefix(BREAKS.as_bytes())
            .is_some_and(|rest| rest.is_empty())
    {
        return Ok(());
    }
    same_bytes("the breakpoints", &text, after.as_bytes())
}

// Passes a line under a refusal to a session at position 5, which has a breakpoint. Then the session goes on to list
// its breakpoints, and to show the day.
fn line_under<A: Allocator + Copy>(
    heap: &Refusing<Global>,
    alloc: A,
    debugger: &mut Debugger<'_, A>,
    line: &str,
    wanted: &str,
    after: &str,
    refusal: Refusal,
) -> Result<Tried, Fail> {
    answer(alloc, debugger, "break time 3", "break 1\n")?;
    answer(alloc, debugger, "goto 5", "at 5 applied\n")?;
    let tried = answer_under(heap, alloc, debugger, line, wanted, refusal)?;
    ask_breaks(alloc, debugger, after, tried.refused)?;
    answer(alloc, debugger, "goto 5", "at 5 applied\n")?;
    Ok(tried)
}

// Passes the line to a new session.
fn try_line<A: Allocator + Copy>(
    heap: &Refusing<Global>,
    alloc: A,
    line: &str,
    wanted: &str,
    after: &str,
    refusal: Refusal,
) -> Result<Tried, Fail> {
    let day = day_in(alloc, TRADED)?;
    let mut debugger = Debugger::new(alloc, &day, 1)?;
    line_under(heap, alloc, &mut debugger, line, wanted, after, refusal)
}

#[test]
fn a_line_without_memory_is_an_error_and_the_next_one_is_answered(
    rt: HostRuntime,
) -> Result<(), Fail> {
    let heap = Refusing::new(rt.alloc(), Refusal::Never);
    for (line, wanted, after) in [
        ("goto 2", "at 2 applied\n", BREAKS),
        ("step", "at 6 applied\n", BREAKS),
        ("back", "at 4 applied\n", BREAKS),
        ("onward", "at 7 applied no break\n", BREAKS),
        ("rearward", "at 4 applied break 1\n", BREAKS),
        (
            "break price 1 B 1500000",
            "break 2\n",
            "1 time 3\n2 price 1 B 1500000\n",
        ),
        ("breaks", BREAKS, BREAKS),
        ("remove 1", "removed\n", "no breaks\n"),
        ("event", "event none\n", BREAKS),
        ("show 2", "no stock 2\n", BREAKS),
    ] {
        refuse_each(|refusal: Refusal| -> Result<Tried, Fail> {
            try_line(&heap, &heap, line, wanted, after, refusal)
        })?;
    }
    Ok(())
}
