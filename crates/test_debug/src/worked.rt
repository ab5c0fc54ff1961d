//! Days by their texts, and sessions that are led through lines.
ghost use Rattle.std.specs.Prelude.{◌<◌};

use binaryfile::Day;
use debugger::Debugger;
use itch_debug::{Next, answer_line};
use itch_text::assemble;
use std::alloc::{AllocError, Allocator};
use std::test::Fail;
use test_support::{day_of, same, same_bytes};

/// An order that is executed, a halt, another execution, a broken trade and a delete.
pub const TRADED: &str =
    "directory locate=1 tracking=0 time=0 stock=\"AAPL\" category=\"Q\" status=\"N\" lot=100 lots_only=\"N\" issue_class=\"C\" issue_subtype=\"Z\" authenticity=\"P\" short_sale=\"N\" ipo=\"N\" luld=\"1\" etp=\"N\" leverage=0 inverse=\"N\"\n\
     add locate=1 tracking=0 time=1 reference=1 side=\"B\" shares=100 stock=\"AAPL\" price=1500000\n\
     execute locate=1 tracking=0 time=2 reference=1 shares=40 match_no=9\n\
     trading locate=1 tracking=0 time=3 stock=\"AAPL\" state=\"H\" reserved=\"\" reason=\"T1\"\n\
     execute locate=1 tracking=0 time=4 reference=1 shares=10 match_no=10\n\
     broken locate=1 tracking=0 time=5 match_no=9\n\
     delete locate=1 tracking=0 time=6 reference=1\n";

/// An order that is replaced under its own reference, which is refused, and under another one.
pub const REPLACED: &str =
    "directory locate=1 tracking=0 time=0 stock=\"AAPL\" category=\"Q\" status=\"N\" lot=100 lots_only=\"N\" issue_class=\"C\" issue_subtype=\"Z\" authenticity=\"P\" short_sale=\"N\" ipo=\"N\" luld=\"1\" etp=\"N\" leverage=0 inverse=\"N\"\n\
     add locate=1 tracking=0 time=1 reference=1 side=\"B\" shares=100 stock=\"AAPL\" price=1500000\n\
     replace locate=1 tracking=0 time=2 reference=1 new_reference=1 shares=50 price=1490000\n\
     replace locate=1 tracking=0 time=3 reference=1 new_reference=2 shares=50 price=1490000\n";

/// References that are asked for again, after their orders have gone.
pub const SPENT: &str =
    "directory locate=1 tracking=0 time=0 stock=\"AAPL\" category=\"Q\" status=\"N\" lot=100 lots_only=\"N\" issue_class=\"C\" issue_subtype=\"Z\" authenticity=\"P\" short_sale=\"N\" ipo=\"N\" luld=\"1\" etp=\"N\" leverage=0 inverse=\"N\"\n\
     add locate=1 tracking=0 time=1 reference=1 side=\"B\" shares=100 stock=\"AAPL\" price=1500000\n\
     replace locate=1 tracking=0 time=2 reference=1 new_reference=1 shares=50 price=1490000\n\
     replace locate=1 tracking=0 time=3 reference=1 new_reference=2 shares=50 price=1490000\n\
     add locate=1 tracking=0 time=4 reference=1 side=\"B\" shares=10 stock=\"AAPL\" price=100\n\
     add locate=1 tracking=0 time=5 reference=2 side=\"B\" shares=10 stock=\"AAPL\" price=100\n\
     replace locate=1 tracking=0 time=6 reference=2 new_reference=1 shares=0 price=100\n\
     add locate=1 tracking=0 time=7 reference=1 side=\"B\" shares=0 stock=\"AAPL\" price=100\n\
     replace locate=1 tracking=0 time=8 reference=2 new_reference=3 shares=0 price=100\n\
     replace locate=1 tracking=0 time=9 reference=2 new_reference=3 shares=10 price=1490000\n\
     add locate=1 tracking=0 time=10 reference=2 side=\"B\" shares=10 stock=\"AAPL\" price=100\n\
     directory locate=2 tracking=0 time=11 stock=\"MSFT\" category=\"Q\" status=\"N\" lot=100 lots_only=\"N\" issue_class=\"C\" issue_subtype=\"Z\" authenticity=\"P\" short_sale=\"N\" ipo=\"N\" luld=\"1\" etp=\"N\" leverage=0 inverse=\"N\"\n\
     add locate=2 tracking=0 time=12 reference=1 side=\"B\" shares=10 stock=\"MSFT\" price=100\n\
     trade locate=1 tracking=0 time=13 reference=4 side=\"B\" shares=1 stock=\"AAPL\" price=100 match_no=8\n\
     add locate=1 tracking=0 time=14 reference=4 side=\"B\" shares=10 stock=\"AAPL\" price=100\n";

/// Four events at times 10, 30, 20 and 40.
pub const EVENTS: &str = "system locate=0 tracking=0 time=10 event=\"O\"\n\
     system locate=0 tracking=0 time=30 event=\"S\"\n\
     system locate=0 tracking=0 time=20 event=\"Q\"\n\
     system locate=0 tracking=0 time=40 event=\"M\"\n";

/// The day of a text.
pub fn day_in<A: Allocator + Copy>(alloc: A, text: &str) -> Result<Day<A>, Fail> {
    match assemble(alloc, text.as_bytes()) {
        Ok(file) => day_of(alloc, file),
        Err(_) => Err(Fail::new("no file")),
    }
}

// Passes these lines to a session, and compares all answers with these.
fn answer_lines<A: Allocator + Copy>(
    alloc: A,
    debugger: &mut Debugger<'_, A>,
    lines: &str,
    wanted: &str,
) -> Result<(), Fail> {
    let mut answers = Vec::new(alloc);
    for line in lines.as_bytes().split(|byte| *byte == b'\n') {
        let next = answer_line(alloc, &mut answers, debugger, line)?;
        same("a line that isn't `quit`", &next, &Next::Going)?;
    }
    same_bytes("the answers", &answers, wanted.as_bytes())
}

/// Passes these lines, each of which ends with a line feed, to a new session of a day, and compares all answers with
/// these.
pub fn follow<A: Allocator + Copy>(
    alloc: A,
    text: &str,
    every: u32,
    lines: &str,
    wanted: &str,
) -> Result<(), Fail>
    requires { 0 < every }
{
    let day = day_in(alloc, text)?;
    answer_lines(
        alloc,
        &mut Debugger::new(alloc, &day, every)?,
        lines,
        wanted,
    )
}

/// Adds spaces and a command, a line of this many bytes without the line feed that may end it.
pub fn add_line<A: Allocator>(
    lines: &mut Vec<u8, A>,
    length: usize,
    command: &[u8],
) -> Result<(), AllocError> {
    let words = command.strip_suffix(b"\n").unwrap_or(command);
    for _ in words.len()..length {
        lines.push(b' ')?;
    }
    lines.extend_from_slice(command)
}
