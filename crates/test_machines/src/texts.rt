//! The text of a day, and that text with one byte changed.
use crate::blaming::fault_at;
use crate::meaning::{mean_same, raw_bytes};
use binaryfile::Day;
use itch_print::disassemble;
use itch_text::{AsmFault, assemble};
use rand::RngExt;
use rand::rngs::SmallRng;
use std::alloc::Allocator;
use std::test::Fail;
use test_support::{day_of, same, same_bytes};

// Where the line begins that has the byte at an index.
fn line_start(text: &[u8], index: usize) -> usize {
    match text.iter().take(index).rposition(|byte| *byte == b'\n') {
        Some(before) => before.saturating_add(1),
        None => 0,
    }
}

// Where the lines begin that follow the one that has the byte at an index.
fn next_line(text: &[u8], index: usize) -> usize {
    match text.iter().skip(index).position(|byte| *byte == b'\n') {
        Some(offset) => index.saturating_add(offset).saturating_add(1),
        None => text.len(),
    }
}

// How many lines these bytes end.
fn line_feeds(bytes: &[u8]) -> usize {
    let mut lines = 0usize;
    for byte in bytes {
        if *byte == b'\n' {
            lines = lines.saturating_add(1);
        }
    }
    lines
}

// A text with one byte changed: the lines before that byte's, its line, and the lines after it.
#[derive(Clone, Copy)]
struct Changed<'a> {
    before: &'a [u8],
    line: &'a [u8],
    after: &'a [u8],
}

impl<'a> Changed<'a> {
    // A text whose byte at an index was changed.
    fn at(text: &'a [u8], index: usize) -> Option<Changed<'a>> {
        let start = line_start(text, index);
        let end = next_line(text, index.saturating_add(1));
        Some(Changed {
            before: text.get(..start)?,
            line: text.get(start..end)?,
            after: text.get(end..)?,
        })
    }

    // How many lines are before the changed one.
    fn lines_before(&self) -> usize {
        line_feeds(self.before)
    }

    // The number of the changed line, counted from 1: of the second one where the byte became a line feed.
    fn last_line(&self) -> usize {
        let lines = line_feeds(self.line).max(1);
        self.lines_before().saturating_add(lines)
    }
}

// The line that a fault names, 0 where memory was refused.
fn line_of(fault: AsmFault) -> u64 {
    match fault {
        AsmFault::Mnemonic(line) | AsmFault::Field(line) | AsmFault::AfterEnd(line) => line,
        AsmFault::Memory => 0,
    }
}

// What a changed line denotes: the payload with its number where it is a line of `raw`, which may be that of a message,
// and else what the line means that is written for it.
fn compare_meaning<A: Allocator + Copy>(
    alloc: A,
    day: &Day<A>,
    changed: Changed<'_>,
    written: &[u8],
) -> Result<(), Fail> {
    match raw_bytes(alloc, changed.line)? {
        Some(bytes) => {
            let payload = day.payloads().nth(changed.lines_before());
            same_bytes("a changed payload", payload.unwrap_or(b""), &bytes)
        }
        None => same(
            "whether a changed line means what is written for it",
            &mean_same(alloc, changed.line, written)?,
            &true,
        ),
    }
}

// A file that was made of a text with a changed byte. Its own text has the other lines as they were, and for that
// byte's line one that means the same; and it is the file that it was exactly where the line means what it did.
fn compare_changed<A: Allocator + Copy>(
    alloc: A,
    file: Vec<u8, A>,
    changed: Changed<'_>,
    was: (&[u8], &[u8]),
) -> Result<(), Fail> {
    let (file_was, line_was) = was;
    let is_as_it_was = file.as_slice() == file_was;
    let day = day_of(alloc, file)?;
    let text = disassemble(alloc, &day)?;
    let Some(written) = between(&text, changed.before, changed.after) else {
        return Err(Fail::new("a changed byte changes lines that it isn't in"));
    };
    compare_meaning(alloc, &day, changed, written)?;
    same(
        "whether a changed line means what it did",
        &mean_same(alloc, changed.line, line_was)?,
        &is_as_it_was,
    )
}

// What stands between the first bytes of a text and the last ones.
fn between<'a>(text: &'a [u8], before: &[u8], after: &[u8]) -> Option<&'a [u8]> {
    text.strip_prefix(before)?.strip_suffix(after)
}

// The fault of a text with a changed byte. No earlier line than that byte's is faulty, a later one is as it was and so
// can be faulty only by where it stands, and the kind of the fault is that of a second reading.
fn compare_fault<A: Allocator + Copy>(
    alloc: A,
    text: &[u8],
    changed: Changed<'_>,
    fault: AsmFault,
) -> Result<(), Fail> {
    let line = line_of(fault);
    if line <= changed.lines_before() as u64 {
        return Err(Fail::new("a changed byte makes an earlier line faulty, or memory was refused"));
    }
    let wanted = fault_at(alloc, text, line)?;
    same("the fault of a changed text", &fault, &wanted)?;
    if line > changed.last_line() as u64 && wanted != AsmFault::AfterEnd(line) {
        return Err(Fail::new("a changed byte makes the words of a later line faulty"));
    }
    Ok(())
}

// Assembles the text of a day whose byte at an index was changed, and returns whether it denotes a file.
fn take_changed<A: Allocator + Copy>(
    alloc: A,
    day: &Day<A>,
    text: &[u8],
    other: &[u8],
    index: usize,
) -> Result<bool, Fail> {
    let (Some(was), Some(changed)) = (Changed::at(text, index), Changed::at(other, index)) else {
        return Err(Fail::new("no line"));
    };
    match assemble(alloc, other) {
        Ok(file) => {
            compare_changed(alloc, file, changed, (day.bytes(), was.line))?;
            Ok(true)
        }
        Err(fault) => {
            compare_fault(alloc, other, changed, fault)?;
            Ok(false)
        }
    }
}

// Another byte than it was: one from the space to `z`, or any.
fn other_byte(random: &mut SmallRng, was: u8) -> u8 {
    let byte = if random.random_ratio(1, 2) {
        random.random_range(b' '..=b'z')
    } else {
        random.random_range(0..=u8::MAX)
    };
    if byte == was { was ^ 1 } else { byte }
}

/// Assembles the text of a day, which gives its bytes, and then that text with one byte changed, this many times: it
/// denotes a file that differs by what that byte's line means, or that line or a later one is faulty, and its fault is
/// of the kind that a second reading says. Returns how many denote a file.
pub fn compare_texts<A: Allocator + Copy>(
    alloc: A,
    day: &Day<A>,
    random: &mut SmallRng,
    changes: u32,
) -> Result<u64, Fail> {
    let text = disassemble(alloc, day)?;
    let Ok(file) = assemble(alloc, &text) else {
        return Err(Fail::new("the text of a day is faulty"));
    };
    same_bytes("the file of a text", &file, day.bytes())?;
    let mut assembled = 0u64;
    for _ in 0..changes {
        let mut other = text.to_vec(alloc)?;
        let index = random.random_range(0..=text.len().saturating_sub(1));
        let Some(byte) = other.get_mut(index) else {
            continue;
        };
        *byte = other_byte(random, *byte);
        if take_changed(alloc, day, &text, &other, index)? {
            assembled = assembled.saturating_add(1);
        }
    }
    Ok(assembled)
}
