//! A whole file as text.
ghost use Rattle.std.specs.Prelude.{◌≡◌, IfOk};
ghost use Rattle.byte_strings.specs.Extending.{Extends};
ghost use Rattle.binaryfile.specs.Entries.{bytes_of};
ghost use Rattle.itch_text.specs.Text.{Text};
ghost use Rattle.itch_print.specs.Disassembly.{lines_between, text_of};

use crate::lines::{put_end, put_payload};
use binaryfile::Day;
use std::alloc::{AllocError, Allocator};

// Adds a line for each payload in order, and the lines of the file's end.
#[tactic(auto, unfolding(crate::specs::Disassembly::text_of))]
fn put_day<A: Allocator>(text: &mut Vec<u8, A>, day: &Day<A>) -> Result<(), AllocError>
    ensures { Extends text.old text.new (text_of day.now) result }
{
    for payload in day.payloads() {
        put_payload(text, payload)?;
    }
    put_end(text, day.marked(), day.tail())
}

/// The text of a file: a line for each payload in order, and then its end. Its memory is that of `alloc`.
///
/// A payload whose type has a layout, and which has its size, is written as a message, by the mnemonic and `name=value`
/// for each field; any other as `raw` and hexadecimal digits. Where the file is marked, `end` follows, and `rest` with
/// the bytes after the marker where there are any; else `cut` with what is less than a whole entry, where there is
/// something. The day is unchanged.
///
/// ```text
/// // The bytes are b"\0\x0cS\0\0\0\0\0\0\0\0\0\0O\0\0".
/// let day = Day::from_bytes(Global, bytes, 1)?;
/// let text = disassemble(Global, &day)?;
/// assert_eq!(text, b"system locate=0 tracking=0 time=0 event=\"O\"\nend\n");
/// ```
pub fn disassemble<A: Allocator + Copy>(alloc: A, day: &Day<A>) -> Result<Vec<u8, A>, AllocError>
    ensures text { IfOk result (λ text. text.items ≡ text_of day.now) }
    // The text denotes the very bytes that were loaded.
    ensures denotes { IfOk result (λ text. Text text.items (bytes_of day.now)) }
{
    // A text is never shorter than its file.
    let mut text = Vec::with_capacity(alloc, day.bytes().len())?;
    put_day(&mut text, day)?;
    Ok(text)
}

// Adds the lines of the messages from one number to another.
#[tactic(auto, unfolding(crate::specs::Disassembly::lines_between))]
fn put_between<A: Allocator>(
    text: &mut Vec<u8, A>,
    day: &Day<A>,
    first: u32,
    last: u32,
) -> Result<(), AllocError>
    ensures { Extends text.old text.new (lines_between day.now first last) result }
{
    for index in first.saturating_sub(1)..last.min(day.len()) {
        put_payload(text, day.payload(index + 1))?;
    }
    Ok(())
}

/// The lines of a file's messages from number `first` to number `last`, counted from 1, as [`disassemble`] writes them:
/// line n of that text is message n. A number beyond the last message has no line. The memory is that of these lines,
/// and is `alloc`'s.
///
/// The day is unchanged.
pub fn disassemble_between<A: Allocator + Copy>(
    alloc: A,
    day: &Day<A>,
    first: u32,
    last: u32,
) -> Result<Vec<u8, A>, AllocError>
    ensures { IfOk result (λ text. text.items ≡ lines_between day.now first last) }
{
    let mut text = Vec::new(alloc);
    put_between(&mut text, day, first, last)?;
    Ok(text)
}
