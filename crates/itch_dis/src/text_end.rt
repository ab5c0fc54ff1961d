//! The end of a file's text, while the file is read.
ghost use Rattle.std.specs.Prelude.{◌≡◌};
ghost use Rattle.byte_strings.specs.Extending.{Extends};
ghost use Rattle.hex.specs.Hex.{encode_lower};
ghost use Rattle.itch_dis.specs.TextEnds.{added_by, closing_lines, rest_so_far, text_end_after};

use std::alloc::{AllocError, Allocator};

/// How far the end of a file's text was written.
#[derive(Debug, Clone, Copy, PartialEq, Eq)]
pub(crate) enum TextEnd {
    /// Nothing of it, since no end marker has come.
    Open,
    /// The line of the end marker.
    Marked,
    /// Digits of bytes after the marker too. More of them may come, so their line is not ended.
    Rest,
}

impl TextEnd {
    /// How far it is with a segment more, which has an end marker or none, and this tail.
    pub fn after(self, marked: bool, tail: &[u8]) -> TextEnd
        ensures { result ≡ text_end_after self marked tail.now }
    {
        match self {
            TextEnd::Rest => TextEnd::Rest,
            TextEnd::Open if !marked => TextEnd::Open,
            _ if tail.is_empty() => TextEnd::Marked,
            _ => TextEnd::Rest,
        }
    }
}

// Adds bytes in hexadecimal digits of lower case.
fn put_digits<A: Allocator + Copy>(
    alloc: A,
    text: &mut Vec<u8, A>,
    bytes: &[u8],
) -> Result<(), AllocError>
    ensures { Extends text.old text.new (encode_lower bytes.now) result }
{
    let digits = hex::encode(alloc, bytes)?;
    text.extend_from_slice(digits.as_bytes())
}

// Adds the beginning of the line of the bytes after an end marker, where there are any.
fn put_rest<A: Allocator + Copy>(
    alloc: A,
    text: &mut Vec<u8, A>,
    bytes: &[u8],
) -> Result<(), AllocError>
    ensures { Extends text.old text.new (rest_so_far bytes.now) result }
{
    if bytes.is_empty() {
        return Ok(());
    }
    text.extend_from_slice(b"rest ")?;
    put_digits(alloc, text, bytes)
}

/// Adds what a segment, which has an end marker or none and this tail, adds to an end that was written so far.
pub(crate) fn put_end<A: Allocator + Copy>(
    alloc: A,
    text: &mut Vec<u8, A>,
    end: TextEnd,
    marked: bool,
    tail: &[u8],
) -> Result<(), AllocError>
    ensures { Extends text.old text.new (added_by end marked tail.now) result }
{
    match end {
        TextEnd::Rest => put_digits(alloc, text, tail),
        TextEnd::Marked => put_rest(alloc, text, tail),
        TextEnd::Open if marked => {
            text.extend_from_slice(b"end\n")?;
            put_rest(alloc, text, tail)
        }
        TextEnd::Open => Ok(()),
    }
}

/// Adds what comes after all segments: the line of what is less than a whole entry, or the end of a line of digits.
pub(crate) fn put_closing<A: Allocator + Copy>(
    alloc: A,
    text: &mut Vec<u8, A>,
    end: TextEnd,
    cut: &[u8],
) -> Result<(), AllocError>
    ensures { Extends text.old text.new (closing_lines end cut.now) result }
{
    match end {
        TextEnd::Rest => text.extend_from_slice(b"\n"),
        TextEnd::Open if !cut.is_empty() => {
            text.extend_from_slice(b"cut ")?;
            put_digits(alloc, text, cut)?;
            text.extend_from_slice(b"\n")
        }
        _ => Ok(()),
    }
}
