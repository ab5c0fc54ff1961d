//! Lines of hexadecimal digits.
ghost use Rattle.std.specs.Prelude.{◌≡◌};
ghost use Rattle.itch_text.specs.Words.{words};
ghost use Rattle.itch_text.specs.Faults.{CutName, RawName, RestName};
ghost use Rattle.itch_text.specs.Parsing.{bytes_in, hex_in, is_partial, named_bytes};
ghost use Rattle.itch_text.specs.Fields.{Puts};

use crate::fault::{LineError, LineFault};
use crate::words::only_word;
use std::alloc::Allocator;

// Appends the bytes of the hexadecimal digits of a word, at least one.
fn put_digits<A: Allocator>(out: &mut Vec<u8, A>, digits: &[u8]) -> Result<(), LineError>
    ensures { Puts out.old.items out.new.items (bytes_in digits.now) result }
{
    if digits.is_empty() || digits.len() % 2 != 0 {
        return Err(LineError::Wrong(LineFault::Field));
    }
    let start = out.len();
    out.resize(start + digits.len() / 2, 0)?;
    let bytes = out.as_mut_slice();
    match hex::decode_to_slice(digits, &mut bytes[start..]) {
        Ok(()) => Ok(()),
        Err(_) => Err(LineError::Wrong(LineFault::Field)),
    }
}

// Appends the bytes of the one word of a line, hexadecimal digits of at least one byte.
fn put_bytes<A: Allocator>(out: &mut Vec<u8, A>, line: &[u8]) -> Result<(), LineError>
    ensures { Puts out.old.items out.new.items (hex_in (words line.now)) result }
{
    match only_word(line) {
        Some(digits) => put_digits(out, digits),
        None => Err(LineError::Wrong(LineFault::Field)),
    }
}

// Whether bytes are less than a whole entry.
fn is_partial(bytes: &[u8]) -> bool
    ensures { result ≡ is_partial bytes.now }
{
    match bytes {
        [high, low, rest @ ..] => rest.len() < usize::from(u16::from_be_bytes([*high, *low])),
        _ => true,
    }
}

/// Appends the entry of a line of `raw`, whose words after the name are these.
pub(crate) fn put_raw<A: Allocator>(out: &mut Vec<u8, A>, line: &[u8]) -> Result<(), LineError>
    ensures { Puts out.old.items out.new.items (named_bytes RawName (words line.now)) result }
{
    let Some(digits) = only_word(line) else {
        return Err(LineError::Wrong(LineFault::Field));
    };
    let Ok(size) = u16::try_from(digits.len() / 2) else {
        return Err(LineError::Wrong(LineFault::Field));
    };
    out.extend_from_slice(&size.to_be_bytes())?;
    put_digits(out, digits)
}

/// Appends the bytes of a line of `cut`, whose words after the name are these.
pub(crate) fn put_cut<A: Allocator>(out: &mut Vec<u8, A>, line: &[u8]) -> Result<(), LineError>
    ensures { Puts out.old.items out.new.items (named_bytes CutName (words line.now)) result }
{
    let start = out.len();
    put_bytes(out, line)?;
    if is_partial(&out[start..]) {
        Ok(())
    } else {
        Err(LineError::Wrong(LineFault::Field))
    }
}

/// Appends the bytes of a line of `rest`, whose words after the name are these.
pub(crate) fn put_rest<A: Allocator>(out: &mut Vec<u8, A>, line: &[u8]) -> Result<(), LineError>
    ensures { Puts out.old.items out.new.items (named_bytes RestName (words line.now)) result }
{
    put_bytes(out, line)
}
