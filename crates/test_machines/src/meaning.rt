//! A second reading of one line of a text, by docs/FORMATS.md, "Texts", which shares nothing with the assembler:
//! whether two lines mean the same, and the bytes of a `raw` line.
use std::alloc::{AllocError, Allocator};
use std::test::Fail;

/// The words of a line; a comment has none. Line feeds separate words too, since a changed byte may cut a line in two
/// or join two.
pub fn words_of<A: Allocator>(alloc: A, line: &[u8]) -> Result<Vec<&[u8], A>, AllocError> {
    let line = line.strip_suffix(b"\n").unwrap_or(line);
    let mut words: Vec<&[u8], A> = Vec::new(alloc);
    let mut quoted = false;
    let parts = line.split(|byte: &u8| -> bool {
        quoted ^= *byte == b'"';
        (*byte == b' ' || *byte == b'\n') && !quoted
    });
    for part in parts {
        if words.is_empty() && part.first() == Some(&b'#') {
            break;
        }
        if !part.is_empty() {
            words.push(part)?;
        }
    }
    Ok(words)
}

// The number that a hexadecimal digit is.
fn digit(byte: u8) -> Option<u8> {
    match byte {
        b'0'..=b'9' => Some(byte - b'0'),
        b'a'..=b'f' => Some(byte - b'a' + 10),
        b'A'..=b'F' => Some(byte - b'A' + 10),
        _ => None,
    }
}

// Adds the bytes that hexadecimal digits stand for, two digits each.
fn put_digits<A: Allocator>(bytes: &mut Vec<u8, A>, digits: &[u8]) -> Result<(), Fail> {
    for pair in digits.chunks(2) {
        match pair {
            [high, low] => match (digit(*high), digit(*low)) {
                (Some(high), Some(low)) => bytes.push(high.wrapping_mul(16) | low)?,
                _ => return Err(Fail::new("no digit")),
            },
            _ => return Err(Fail::new("an odd number of digits")),
        }
    }
    Ok(())
}

// Adds the byte of an escape, and the bytes that follow it: `part` is what stands after the backslash.
fn put_escaped<A: Allocator>(bytes: &mut Vec<u8, A>, part: &[u8]) -> Result<(), Fail> {
    match part {
        [b'x', high, low, rest @ ..] => {
            put_digits(bytes, &[*high, *low])?;
            Ok(bytes.extend_from_slice(rest)?)
        }
        _ => Err(Fail::new("no escape")),
    }
}

// The bytes that stand between quotes, without the spaces that pad them.
fn text_of<A: Allocator>(alloc: A, quoted: &[u8]) -> Result<Vec<u8, A>, Fail> {
    let mut bytes = Vec::new(alloc);
    for (number, part) in quoted.split(|byte| *byte == b'\\').enumerate() {
        if number == 0 {
            bytes.extend_from_slice(part)?;
        } else {
            put_escaped(&mut bytes, part)?;
        }
    }
    let last = bytes.iter().rposition(|byte| *byte != b' ');
    bytes.truncate(last.map_or(0, |index: usize| -> usize { index.saturating_add(1) }));
    Ok(bytes)
}

// What stands between the quotes of a value.
fn unquoted(value: &[u8]) -> Option<&[u8]> {
    value.strip_prefix(b"\"")?.strip_suffix(b"\"")
}

// The digits of a number without the zeros before the others.
fn significant(digits: &[u8]) -> &[u8] {
    match digits.iter().position(|digit| *digit != b'0') {
        Some(index) => digits.get(index..).unwrap_or(digits),
        None if digits.is_empty() => digits,
        None => b"0",
    }
}

// Whether two values are the same number or the same text.
fn same_value<A: Allocator + Copy>(alloc: A, one: &[u8], other: &[u8]) -> Result<bool, Fail> {
    match (unquoted(one), unquoted(other)) {
        (Some(one), Some(other)) => {
            let text = text_of(alloc, one)?;
            Ok(text.as_slice() == text_of(alloc, other)?.as_slice())
        }
        (None, None) => Ok(significant(one) == significant(other)),
        _ => Ok(false),
    }
}

// The name of a field, and its value.
fn split_field(word: &[u8]) -> Option<(&[u8], &[u8])> {
    let index = word.iter().position(|byte| *byte == b'=')?;
    Some((word.get(..index)?, word.get(index.saturating_add(1)..)?))
}

// Whether two words that may follow the first of a line are the same field, or the same digits.
fn same_word<A: Allocator + Copy>(alloc: A, one: &[u8], other: &[u8]) -> Result<bool, Fail> {
    match (split_field(one), split_field(other)) {
        (Some((name, value)), Some((other_name, other_value))) => {
            Ok(name == other_name && same_value(alloc, value, other_value)?)
        }
        (None, None) => Ok(one.eq_ignore_ascii_case(other)),
        _ => Ok(false),
    }
}

/// Whether two lines mean the same: their first words are the same, and of the others each is the same field or the
/// same digits. Blank lines and comments mean nothing, and so the same.
pub fn mean_same<A: Allocator + Copy>(alloc: A, one: &[u8], other: &[u8]) -> Result<bool, Fail> {
    let words = words_of(alloc, one)?;
    let others = words_of(alloc, other)?;
    let mut same = words.len() == others.len() && words.first() == others.first();
    for (word, other) in words.iter().zip(&others) {
        same &= same_word(alloc, word, other)?;
    }
    Ok(same)
}

/// The bytes of a line of `raw`, and `None` of any other line.
pub fn raw_bytes<A: Allocator + Copy>(alloc: A, line: &[u8]) -> Result<Option<Vec<u8, A>>, Fail> {
    let words = words_of(alloc, line)?;
    match words.as_slice() {
        [b"raw", digits] => {
            let mut bytes = Vec::new(alloc);
            put_digits(&mut bytes, digits)?;
            Ok(Some(bytes))
        }
        _ => Ok(None),
    }
}
