//! The quoted form of fields of text.
ghost use Rattle.std.specs.Prelude.{◌≡◌, IfOk, OnErr};
ghost use Rattle.byte_strings.specs.Extending.{Extends};
ghost use Rattle.text_fields.specs.Prefixes.{IsPrefix};
ghost use Rattle.text_fields.specs.Quoted.{escaped, unpadded, quoted, quoted_byte};

use crate::hex_digits::digits_of;
use itch_text::denotes_itself;
use std::alloc::{AllocError, Allocator};

// Adds a byte as it stands between quotes.
#[tactic(auto, using(crate::proofs::Prefixes::prefixes))]
fn put_escaped<A: Allocator>(text: &mut Vec<u8, A>, byte: u8) -> Result<(), AllocError>
    ensures ok { Extends text.old text.new (escaped byte) result }
    ensures err { OnErr result (IsPrefix text.old.items text.new.items) }
{
    if denotes_itself(byte) {
        text.push(byte)?;
        return Ok(());
    }
    let [high, low] = digits_of(byte);
    text.extend_from_slice(&[b'\\', b'x', high, low])
}

// The bytes without the spaces that pad them on the right.
#[tactic(auto, using(crate::proofs::Padding::padding_lemmas))]
fn unpadded(field: &[u8]) -> &[u8]
    ensures { result.now ≡ unpadded field.now }
{
    let mut rest = field;
    while let Some((last, prefix)) = rest.split_last() {
        if *last != b' ' {
            break;
        }
        rest = prefix;
    }
    rest
}

// Adds a field of text between quotes. After an error a part of this may have been added.
#[tactic(auto, using(crate::proofs::Prefixes::prefixes))]
fn add_quoted<A: Allocator>(text: &mut Vec<u8, A>, field: &[u8]) -> Result<(), AllocError>
    ensures ok { Extends text.old text.new (quoted field.now) result }
    ensures err { OnErr result (IsPrefix text.old.items text.new.items) }
{
    text.push(b'"')?;
    let kept = unpadded(field);
    for byte in kept {
        put_escaped(text, *byte)?;
    }
    text.push(b'"')?;
    Ok(())
}

/// Adds a field of text between quotes, without the spaces that pad it on the right.
///
/// A byte from the space to the tilde that is neither the quote nor the backslash denotes itself, any other is written
/// `\x` and its two hexadecimal digits in lower case; a field of spaces alone is `""`.
/// An error leaves the text as it was.
pub fn put_quoted<A: Allocator>(text: &mut Vec<u8, A>, field: &[u8]) -> Result<(), AllocError>
    ensures ok { Extends text.old text.new (quoted field.now) result }
    ensures err { OnErr result (text.new.items ≡ text.old.items) }
{
    let length = text.len();
    let added = add_quoted(text, field);
    if added.is_err() {
        text.truncate(length);
    }
    added
}

/// Adds a byte between quotes, or `none` where there is none, as reports have it. An error leaves the text as it was.
pub fn put_quoted_byte<A: Allocator>(
    text: &mut Vec<u8, A>,
    byte: Option<u8>,
) -> Result<(), AllocError>
    ensures ok { Extends text.old text.new (quoted_byte byte) result }
    ensures err { OnErr result (text.new.items ≡ text.old.items) }
{
    match byte {
        Some(byte) => put_quoted(text, &[byte]),
        None => text.extend_from_slice(b"none"),
    }
}

/// A field of text between quotes, as [`put_quoted`] adds it. Its memory is that of `alloc`.
///
/// ```text
/// assert_eq!(quote(Global, b"AAPL    ")?, b"\"AAPL\"");
/// assert_eq!(quote(Global, b"A\\B \n   ")?, b"\"A\\x5cB \\x0a\"");
/// ```
pub fn quote<A: Allocator + Copy>(alloc: A, field: &[u8]) -> Result<Vec<u8, A>, AllocError>
    ensures { IfOk result (λ text. text.items ≡ quoted field.now) }
{
    let mut text = Vec::new(alloc);
    put_quoted(&mut text, field)?;
    Ok(text)
}
