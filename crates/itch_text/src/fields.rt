//! The fields of a message's line.
ghost use Rattle.std.specs.Prelude.{◌≡◌, ◌≤◌, map, option_map, IfSome, IsTrue};
ghost use Rattle.std.specs.List.{list_all};
ghost use Rattle.byte_strings.specs.Extending.{Extends};
ghost use Rattle.itch_layouts.specs.Encoding.{encoded};
ghost use Rattle.itch_layouts.specs.Soundness.{is_sound_field, is_width};
ghost use Rattle.itch_layouts.specs.StaticFields.{as_field, as_form};
ghost use Rattle.itch_text.specs.Words.{words};
ghost use Rattle.itch_text.specs.Parsing.{after_prefix, field_in, value_in};
ghost use Rattle.itch_text.specs.Fields.{Fills, Puts, PutsFields, as_value, field_bytes};

use crate::fault::{LineError, LineFault};
use crate::numbers::number;
use crate::quoted::quoted;
use crate::words::split_word;
use itch_layouts::{Field, Form};
use std::alloc::{AllocError, Allocator};

/// What stands in a field.
#[derive(Clone, Copy)]
pub(crate) enum ParsedValue {
    /// A number.
    Number(u64),
    /// Text, filled up with spaces.
    Text([u8; 8]),
}

// What follows a prefix, or `None` where the text doesn't begin with it.
fn after_prefix<'a>(prefix: &[u8], text: &'a [u8]) -> Option<&'a [u8]>
    ensures { option_map (λ rest. rest.now) result ≡ after_prefix prefix.now text.now }
{
    text.strip_prefix(prefix)
}

// The value of a text in a field.
fn read_value(field: &Field, text: &[u8]) -> Option<ParsedValue>
    requires { IsTrue (is_width (as_form field.now.form) field.now.width) }
    ensures value { option_map (as_value field.now.width) result
        ≡ value_in (as_form field.now.form) field.now.width text.now }
    ensures fills { IfSome result (λ value. Fills field.now.width (as_value field.now.width value)) }
{
    match field.form {
        Form::Integer => number(text, field.width).map(ParsedValue::Number),
        Form::Alpha => quoted(text, field.width).map(ParsedValue::Text),
    }
}

// The value of a word in a field: the field's name, `=`, and the text of the value.
#[tactic(auto, using(crate::proofs::AfterPrefixes::naming))]
fn read_field(field: &Field, word: &[u8]) -> Option<ParsedValue>
    requires { IsTrue (is_sound_field (as_field field.now)) }
    ensures value { option_map (as_value field.now.width) result ≡ field_in (as_field field.now) word.now }
    ensures fills { IfSome result (λ value. Fills field.now.width (as_value field.now.width value)) }
{
    let named = after_prefix(field.name, word)?;
    let text = after_prefix(b"=", named)?;
    read_value(field, text)
}

// Appends the bytes of a value in a field of this width.
#[tactic(auto, using(crate::proofs::FieldBytes::digits))]
fn put_value<A: Allocator>(
    out: &mut Vec<u8, A>,
    width: u8,
    value: ParsedValue,
) -> Result<(), AllocError>
    requires width { width ≤ 8 }
    requires fills { Fills width (as_value width value) }
    ensures { Extends out.old out.new (encoded width (as_value width value)) result }
{
    let width = usize::from(width);
    match value {
        ParsedValue::Number(number) => {
            let bytes = number.to_be_bytes();
            let (_, low) = bytes.split_at(8 - width);
            out.extend_from_slice(low)
        }
        ParsedValue::Text(bytes) => out.extend_from_slice(&bytes[..width]),
    }
}

// Appends the bytes of a word in a field.
#[tactic(auto, using(crate::proofs::FieldBytes::putting))]
fn put_field<A: Allocator>(
    out: &mut Vec<u8, A>,
    field: &Field,
    word: &[u8],
) -> Result<(), LineError>
    requires { IsTrue (is_sound_field (as_field field.now)) }
    ensures { Puts out.old.items out.new.items (field_bytes (as_field field.now) word.now) result }
{
    let Some(value) = read_field(field, word) else {
        return Err(LineError::Wrong(LineFault::Field));
    };
    put_value(out, field.width, value)?;
    Ok(())
}

/// Appends the bytes of the first words of a line in these fields, a word each, and returns the rest of the line.
#[tactic(auto, using(crate::proofs::FieldBytes::fields))]
pub(crate) fn put_fields<'a, A: Allocator>(
    out: &mut Vec<u8, A>,
    fields: &[Field],
    line: &'a [u8],
) -> Result<&'a [u8], LineError>
    requires { IsTrue (list_all is_sound_field (map as_field fields.now)) }
    ensures { PutsFields out.old.items out.new.items (map as_field fields.now) (words line.now) result }
{
    let mut rest = line;
    'fields: for field in fields {
        let Some((word, following)) = split_word(rest) else {
            return Err(LineError::Wrong(LineFault::Field));
        };
        put_field(out, field, word)?;
        rest = following;
    }
    Ok(rest)
}
