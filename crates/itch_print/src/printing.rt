//! The fields of a message, as text.
ghost use Rattle.std.specs.Prelude.{◌++◌, codes, map};
ghost use Rattle.byte_strings.specs.Extending.{Extends};
ghost use Rattle.std.specs.List.{All};
ghost use Rattle.itch_layouts.specs.Layouts.{value_at};
ghost use Rattle.itch_layouts.specs.StaticFields.{as_field};
ghost use Rattle.itch_print.specs.Printing.{HasField};
ghost use Rattle.itch_print.specs.Disassembly.{value_text, field_text, field_texts};

use itch_layouts::{Field, Form};
use std::alloc::{AllocError, Allocator};
use text_fields::{put_number, put_quoted};

// Adds what stands in a field.
fn put_value<A: Allocator>(
    text: &mut Vec<u8, A>,
    payload: &[u8],
    field: &Field,
) -> Result<(), AllocError>
    requires { HasField payload.now (as_field field.now) }
    ensures { Extends text.old text.new (value_text (value_at payload.now (as_field field.now))) result }
{
    match field.form {
        Form::Integer => put_number(text, field.number_in(payload)),
        Form::Alpha => put_quoted(text, field.bytes_in(payload)),
    }
}

// Adds a space, the name of a field, `=`, and what stands in it.
fn put_field<A: Allocator>(
    text: &mut Vec<u8, A>,
    payload: &[u8],
    field: &Field,
) -> Result<(), AllocError>
    requires { HasField payload.now (as_field field.now) }
    ensures { Extends text.old text.new (codes " " ++ field_text payload.now (as_field field.now)) result }
{
    text.push(b' ')?;
    text.extend_from_slice(field.name)?;
    text.push(b'=')?;
    put_value(text, payload, field)
}

/// Adds the fields of a payload, and one space before each.
pub(crate) fn put_fields<A: Allocator>(
    text: &mut Vec<u8, A>,
    payload: &[u8],
    fields: &[Field],
) -> Result<(), AllocError>
    requires { All (HasField payload.now) (map as_field fields.now) }
    ensures { Extends text.old text.new (field_texts payload.now (map as_field fields.now)) result }
{
    for field in fields {
        put_field(text, payload, field)?;
    }
    Ok(())
}
