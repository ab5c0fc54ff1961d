//! The lines of a file's payloads and of its end.
ghost use Rattle.std.specs.Prelude.{◌≡◌, length, option_map, slice_index};
ghost use Rattle.byte_strings.specs.Extending.{Extends};
ghost use Rattle.std.specs.List.{flat_map};
ghost use Rattle.itch_layouts.specs.Layouts.{layout_of_kind};
ghost use Rattle.itch_layouts.specs.StaticLayouts.{as_layout};
ghost use Rattle.itch_print.specs.Disassembly.{message_line, hex_line, payload_line, end_lines, ended};

use crate::printing::put_fields;
use itch_layouts::{Layout, head_fields, layout_of_kind};
use std::alloc::{AllocError, Allocator};
use text_fields::put_hex;

// Adds a line of a name and bytes in hexadecimal digits.
fn put_hex_line<A: Allocator>(
    text: &mut Vec<u8, A>,
    name: &[u8],
    bytes: &[u8],
) -> Result<(), AllocError>
    ensures { Extends text.old text.new (ended (hex_line name.now bytes.now)) result }
{
    text.extend_from_slice(name)?;
    text.push(b' ')?;
    put_hex(text, bytes)?;
    text.push(b'\n')?;
    Ok(())
}

// Adds the line of a message, whose payload has the size of its layout.
fn put_message<A: Allocator>(
    text: &mut Vec<u8, A>,
    payload: &[u8],
    layout: &Layout,
) -> Result<(), AllocError>
    requires { length payload.now ≡ layout.now.size }
    ensures { Extends text.old text.new (ended (message_line payload.now (as_layout layout.now))) result }
{
    text.extend_from_slice(layout.mnemonic)?;
    put_fields(text, payload, head_fields())?;
    put_fields(text, payload, layout.body)?;
    text.push(b'\n')?;
    Ok(())
}

// The layout of a payload's type, where it has one.
#[tactic(auto, using(crate::proofs::HeldFields::no_layout))]
fn layout_of(payload: &[u8]) -> Option<Layout>
    ensures { option_map as_layout result ≡ layout_of_kind (slice_index payload.now 0) }
{
    layout_of_kind(*payload.first()?)
}

/// Adds the line of a payload, as [`disassemble`] writes it: its message where it has the size of its type's layout, and
/// else its bytes. The text may have a part of the line after an error.
///
/// [`disassemble`]: crate::disassemble
pub fn put_payload<A: Allocator>(text: &mut Vec<u8, A>, payload: &[u8]) -> Result<(), AllocError>
    ensures { Extends text.old text.new (ended (payload_line payload.now)) result }
{
    match layout_of(payload) {
        Some(layout) if payload.len() == usize::from(layout.size) => {
            put_message(text, payload, &layout)
        }
        _ => put_hex_line(text, b"raw", payload),
    }
}

/// Adds the lines of a file's end: its marker and the bytes after it, or what is less than a whole entry.
pub(crate) fn put_end<A: Allocator>(
    text: &mut Vec<u8, A>,
    marked: bool,
    tail: &[u8],
) -> Result<(), AllocError>
    ensures { Extends text.old text.new (flat_map ended (end_lines marked tail.now)) result }
{
    if marked {
        text.extend_from_slice(b"end\n")?;
    }
    match tail {
        [] => Ok(()),
        _ if marked => put_hex_line(text, b"rest", tail),
        _ => put_hex_line(text, b"cut", tail),
    }
}
