//! The table of layouts.
use crate::messages::IMBALANCE;
use itch_layouts::{Form, head_fields, layout_of_kind, layout_of_mnemonic};
use std::test::Fail;
use test_support::{same, same_bytes};

/// The types and the sizes of their messages.
pub(crate) const SIZES: [(u8, u16); 22] = [
    (b'S', 12),
    (b'R', 39),
    (b'H', 25),
    (b'Y', 20),
    (b'L', 26),
    (b'V', 35),
    (b'W', 12),
    (b'K', 28),
    (b'J', 35),
    (b'h', 21),
    (b'A', 36),
    (b'F', 40),
    (b'E', 31),
    (b'C', 36),
    (b'X', 23),
    (b'D', 19),
    (b'U', 35),
    (b'P', 44),
    (b'Q', 40),
    (b'B', 19),
    (b'I', 50),
    (b'N', 20),
];

#[test]
fn layouts_are_found_by_type_and_by_mnemonic(_rt: HostRuntime) -> Result<(), Fail> {
    for (kind, size) in &SIZES {
        let Some(layout) = layout_of_kind(*kind) else {
            return Err(Fail::new("a type has no layout"));
        };
        same("a type", &layout.kind, kind)?;
        same("its size", &layout.size, size)?;
        same(
            "a layout by its mnemonic",
            &layout_of_mnemonic(layout.mnemonic),
            &Some(layout),
        )?;
    }
    let priced = layout_of_mnemonic(b"execute_price").map(|layout| layout.kind);
    same("a mnemonic with a prefix of its own", &priced, &Some(b'C'))?;
    same(
        "a mnemonic that is cut short",
        &layout_of_mnemonic(b"execute_"),
        &None,
    )?;
    same("a type without a layout", &layout_of_kind(b'O'), &None)?;
    same("how many fields of a head", &head_fields().len(), &3)
}

// The numbers of the message count from 7, field by field, and its text follows.
#[test]
fn fields_lie_where_the_table_says(rt: HostRuntime) -> Result<(), Fail> {
    let Some(layout) = layout_of_kind(b'I') else {
        return Err(Fail::new("there is no layout for imbalances"));
    };
    let mut next = 7;
    let mut text = Vec::new(rt.alloc());
    for field in head_fields().iter().chain(layout.body) {
        let end = usize::from(field.offset) + usize::from(field.width);
        if end > IMBALANCE.len() {
            return Err(Fail::new("a field lies past the end of its message"));
        }
        let width = field.width;
        match field.form {
            Form::Integer if width == 2 || width == 4 || width == 6 || width == 8 => {
                same("a number", &field.number_in(IMBALANCE), &next)?;
                next = next.wrapping_add(1);
            }
            Form::Integer => return Err(Fail::new("a number has 2, 4, 6 or 8 bytes")),
            Form::Alpha => text.extend_from_slice(field.bytes_in(IMBALANCE))?,
        }
    }
    same("the number after the last", &next, &15)?;
    same_bytes("the text of all fields", &text, b"SAAPL    O1")
}
