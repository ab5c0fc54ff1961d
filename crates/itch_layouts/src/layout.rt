//! The layout of the messages of one type.
ghost use Rattle.std.specs.Prelude.{IsTrue, map};
ghost use Rattle.itch_layouts.specs.Layouts.{make_layout};
ghost use Rattle.itch_layouts.specs.Soundness.{is_sound};
ghost use Rattle.itch_layouts.specs.StaticFields.{as_field};

use crate::field::Field;

/// The layout of the messages of one type, for code that walks a payload field by field.
///
/// Each layout is sound: the mnemonic and the names of the fields are words of small letters, digits and underscores,
/// numbers have 2, 4, 6 or 8 bytes and texts 1 to 8, and the fields follow one another after the type, up to the size.
#[derive(Debug, Clone, Copy, PartialEq, Eq)]
pub struct Layout {
    /// The type: the payload's first byte.
    pub kind: u8,
    /// The name of the type in texts.
    pub mnemonic: &'static [u8],
    /// The payload's size in bytes.
    pub size: u16,
    /// The fields after the head, in the order of the payload.
    pub body: &'static [Field],
    pub ghost sound: { IsTrue (is_sound (make_layout kind mnemonic.now size (map as_field body.now))) },
}
