//! The fields of layouts, and their values in a payload.
ghost use Rattle.std.specs.Prelude.{◌≡◌, IsTrue};
ghost use Rattle.itch_layouts.specs.Layouts.{Holds, Integer as IntegerForm, bytes_at, number_at};
ghost use Rattle.itch_layouts.specs.Soundness.{is_width};
ghost use Rattle.itch_layouts.specs.StaticFields.{as_field};

use crate::at_offset::{nanos_at, u16_at, u32_at, u64_at};

/// What a field holds.
///
/// Nasdaq TotalView-ITCH 5.0, "Data Types".
#[derive(Debug, Clone, Copy, PartialEq, Eq)]
pub enum Form {
    /// An unsigned number, the highest byte first.
    Integer,
    /// Text, padded on the right with spaces.
    Alpha,
}

/// A field of a message.
#[derive(Debug, Clone, Copy, PartialEq, Eq)]
pub struct Field {
    /// The name of the field, as in its message's struct.
    pub name: &'static [u8],
    /// The offset of its first byte in the payload, counted from 0.
    pub offset: u8,
    /// Its width in bytes.
    pub width: u8,
    /// What it holds.
    pub form: Form,
}

impl Field {
    /// The number in this field of a payload.
    ///
    /// The payload must have all bytes of the field, and the field must hold a number of 2, 4, 6 or 8 bytes.
    ///
    /// Nasdaq TotalView-ITCH 5.0, "Data Types": unsigned, the highest byte first.
    #[tactic(auto, using(std::proofs::lemmas::Bool::Decides::nat_tests))]
    pub fn number_in(&self, payload: &[u8]) -> u64
        requires holds { Holds payload.now (as_field self.now) }
        requires width { IsTrue (is_width IntegerForm self.now.width) }
        ensures { result ≡ number_at self.now.offset self.now.width payload.now }
    {
        let offset = usize::from(self.offset);
        match self.width {
            2 => u64::from(u16_at(payload, offset)),
            4 => u64::from(u32_at(payload, offset)),
            6 => nanos_at(payload, offset).get(),
            _ => u64_at(payload, offset),
        }
    }

    /// The bytes in this field of a payload, borrowed from it. The payload must have all bytes of the field.
    ///
    /// Nasdaq TotalView-ITCH 5.0, "Data Types".
    #[tactic(auto, unfolding(crate::specs::Layouts::bytes_at))]
    pub fn bytes_in<'a>(&self, payload: &'a [u8]) -> &'a [u8]
        requires { Holds payload.now (as_field self.now) }
        ensures { result.now ≡ bytes_at self.now.offset self.now.width payload.now }
    {
        let offset = usize::from(self.offset);
        &payload[offset..offset + usize::from(self.width)]
    }
}
