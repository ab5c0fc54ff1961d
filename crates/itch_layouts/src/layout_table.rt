//! The table of layouts.
ghost use Rattle.std.specs.Prelude.{◌≡◌, IsTrue, map, option_map};
ghost use Rattle.itch_layouts.specs.Layouts.{head_fields, layout_of_kind, layout_of_mnemonic, size_of, table};
ghost use Rattle.itch_layouts.specs.Soundness.{is_sound};
ghost use Rattle.itch_layouts.specs.StaticFields.{as_field};
ghost use Rattle.itch_layouts.specs.StaticLayouts.{as_layout, as_static_layout};

use crate::field::Field;
use crate::field::Form::{Alpha, Integer};
use crate::layout::Layout;

// A layout in the table. A static can't hold a type with a ghost field, so a `Layout` is made of it on each call.
struct StaticLayout {
    kind: u8,
    mnemonic: &'static [u8],
    size: u16,
    body: &'static [Field],
}

// A layout: the type, the mnemonic and the size, and of each field the form, the name, the offset and the width.
macro_rules! layout {
    ($kind:literal $mnemonic:literal $size:literal: $($form:ident $name:literal $offset:literal $width:literal),+) => {
        StaticLayout {
            kind: $kind,
            mnemonic: $mnemonic,
            size: $size,
            body: &[$(Field { name: $name, offset: $offset, width: $width, form: $form }),+],
        }
    };
}

// The table.
static LAYOUTS: [StaticLayout; 22] = [
    layout!(b'S' b"system" 12: Alpha b"event" 11 1),
    layout!(b'R' b"directory" 39: Alpha b"stock" 11 8, Alpha b"category" 19 1, Alpha b"status" 20 1,
        Integer b"lot" 21 4, Alpha b"lots_only" 25 1, Alpha b"issue_class" 26 1,
        Alpha b"issue_subtype" 27 2, Alpha b"authenticity" 29 1, Alpha b"short_sale" 30 1,
        Alpha b"ipo" 31 1, Alpha b"luld" 32 1, Alpha b"etp" 33 1, Integer b"leverage" 34 4,
        Alpha b"inverse" 38 1),
    layout!(b'H' b"trading" 25: Alpha b"stock" 11 8, Alpha b"state" 19 1, Alpha b"reserved" 20 1,
        Alpha b"reason" 21 4),
    layout!(b'Y' b"regsho" 20: Alpha b"stock" 11 8, Alpha b"action" 19 1),
    layout!(b'L' b"participant" 26: Alpha b"mpid" 11 4, Alpha b"stock" 15 8, Alpha b"primary" 23 1,
        Alpha b"mode" 24 1, Alpha b"state" 25 1),
    layout!(b'V' b"decline" 35: Integer b"level1" 11 8, Integer b"level2" 19 8,
        Integer b"level3" 27 8),
    layout!(b'W' b"breach" 12: Alpha b"level" 11 1),
    layout!(b'K' b"ipo" 28: Alpha b"stock" 11 8, Integer b"release" 19 4, Alpha b"qualifier" 23 1,
        Integer b"price" 24 4),
    layout!(b'J' b"collar" 35: Alpha b"stock" 11 8, Integer b"reference_price" 19 4,
        Integer b"upper" 23 4, Integer b"lower" 27 4, Integer b"extension" 31 4),
    layout!(b'h' b"operational" 21: Alpha b"stock" 11 8, Alpha b"market" 19 1, Alpha b"action" 20 1),
    layout!(b'A' b"add" 36: Integer b"reference" 11 8, Alpha b"side" 19 1, Integer b"shares" 20 4,
        Alpha b"stock" 24 8, Integer b"price" 32 4),
    layout!(b'F' b"add_mpid" 40: Integer b"reference" 11 8, Alpha b"side" 19 1,
        Integer b"shares" 20 4, Alpha b"stock" 24 8, Integer b"price" 32 4,
        Alpha b"attribution" 36 4),
    layout!(b'E' b"execute" 31: Integer b"reference" 11 8, Integer b"shares" 19 4,
        Integer b"match_no" 23 8),
    layout!(b'C' b"execute_price" 36: Integer b"reference" 11 8, Integer b"shares" 19 4,
        Integer b"match_no" 23 8, Alpha b"printable" 31 1, Integer b"price" 32 4),
    layout!(b'X' b"cancel" 23: Integer b"reference" 11 8, Integer b"shares" 19 4),
    layout!(b'D' b"delete" 19: Integer b"reference" 11 8),
    layout!(b'U' b"replace" 35: Integer b"reference" 11 8, Integer b"new_reference" 19 8,
        Integer b"shares" 27 4, Integer b"price" 31 4),
    layout!(b'P' b"trade" 44: Integer b"reference" 11 8, Alpha b"side" 19 1, Integer b"shares" 20 4,
        Alpha b"stock" 24 8, Integer b"price" 32 4, Integer b"match_no" 36 8),
    layout!(b'Q' b"cross" 40: Integer b"shares" 11 8, Alpha b"stock" 19 8, Integer b"price" 27 4,
        Integer b"match_no" 31 8, Alpha b"cross_type" 39 1),
    layout!(b'B' b"broken" 19: Integer b"match_no" 11 8),
    layout!(b'I' b"imbalance" 50: Integer b"paired" 11 8, Integer b"imbalance" 19 8,
        Alpha b"direction" 27 1, Alpha b"stock" 28 8, Integer b"far" 36 4, Integer b"near" 40 4,
        Integer b"reference_price" 44 4, Alpha b"cross_type" 48 1, Alpha b"variation" 49 1),
    layout!(b'N' b"retail" 20: Alpha b"stock" 11 8, Alpha b"interest" 19 1),
];

// The fields of the head.
static HEAD: [Field; 3] = [
    Field {
        name: b"locate",
        offset: 1,
        width: 2,
        form: Integer,
    },
    Field {
        name: b"tracking",
        offset: 3,
        width: 2,
        form: Integer,
    },
    Field {
        name: b"time",
        offset: 5,
        width: 6,
        form: Integer,
    },
];

/// The fields of the head, which follows the type in every message, in the order of the payload.
///
/// Nasdaq TotalView-ITCH 5.0, "Message Formats".
pub fn head_fields() -> &'static [Field]
    ensures { map as_field result.now ≡ head_fields }
{
    &HEAD
}

// The layouts of all types.
fn layouts() -> &'static [StaticLayout]
    ensures { map as_static_layout result.now ≡ table }
{
    &LAYOUTS
}

// The layout that an item of the table is.
fn layout_of(item: &StaticLayout) -> Layout
    requires { IsTrue (is_sound (as_static_layout item.now)) }
    ensures { as_layout result ≡ as_static_layout item.now }
{
    Layout {
        kind: item.kind,
        mnemonic: item.mnemonic,
        size: item.size,
        body: item.body,
    }
}

// The item of the table with a type. It is a function of its own so that the compiler makes a jump of the loop.
#[tactic(auto, using(crate::proofs::Finding::finding), unfolding(crate::specs::Layouts::layout_of_kind))]
fn item_of_kind(kind: u8) -> Option<&'static StaticLayout>
    ensures { option_map (λ item. as_static_layout item.now) result ≡ layout_of_kind kind }
{
    for item in layouts() {
        if item.kind == kind {
            return Some(item);
        }
    }
    None
}

/// The size in bytes of a type's payloads, or `None` where the type has no layout.
///
/// Nasdaq TotalView-ITCH 5.0, "Message Formats".
#[tactic(auto, unfolding(crate::specs::Layouts::size_of))]
pub fn size_of_kind(kind: u8) -> Option<u16>
    ensures { result ≡ size_of kind }
{
    Some(item_of_kind(kind)?.size)
}

/// The layout of a type, or `None` where the type has no layout.
///
/// Nasdaq TotalView-ITCH 5.0, "Message Formats".
pub fn layout_of_kind(kind: u8) -> Option<Layout>
    ensures { option_map as_layout result ≡ layout_of_kind kind }
{
    match item_of_kind(kind) {
        Some(item) => Some(layout_of(item)),
        None => None,
    }
}

/// The layout with a mnemonic, or `None` where no layout has it.
#[tactic(auto, using(crate::proofs::Finding::finding), unfolding(crate::specs::Layouts::layout_of_mnemonic))]
pub fn layout_of_mnemonic(mnemonic: &[u8]) -> Option<Layout>
    ensures { option_map as_layout result ≡ layout_of_mnemonic mnemonic.now }
{
    for item in layouts() {
        if item.mnemonic == mnemonic {
            return Some(layout_of(item));
        }
    }
    None
}
