//! The names that lines begin with.
ghost use Rattle.std.specs.Prelude.{◌≡◌, option_map};
ghost use Rattle.itch_text.specs.Faults.{name_of, word_name};
ghost use Rattle.itch_text.specs.Names.{as_name};

use itch_layouts::{Layout, layout_of_mnemonic};

/// The name that a line begins with. The borrow checker asks for the type `L` of a layout as a parameter.
#[derive(Clone, Copy)]
pub(crate) enum Name<L> {
    /// The mnemonic of a layout: a message.
    Message(L),
    /// `raw`: any payload.
    Raw,
    /// `end`: the end marker.
    End,
    /// `cut`: less than a whole entry.
    Cut,
    /// `rest`: the bytes after the end marker.
    Rest,
}

// The name of a line of no message that a word is, or `None` where it is none.
fn word_name(word: &[u8]) -> Option<Name<Layout>>
    ensures { option_map as_name result ≡ word_name word.now }
{
    match word {
        b"raw" => Some(Name::Raw),
        b"end" => Some(Name::End),
        b"cut" => Some(Name::Cut),
        b"rest" => Some(Name::Rest),
        _ => None,
    }
}

/// The name that a word is, or `None` where it is none.
#[tactic(auto, unfolding(crate::specs::Faults::name_of))]
pub(crate) fn name_of(word: &[u8]) -> Option<Name<Layout>>
    ensures { option_map as_name result ≡ name_of word.now }
{
    match layout_of_mnemonic(word) {
        Some(layout) => Some(Name::Message(layout)),
        None => word_name(word),
    }
}
