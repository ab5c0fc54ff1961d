//! A line of a text, taken where it stands.
ghost use Rattle.std.specs.Prelude.{◌≡◌, ◌<◌, ◌∷◌, [], length, MatchOption};
ghost use Rattle.std.specs.List.{position};
ghost use Rattle.itch_text.specs.Words.{words};
ghost use Rattle.itch_text.specs.Items.{is_comment};
ghost use Rattle.itch_text.specs.Text.{is_line_feed, lines_of};
ghost use Rattle.itch_text.specs.Faults.{EndName};
ghost use Rattle.itch_text.specs.Parsing.{named_bytes};
ghost use Rattle.itch_text.specs.Names.{as_name};
ghost use Rattle.itch_text.specs.Fields.{Puts};
ghost use Rattle.itch_text.specs.Steps.{TakesLine};

use crate::fault::{LineError, LineFault};
use crate::hex_lines::{put_cut, put_raw, put_rest};
use crate::message::put_message;
use crate::name::{Name, name_of};
use crate::place::Place;
use crate::words::split_word;
use itch_layouts::Layout;
use std::alloc::Allocator;

// The index of the first line feed of a text, where it has one.
fn line_end(text: &[u8]) -> Option<usize>
    ensures { result ≡ position is_line_feed text.now }
{
    text.iter().position(|byte| *byte == b'\n')
}

/// The first line of a text, and what follows its line feed, where it has one.
#[tactic(auto, using(crate::proofs::FirstLine::splitting))]
pub(crate) fn split_line(text: &[u8]) -> (&[u8], Option<&[u8]>)
    ensures { MatchOption result.1
        (lines_of text.now ≡ result.0.now ∷ [])
        (λ rest. (lines_of text.now ≡ result.0.now ∷ lines_of rest.now)
        × (length rest.now < length text.now)) }
{
    match line_end(text) {
        Some(end) => (&text[..end], Some(&text[end + 1..])),
        None => (text, None),
    }
}

// Whether a word begins a comment.
fn is_comment(word: &[u8]) -> bool
    ensures { result ≡ is_comment word.now }
{
    matches!(word, [b'#', ..])
}

// Appends the end marker, where no word follows the name of its line.
fn put_end<A: Allocator>(out: &mut Vec<u8, A>, line: &[u8]) -> Result<(), LineError>
    ensures { Puts out.old.items out.new.items (named_bytes EndName (words line.now)) result }
{
    if split_word(line).is_some() {
        return Err(LineError::Wrong(LineFault::Field));
    }
    out.extend_from_slice(&[0, 0])?;
    Ok(())
}

// Appends what a line of this name denotes, whose words after the name are these.
fn put_item<A: Allocator>(
    out: &mut Vec<u8, A>,
    name: Name<Layout>,
    line: &[u8],
) -> Result<(), LineError>
    ensures { Puts out.old.items out.new.items (named_bytes (as_name name) (words line.now)) result }
{
    match name {
        Name::Message(layout) => put_message(out, &layout, line),
        Name::Raw => put_raw(out, line),
        Name::End => put_end(out, line),
        Name::Cut => put_cut(out, line),
        Name::Rest => put_rest(out, line),
    }
}

/// Appends what a line at this place denotes, and returns where the next line stands.
pub(crate) fn put_line<A: Allocator>(
    out: &mut Vec<u8, A>,
    place: Place,
    line: &[u8],
) -> Result<Place, LineError>
    ensures { TakesLine out.old.items out.new.items place line.now result }
{
    let Some((word, rest)) = split_word(line) else {
        return Ok(place);
    };
    if is_comment(word) {
        return Ok(place);
    }
    let Some(name) = name_of(word) else {
        return Err(LineError::Wrong(LineFault::Mnemonic));
    };
    let Some(next) = place.after(name) else {
        return Err(LineError::Wrong(LineFault::AfterEnd));
    };
    put_item(out, name, rest)?;
    Ok(next)
}
