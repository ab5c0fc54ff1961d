//! A line of commands.
ghost use Rattle.std.specs.Prelude.{◌≡◌, ◌^◌};
ghost use Rattle.std.specs.Str.{bytes_eq};
ghost use Rattle.itch_text.specs.Words.{words};
ghost use Rattle.itch_debug.specs.Commands.{bare_command, break_of, command_of, number_below, numbered_command, other_command, price_break, reference_break, side_of, time_break};

use debugger::Break;
use itch_layouts::Nanos;
use itch_table::Side;
use itch_text::{number_of_text, only_word, split_word};

/// What a line of a session asks for. Numbers of breakpoints count from 1.
#[derive(Debug, Clone, Copy, PartialEq, Eq)]
pub enum Command {
    /// Nothing: the line is blank.
    Blank,
    /// To move to a position.
    Goto(u64),
    /// To move one message on.
    Step,
    /// To move one message back.
    Back,
    /// To move to the next message at which a breakpoint stops.
    Onward,
    /// To move to the last message before at which a breakpoint stops.
    Rearward,
    /// To add a breakpoint.
    AddBreak(Break),
    /// To list the breakpoints.
    ListBreaks,
    /// To remove the breakpoint with this number.
    RemoveBreak(u64),
    /// To show the last event.
    Event,
    /// To show the stock of a locate code.
    Show(u16),
    /// To end the session.
    Quit,
}

/// The most bytes of a line.
pub(crate) const LONGEST_LINE: usize = 1000;

// The locate code that a word writes.
#[tactic(auto, using(crate::proofs::Numbers::numbers))]
fn locate_in(word: &[u8]) -> Option<u16>
    ensures { result ≡ number_below (2 ^ 16) word.now }
{
    let number = number_of_text(word)?;
    u16::try_from(number).ok()
}

// The price that a word writes.
#[tactic(auto, using(crate::proofs::Numbers::numbers))]
fn price_in(word: &[u8]) -> Option<u32>
    ensures { result ≡ number_below (2 ^ 32) word.now }
{
    let number = number_of_text(word)?;
    u32::try_from(number).ok()
}

// The time that a word writes.
#[tactic(auto, using(crate::proofs::Numbers::numbers))]
fn time_in(word: &[u8]) -> Option<Nanos>
    ensures { result ≡ number_below (2 ^ 48) word.now }
{
    let number = number_of_text(word)?;
    Nanos::new(number)
}

// The number below 2^64 that a word writes.
#[tactic(auto, using(crate::proofs::Numbers::numbers))]
fn number_in(word: &[u8]) -> Option<u64>
    ensures { result ≡ number_below (2 ^ 64) word.now }
{
    number_of_text(word)
}

// The side that a word names.
fn side_in(word: &[u8]) -> Option<Side>
    ensures { result ≡ side_of word.now }
{
    match word {
        b"B" => Some(Side::Buy),
        b"S" => Some(Side::Sell),
        _ => None,
    }
}

// Whether a word is this name.
fn is(word: &[u8], name: &[u8]) -> bool
    ensures { result ≡ bytes_eq word.now name.now }
{
    word == name
}

// The breakpoint at a price, by the words after `price`.
fn price_break(text: &[u8]) -> Option<Break>
    ensures { result ≡ price_break (words text.now) }
{
    let (locate, text) = split_word(text)?;
    let (side, text) = split_word(text)?;
    let price = only_word(text)?;
    let locate = locate_in(locate)?;
    let side = side_in(side)?;
    let price = price_in(price)?;
    Some(Break::Price {
        locate,
        side,
        price,
    })
}

// The breakpoint at an order reference, by the words after `reference`.
fn reference_break(text: &[u8]) -> Option<Break>
    ensures { result ≡ reference_break (words text.now) }
{
    let (locate, text) = split_word(text)?;
    let reference = only_word(text)?;
    let locate = locate_in(locate)?;
    let reference = number_in(reference)?;
    Some(Break::Reference { locate, reference })
}

// The breakpoint at a time, by the word after `time`.
fn time_break(text: &[u8]) -> Option<Break>
    ensures { result ≡ time_break (words text.now) }
{
    let time = only_word(text)?;
    let time = time_in(time)?;
    Some(Break::Time { time })
}

// The breakpoint that the words after `break` name.
fn break_in(text: &[u8]) -> Option<Break>
    ensures { result ≡ break_of (words text.now) }
{
    let (kind, text) = split_word(text)?;
    if is(kind, b"price") {
        price_break(text)
    } else if is(kind, b"reference") {
        reference_break(text)
    } else if is(kind, b"time") {
        time_break(text)
    } else {
        None
    }
}

// The command that is one word alone.
fn bare(word: &[u8]) -> Option<Command>
    ensures { result ≡ bare_command word.now }
{
    if is(word, b"step") {
        Some(Command::Step)
    } else if is(word, b"back") {
        Some(Command::Back)
    } else if is(word, b"onward") {
        Some(Command::Onward)
    } else if is(word, b"rearward") {
        Some(Command::Rearward)
    } else if is(word, b"breaks") {
        Some(Command::ListBreaks)
    } else if is(word, b"event") {
        Some(Command::Event)
    } else if is(word, b"quit") {
        Some(Command::Quit)
    } else {
        None
    }
}

// The command that is a word and a number.
fn numbered(word: &[u8], number: &[u8]) -> Option<Command>
    ensures { result ≡ numbered_command word.now number.now }
{
    if is(word, b"goto") {
        Some(Command::Goto(number_in(number)?))
    } else if is(word, b"remove") {
        Some(Command::RemoveBreak(number_in(number)?))
    } else if is(word, b"show") {
        Some(Command::Show(locate_in(number)?))
    } else {
        None
    }
}

// The command of a word and those after it, where the word isn't `break`.
fn other(word: &[u8], text: &[u8]) -> Option<Command>
    ensures { result ≡ other_command word.now (words text.now) }
{
    let Some((number, text)) = split_word(text) else {
        return bare(word);
    };
    match split_word(text) {
        Some(_) => None,
        None => numbered(word, number),
    }
}

/// The command of a line, none where the line is none.
#[tactic(auto, unfolding(crate::specs::Commands::command_of))]
pub(crate) fn parse(line: &[u8]) -> Option<Command>
    ensures { result ≡ command_of line.now }
{
    if line.len() > LONGEST_LINE {
        return None;
    }
    let Some((word, text)) = split_word(line) else {
        return Some(Command::Blank);
    };
    if is(word, b"break") {
        return Some(Command::AddBreak(break_in(text)?));
    }
    other(word, text)
}
