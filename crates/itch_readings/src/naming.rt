//! The stocks of a day, and how they are named.
ghost use Rattle.std.specs.Prelude.{ℕ, ◌≡◌, ◌<◌, ◌+◌, ◌^◌, ◌++◌, List, [], IfOk, IsTrue, length};
ghost use Rattle.std.specs.Char.{is_ascii_digit};
ghost use Rattle.std.specs.List.{list_all};
ghost use Rattle.itch_readings.specs.Naming.{AreListed, code_of, named_by, symbol_by, symbol_of, unquoted};

use binaryfile::Day;
use itch_layouts::{Msg, Shape, read_msg};
use itch_table::{LOCATES, Part, part};
use std::alloc::{AllocError, Allocator};

/// A stock as a user names it.
#[derive(Debug, Clone, Copy, PartialEq, Eq)]
pub enum StockName {
    /// By its locate code.
    Locate(u16),
    /// By its symbol, padded with spaces to eight bytes.
    Symbol([u8; 8]),
}

// Whether a word has decimal digits alone.
fn are_digits(word: &[u8]) -> bool
    ensures { result ≡ list_all is_ascii_digit word.now }
{
    word.iter().all(|byte| byte.is_ascii_digit())
}

// The locate code that decimal digits write; none where there is no digit, or their value needs more than 16 bits.
fn code_of(digits: &str) -> Option<u16>
    ensures { IsTrue (list_all is_ascii_digit digits.now) → result ≡ code_of digits.now }
{
    digits.parse().ok()
}

// A word without its quotes, where it stands between two.
#[tactic(auto, unfolding(itch_text::specs::Parsing::between_quotes))]
fn unquoted(word: &[u8]) -> &[u8]
    ensures { result.now ≡ unquoted word.now }
{
    if word.len() >= 2 && word[0] == b'"' && word[word.len() - 1] == b'"' {
        &word[1..word.len() - 1]
    } else {
        word
    }
}

// The symbol of a text, padded with spaces; none where the text is longer than eight bytes.
fn symbol_of(text: &[u8]) -> Option<[u8; 8]>
    ensures { result ≡ symbol_of text.now }
{
    if text.len() > 8 {
        return None;
    }
    let mut symbol = [b' '; 8];
    for (index, byte) in text.iter().enumerate() {
        symbol[index] = *byte;
    }
    Some(symbol)
}

impl StockName {
    /// The stock that a word names. Decimal digits alone are a locate code, and any other word is a symbol, which may
    /// stand between quotes. None where the word is empty, a locate code would be above 65,535, or a symbol is longer
    /// than eight bytes. Whether a day has the stock isn't asked.
    pub fn of_word(word: &str) -> Option<StockName>
        ensures { result ≡ named_by word.now }
    {
        if are_digits(word.as_bytes()) {
            return Some(StockName::Locate(code_of(word)?));
        }
        let symbol = unquoted(word.as_bytes());
        Some(StockName::Symbol(symbol_of(symbol)?))
    }
}

/// What a day's messages say of the stock of a locate code. Its symbol is that of its first directory message (Nasdaq
/// TotalView-ITCH 5.0, "Stock Directory"), which is always applied; a later one with another symbol is refused.
#[derive(Debug, Clone, Copy, PartialEq, Eq)]
pub(crate) struct Listed {
    /// Its symbol, padded with spaces, where it has a directory message.
    pub symbol: Option<[u8; 8]>,
    /// How many messages it has.
    pub messages: u32,
}

/// The symbol that a directory message gives its stock; none where the payload is no such message.
pub(crate) fn symbol_in(payload: &[u8]) -> Option<[u8; 8]>
    ensures { result ≡ symbol_by payload.now }
{
    match read_msg(payload) {
        Shape::Known(Msg::Directory(_, message)) => Some(message.stock),
        _ => None,
    }
}

/// What no message says of each stock, by its locate code, of 2^16 in all. The memory is that of `alloc`.
pub(crate) fn unlisted<A: Allocator + Copy>(alloc: A) -> Result<Vec<Listed, A>, AllocError>
    ensures { IfOk result (λ listed. AreListed [] 0 listed.items) }
{
    let unlisted = Listed {
        symbol: None,
        messages: 0,
    };
    let listed = vec![in alloc; unlisted; LOCATES]?;
    Ok(listed)
}

/// Adds what the messages of a day, or of a segment of one, say of each stock to what those before them say. A caller
/// passes a list of the messages before, which with these are fewer than 2^32.
pub(crate) fn list_more<A: Allocator>(listed: &mut Vec<Listed, A>, segment: &Day<A>)
    requires { (before : List (List ℕ)) × AreListed before (length before) listed.old.items
        × (length before + length segment.now.payloads < 2 ^ 32) }
    ensures { (before : List (List ℕ)) → AreListed before (length before) listed.old.items
        → AreListed (before ++ segment.now.payloads) (length (before ++ segment.now.payloads))
        listed.new.items }
{
    for payload in segment.payloads() {
        if let Part::Locate(locate) = part(payload) {
            let before = listed[locate as usize];
            let symbol = match before.symbol {
                Some(symbol) => Some(symbol),
                None => symbol_in(payload),
            };
            listed[locate as usize] = Listed {
                symbol,
                messages: before.messages + 1,
            };
        }
    }
}
