//! The fault of a faulty line of a text, by docs/FORMATS.md, "Texts": a second reading of the rules, which shares
//! nothing with the assembler.
use crate::meaning::words_of;
use itch_text::AsmFault;
use std::alloc::{AllocError, Allocator};
use std::test::Fail;

// The names that a line may begin with: the mnemonics of the messages, in the order of their table, and four others.
const NAMES: &[u8] =
    b"system directory trading regsho participant decline breach ipo collar operational \
    add add_mpid execute execute_price cancel delete replace trade cross broken imbalance retail \
    raw end cut rest";

// The first word of a line; none of a blank line or a comment.
fn first_word<A: Allocator>(alloc: A, line: &[u8]) -> Result<Option<&[u8]>, AllocError> {
    Ok(words_of(alloc, line)?.first().copied())
}

fn is_name(word: &[u8]) -> bool {
    NAMES.split(|byte| *byte == b' ').any(|name| name == word)
}

// Whether a line of a name may stand after others, of which this is the last name of `end`, `cut` and `rest`.
fn may_stand(name: &[u8], last: Option<&[u8]>) -> bool {
    match (last, name) {
        (None, b"rest") => false,
        (None, _) | (Some(b"end"), b"rest") => true,
        (Some(_), _) => false,
    }
}

// The fault of a faulty line that begins with a word: the first that holds of the table of faults.
fn fault_of(word: &[u8], last: Option<&[u8]>, number: u64) -> AsmFault {
    if !is_name(word) {
        AsmFault::Mnemonic(number)
    } else if !may_stand(word, last) {
        AsmFault::AfterEnd(number)
    } else {
        AsmFault::Field(number)
    }
}

/// The fault that the line of this number, counted from 1, has if it is the first faulty one of a text: only the first
/// words of that line and of those before it decide its kind.
pub fn fault_at<A: Allocator + Copy>(alloc: A, text: &[u8], number: u64) -> Result<AsmFault, Fail> {
    let mut lines = 0u64;
    let mut last = None;
    for line in text.split(|byte| *byte == b'\n') {
        lines = lines.saturating_add(1);
        let first = first_word(alloc, line)?;
        if lines == number {
            let Some(word) = first else {
                return Err(Fail::new("a blank line or a comment is faulty"));
            };
            return Ok(fault_of(word, last, number));
        }
        if let Some(b"end" | b"cut" | b"rest") = first {
            last = first;
        }
    }
    Err(Fail::new("a line is faulty that the text doesn't have"))
}
