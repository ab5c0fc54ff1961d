//! Numbers in a text.
ghost use Rattle.std.specs.Prelude.{◌≡◌, ◌++◌, OnErr};
ghost use Rattle.byte_strings.specs.Extending.{Extends};

use std::alloc::{AllocError, Allocator};

/// Adds a number in decimal digits, which fields of numbers and the lines of reports have. An error leaves the text as
/// it was.
pub fn put_number<N: itoa::Integer, A: Allocator>(
    text: &mut Vec<u8, A>,
    number: N,
) -> Result<(), AllocError>
    ensures ok { Extends text.old text.new (N.text number) result }
    ensures err { OnErr result (text.new.items ≡ text.old.items) }
{
    let mut buffer = itoa::Buffer::new();
    text.extend_from_slice(buffer.format(number).as_bytes())
}

/// Adds a word, with the spaces that belong to it, followed by a number in decimal digits. After an error the word may have
/// been added.
pub fn put_count<N: itoa::Integer, A: Allocator>(
    text: &mut Vec<u8, A>,
    word: &[u8],
    number: N,
) -> Result<(), AllocError>
    ensures { Extends text.old text.new (word.now ++ N.text number) result }
{
    text.extend_from_slice(word)?;
    put_number(text, number)
}
