//! From a text to the bytes of a file.
ghost use Rattle.std.specs.Prelude.{◌≡◌, ◌≢◌, IfOk, IfErr};
ghost use Rattle.itch_text.specs.FaultNumbers.{number_of};
ghost use Rattle.itch_text.specs.Text.{Text};
ghost use Rattle.itch_text.specs.Blames.{Blames, DenotesNothing};
ghost use Rattle.itch_text.specs.Steps.{fault_at};
ghost use Rattle.itch_text.specs.declared.assembler.AsmFault.TheVariants.{Memory as MemoryRefused};

use crate::fault::{LineError, LineFault};
use crate::line::{put_line, split_line};
use crate::place::Place;
use std::alloc::Allocator;
use thiserror::Error;

/// Why a text was not assembled. All lines of the text are counted, from 1, and the first faulty one is named.
///
/// A line has one fault, the first of these: `Mnemonic`, where it begins with no name of a line; `AfterEnd`, where a
/// line of its name may not stand there; and `Field`. After a line `end`, for example, `end 1` is `AfterEnd`, and
/// `ends` is `Mnemonic`.
#[derive(Debug, Clone, Copy, PartialEq, Eq, Drop, Error)]
pub enum AsmFault {
    /// Memory was refused. It says nothing of the text.
    #[error("no memory")]
    Memory,
    /// The line's first word is neither a mnemonic nor `raw`, `end`, `cut` or `rest`.
    #[error("line {0}: mnemonic")]
    Mnemonic(u64),
    /// The line's first word is a name, and what follows is not what a line of that name has.
    #[error("line {0}: field")]
    Field(u64),
    /// The line may not stand there: after `end` only `rest` may stand, after `rest` and `cut` nothing, and `rest`
    /// nowhere but after `end`.
    #[error("line {0}: after end")]
    AfterEnd(u64),
}

impl AsmFault {
    /// The fault's fixed number, from 1 to 4.
    pub fn number(self) -> u8
        ensures { result ≡ number_of self }
    {
        match self {
            AsmFault::Memory => 1,
            AsmFault::Mnemonic(_) => 2,
            AsmFault::Field(_) => 3,
            AsmFault::AfterEnd(_) => 4,
        }
    }
}

// The fault of a text whose line of this number was not taken.
fn fault_at(line: u64, error: LineError) -> AsmFault
    ensures { result ≡ fault_at line error }
{
    match error {
        LineError::Memory => AsmFault::Memory,
        LineError::Wrong(LineFault::Mnemonic) => AsmFault::Mnemonic(line),
        LineError::Wrong(LineFault::Field) => AsmFault::Field(line),
        LineError::Wrong(LineFault::AfterEnd) => AsmFault::AfterEnd(line),
    }
}

/// The bytes of the file that a text denotes.
///
/// A fault names the first faulty line, and then the text denotes no bytes at all; `Memory` says nothing of the text.
/// After a fault there is no value, and the memory that was taken is given back.
///
/// ```text
/// let text = b"system locate=0 tracking=0 time=0 event=\"O\"\nend\n";
/// let bytes = assemble(Global, text)?;
/// assert_eq!(bytes, b"\0\x0cS\0\0\0\0\0\0\0\0\0\0O\0\0");
/// assert_eq!(assemble(Global, b"end\nend\n").err(), Some(AsmFault::AfterEnd(2)));
/// ```
pub fn assemble<A: Allocator + Copy>(alloc: A, text: &[u8]) -> Result<Vec<u8, A>, AsmFault>
    ensures bytes { IfOk result (λ bytes. Text text.now bytes.items) }
    ensures first_fault { IfErr result (Blames text.now) }
    ensures nothing_denoted { IfErr result (λ fault. fault ≢ MemoryRefused → DenotesNothing text.now) }
{
    let mut bytes = Vec::new(alloc);
    let mut place = Place::Entries;
    let mut number = 0u64;
    let mut rest = Some(text);
    'lines: while let Some(lines) = rest {
        let (line, following) = split_line(lines);
        number += 1;
        match put_line(&mut bytes, place, line) {
            Ok(next) => place = next,
            Err(error) => return Err(fault_at(number, error)),
        }
        rest = following;
    }
    Ok(bytes)
}
