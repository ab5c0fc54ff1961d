//! Both ways at once.
ghost use Rattle.std.specs.Prelude.{◌≡◌, IfOk};
ghost use Rattle.binaryfile.specs.Entries.{bytes_of};
ghost use Rattle.itch_text.specs.declared.assembler.AsmFault.TheVariants.{Memory as MemoryRefused};

use crate::disassemble;
use binaryfile::Day;
use itch_text::{AsmFault, assemble};
use std::alloc::{AllocError, Allocator};

// The error of an assembler that was refused memory, and nothing else.
fn memory_error(fault: AsmFault) -> AllocError
    requires { fault ≡ MemoryRefused }
{
    // It is passed for the contract alone, by which the caller proves that it is no other fault.
    let _ = fault;
    AllocError
}

/// The bytes of a file, by way of its text: the day is disassembled, and the text assembled again.
///
/// They are the very bytes that were loaded, whatever they are. There is no other error than of memory, since no text
/// that is written for a file is faulty. The day is unchanged.
#[tactic(auto, using(crate::proofs::RoundTrip::round_trip))]
pub fn reassembled<A: Allocator + Copy>(alloc: A, day: &Day<A>) -> Result<Vec<u8, A>, AllocError>
    ensures { IfOk result (λ bytes. bytes.items ≡ bytes_of day.now) }
{
    let text = disassemble(alloc, day)?;
    match assemble(alloc, &text) {
        Ok(bytes) => Ok(bytes),
        Err(fault) => Err(memory_error(fault)),
    }
}
