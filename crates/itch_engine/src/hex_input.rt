//! Day files in hexadecimal digits.
ghost use Rattle.std.specs.Prelude.{◌≡◌, Some, IfOk, IfErr};
ghost use Rattle.itch_engine.specs.HexInput.{denoted, digits_of, is_kept};
ghost use Rattle.engine_rules.specs.Runs.{Fails};
ghost use Rattle.itch_engine.specs.ReplayEngines.{digits_replayer};

use engine_rules::ProgFault;
use std::alloc::Allocator;

// Whether a byte is neither a space nor a line feed.
fn is_kept(byte: u8) -> bool
    ensures { result ≡ is_kept byte }
{
    byte != b' ' && byte != b'\n'
}

// Drops the spaces and line feeds.
fn keep_digits<A: Allocator>(input: &mut Vec<u8, A>)
    ensures { input.new.items ≡ digits_of input.old.items }
{
    input.retain(|byte| is_kept(*byte));
}

/// The bytes that hexadecimal digits of either case denote, two digits a byte. Spaces and line feeds are passed over,
/// also between the two digits of a byte.
///
/// `BadHex` where what is left isn't an even number of hexadecimal digits; `Memory` says nothing of the input.
#[tactic(auto, using(crate::proofs::DigitPairs::fails_at_digits))]
pub(crate) fn decode_digits<A: Allocator + Copy>(
    alloc: A,
    input: Vec<u8, A>,
) -> Result<Vec<u8, A>, ProgFault>
    ensures bytes { IfOk result (λ bytes. denoted input.items ≡ Some bytes.items) }
    ensures fault { IfErr result (Fails digits_replayer input.items) }
{
    let mut digits = input;
    keep_digits(&mut digits);
    Ok(hex::decode(alloc, digits)?)
}
