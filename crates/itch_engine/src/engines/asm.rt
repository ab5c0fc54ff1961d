//! The engine of the assembler.
ghost use Rattle.std.specs.Prelude.{◌≡◌, IfOk, IfErr};
ghost use Rattle.engine_rules.specs.Runs.{Fails, Runs};
ghost use Rattle.itch_engine.specs.TextEngines.{assembler};
ghost use Rattle.itch_text.specs.Text.{Text};

use binaryfile::{Feed, Sink, read_to_end, send};
use engine_rules::ProgFault;
use engine_rules::limits::MOST_TEXT_BYTES;
use itch_text::assemble;
use std::alloc::Allocator;
use std::io::{Read, Write};

// The file that a text denotes.
#[tactic(auto, using(crate::proofs::FaultyLines::fails_at_line))]
fn file_of_text<A: Allocator + Copy>(alloc: A, text: &[u8]) -> Result<Vec<u8, A>, ProgFault>
    ensures bytes { IfOk result (λ bytes. Text text.now bytes.items) }
    ensures fault { IfErr result (Fails assembler text.now) }
{
    Ok(assemble(alloc, text)?)
}

/// Reads a text and writes the file that it denotes.
///
/// The whole text is read before it is judged, and the whole file is made in memory before it is sent. After
/// [`ProgFault::Write`] the bytes that were taken are a prefix of the file; after another fault none was sent.
/// [`ProgFault::Read`] comes exactly where the feed has failed, [`ProgFault::TooManyBytes`] above
/// [`MOST_TEXT_BYTES`] bytes, and [`ProgFault::Asm`] for the first faulty line.
pub fn asm_run<A: Allocator + Copy, R: Read, W: Write>(
    alloc: A,
    feed: &mut Feed<R>,
    sink: &mut Sink<W>,
) -> Result<(), ProgFault>
    ensures { Runs assembler R.remaining W.contents feed.old feed.new sink.old sink.new result }
{
    let text = read_to_end(alloc, feed, MOST_TEXT_BYTES)?;
    let bytes = file_of_text(alloc, &text)?;
    send(sink, &bytes)?;
    Ok(())
}
