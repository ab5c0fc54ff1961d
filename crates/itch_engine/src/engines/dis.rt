//! The engine of the disassembler.
ghost use Rattle.std.specs.Prelude.{◌≡◌, ◌-◌, ◌^◌, Err, IfOk, IfErr};
ghost use Rattle.binaryfile.specs.Loading.{HasMoreMessages};
ghost use Rattle.engine_rules.specs.Runs.{Fails, Runs};
ghost use Rattle.itch_engine.specs.TextEngines.{Disassembles, disassembler};

use binaryfile::{Day, Feed, Sink, read_to_end, send};
use engine_rules::ProgFault;
use engine_rules::limits::{MOST_FILE_BYTES, MOST_MESSAGES};
use itch_print::disassemble;
use std::alloc::Allocator;
use std::io::{Read, Write};

// The text of a file.
fn text_of_file<A: Allocator + Copy>(alloc: A, input: Vec<u8, A>) -> Result<Vec<u8, A>, ProgFault>
    ensures text { IfOk result (λ text. Disassembles input.items text.items) }
    ensures fault { IfErr result (Fails disassembler input.items) }
    // Whatever memory is left.
    ensures judged { HasMoreMessages input.items (2 ^ 32 - 1) → result ≡ Err ProgFault.TooManyMessages }
{
    let day = Day::from_bytes(alloc, input, MOST_MESSAGES)?;
    Ok(disassemble(alloc, &day)?)
}

/// Reads a day file and writes its text, which assembles to the very bytes of the file.
///
/// The whole file is read before it is judged, and the whole text is made in memory before it is sent. After
/// [`ProgFault::Write`] the bytes that were taken are a prefix of the text; after another fault none was sent.
/// [`ProgFault::Read`] comes exactly where the feed has failed, [`ProgFault::TooManyBytes`] above
/// [`MOST_FILE_BYTES`] bytes, and [`ProgFault::TooManyMessages`] above [`MOST_MESSAGES`] messages.
pub fn dis_run<A: Allocator + Copy, R: Read, W: Write>(
    alloc: A,
    feed: &mut Feed<R>,
    sink: &mut Sink<W>,
) -> Result<(), ProgFault>
    ensures { Runs disassembler R.remaining W.contents feed.old feed.new sink.old sink.new result }
{
    let input = read_to_end(alloc, feed, MOST_FILE_BYTES)?;
    let text = text_of_file(alloc, input)?;
    send(sink, &text)?;
    Ok(())
}
