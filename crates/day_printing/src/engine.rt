//! The engine that writes a text of a file while it reads it.
ghost use Rattle.std.specs.Prelude.{◌≡◌, ◌<◌, ◌≤◌, ◌^◌, []};
ghost use Rattle.day_printing.specs.Printers.{Prints};
ghost use Rattle.day_segments.specs.Reading.{nothing_read};

use crate::printing::Printing;
use binaryfile::{Feed, Sink, send};
use day_segments::SegmentReader;
use engine_rules::ProgFault;
use engine_rules::limits::{MOST_FILE_BYTES, MOST_MESSAGES};
use std::alloc::Allocator;
use std::io::{Read, Write};

/// Reads a day file and writes what `printing` makes of it. `segment` is how many bytes a segment takes, 1 to 2^30; in memory
/// are no more than a segment, an entry and what is written of them.
///
/// What is made of a segment is sent before the next one is read, and no segment is read where those before it suffice. So
/// after a fault what was sent is the beginning of a text: of that of every file that begins with the bytes that the reader
/// gave, or, where the writer failed after the reader had ended, of the text of this file. [`ProgFault::Read`] comes exactly
/// where the feed has failed, [`ProgFault::Write`] only where the sink has, [`ProgFault::TooManyBytes`] above
/// [`MOST_FILE_BYTES`] bytes, and [`ProgFault::TooManyMessages`] as soon as there are more than [`MOST_MESSAGES`] messages.
pub fn print_day<A: Allocator + Copy, R: Read, W: Write, P: Printing<A>>(
    alloc: A,
    feed: &mut Feed<R>,
    sink: &mut Sink<W>,
    segment: u32,
    printing: &mut P,
) -> Result<(), ProgFault>
    requires size { (0 < segment) × (segment ≤ 2 ^ 30) }
    requires none { P.has_printed printing.old printing.old nothing_read [] }
    ensures { Prints (P.printer printing.old)
        (P.has_printed printing.old printing.new) (P.has_ended printing.old printing.new)
        segment R.remaining W.contents feed.old feed.new sink.old sink.new result }
{
    // A law that the proof cites: it does nothing.
    printing.texts_go_on();
    if feed.failed() {
        return Err(ProgFault::Read);
    }
    let mut reader = SegmentReader::new(alloc, segment, MOST_FILE_BYTES);
    'segments: while !printing.suffices(reader.messages()) {
        let before = reader.messages() as u32;
        let Some(next) = reader.next(alloc, feed)? else {
            let text = printing.print_end(alloc, reader.carried())?;
            send(sink, &text)?;
            return Ok(());
        };
        if reader.messages() > u64::from(MOST_MESSAGES) {
            return Err(ProgFault::TooManyMessages);
        }
        let text = printing.print_segment(alloc, before, &next)?;
        send(sink, &text)?;
    }
    Ok(())
}
