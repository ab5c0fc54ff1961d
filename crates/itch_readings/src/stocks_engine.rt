//! The engine that lists the stocks of a day file.
ghost use Rattle.std.specs.Prelude.{◌≡◌, ◌+◌, ◌<◌, ◌≤◌, ◌^◌, ◌↔◌, IfErr, IfOk, IsErrOf, length};
ghost use Rattle.binaryfile.specs.Devices.{GaveUpTo, HasFailed};
ghost use Rattle.day_segments.specs.Reading.{Stops};
ghost use Rattle.engine_rules.specs.Runs.{Runs};
ghost use Rattle.itch_readings.specs.Engines.{ListsStocks, stock_lister};
ghost use Rattle.itch_readings.specs.Files.{GaveFile};
ghost use Rattle.itch_readings.specs.Naming.{AreListed};

use crate::naming::{Listed, list_more, unlisted};
use crate::segments::{TakesSegments, read_segments};
use crate::stock_lines::put_stocks;
use binaryfile::{Day, Feed, Limits, LoadFault, Sink, send};
use day_segments::SEGMENT_BYTES;
use engine_rules::ProgFault;
use engine_rules::limits::FILE_LIMITS;
use std::alloc::{AllocError, Allocator};
use std::io::{Read, Write};

impl<A: Allocator + Copy> TakesSegments<A> for Vec<Listed, A> {
    ghost has_taken = { λ _ now day. AreListed day (length day) now.items };

    fn take_segment(&mut self, _alloc: A, segment: &Day<A>) -> Result<(), AllocError> {
        list_more(self, segment);
        Ok(())
    }
}

/// The text that [`stocks_run`] writes, of a file within the limits. `segment` is how many bytes a segment takes, 1 to 2^30.
///
/// In the course of reading the first of these is returned: [`LoadFault::Read`] where the feed fails (at once, and with no
/// memory, where it had failed before), [`LoadFault::Memory`] where memory is refused, [`LoadFault::TooManyBytes`] where
/// the reader gave more than `limits.bytes` bytes, which are no more than 2^40, and [`LoadFault::TooManyMessages`], once
/// the whole input was read, where it has more than `limits.messages` messages. Whatever the result, at most
/// `limits.bytes + 1` bytes are taken from the reader.
pub fn stocks_of_file<A: Allocator + Copy, R: Read>(
    alloc: A,
    feed: &mut Feed<R>,
    limits: Limits,
    segment: u32,
) -> Result<Vec<u8, A>, LoadFault>
    requires bytes { limits.bytes ≤ 2 ^ 40 }
    requires segment { (0 < segment) × (segment ≤ 2 ^ 30) }
    ensures text { IfOk result (λ text. GaveFile
        (R.remaining feed.old.device) (R.remaining feed.new.device) limits (ListsStocks text.items)) }
    ensures fault { IfErr result (
        Stops (R.remaining feed.old.device) (R.remaining feed.new.device) limits.bytes limits.messages) }
    ensures failed { IsErrOf result LoadFault.Read ↔ HasFailed feed.new }
    ensures for_good { HasFailed feed.old → feed.new ≡ feed.old }
    ensures taken { GaveUpTo (R.remaining feed.old.device) (R.remaining feed.new.device) (limits.bytes + 1) }
{
    if feed.failed() {
        return Err(LoadFault::Read);
    }
    let mut listed = unlisted(alloc)?;
    read_segments(alloc, feed, limits, segment, &mut listed)?;
    let mut text = Vec::new(alloc);
    put_stocks(&mut text, &listed)?;
    Ok(text)
}

/// Reads a day file and writes a line for each stock that has messages, by rising locate code: the code, the symbol
/// between quotes, and how many messages it has.
///
/// The file is read to its end before anything is written, and no more of it is in memory than a segment. The whole
/// text is made in memory before it is sent. After [`ProgFault::Write`] the bytes that were taken are a prefix of the
/// text; after another fault none was sent. [`ProgFault::Read`] comes exactly where the feed has failed,
/// [`ProgFault::TooManyBytes`] above [`MOST_FILE_BYTES`] bytes, and [`ProgFault::TooManyMessages`] above
/// [`MOST_MESSAGES`] messages.
///
/// [`MOST_FILE_BYTES`]: engine_rules::limits::MOST_FILE_BYTES
/// [`MOST_MESSAGES`]: engine_rules::limits::MOST_MESSAGES
pub fn stocks_run<A: Allocator + Copy, R: Read, W: Write>(
    alloc: A,
    feed: &mut Feed<R>,
    sink: &mut Sink<W>,
) -> Result<(), ProgFault>
    ensures { Runs stock_lister R.remaining W.contents feed.old feed.new sink.old sink.new result }
{
    let text = stocks_of_file(alloc, feed, FILE_LIMITS, SEGMENT_BYTES)?;
    send(sink, &text)?;
    Ok(())
}
