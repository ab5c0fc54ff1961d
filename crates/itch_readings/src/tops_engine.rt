//! The engine that writes the best bid and ask of one stock of a day file.
ghost use Rattle.std.specs.Prelude.{◌≡◌, ◌+◌, ◌<◌, ◌≤◌, ◌^◌, ◌↔◌, IfErr, IfOk, IsErrOf, MatchOption};
ghost use Rattle.binaryfile.specs.Devices.{GaveUpTo, HasFailed};
ghost use Rattle.day_segments.specs.Reading.{Stops};
ghost use Rattle.itch_readings.specs.Engines.{PrintsTops, RunsOnStock, tops_printer};
ghost use Rattle.itch_readings.specs.Files.{GaveFile};
ghost use Rattle.itch_readings.specs.Naming.{NamesNone};

use crate::fault::StockFault;
use crate::naming::StockName;
use crate::noting::Noted;
use crate::segments::read_segments;
use crate::top_lines::{Selection, TopLines};
use binaryfile::{Feed, Limits, LoadFault, Sink, send};
use day_segments::SEGMENT_BYTES;
use engine_rules::limits::FILE_LIMITS;
use itch_table::own_rows_suffice;
use std::alloc::Allocator;
use std::io::{Read, Write};

/// The text that [`tops_run`] writes, of a file within the limits, or none where the file hasn't the stock. `segment` is how
/// many bytes a segment takes, 1 to 2^30. Its faults are those of [`stocks_of_file`], and at most `limits.bytes + 1` bytes
/// are taken from the reader.
///
/// [`stocks_of_file`]: crate::stocks_of_file
pub fn tops_of_file<A: Allocator + Copy, R: Read>(
    alloc: A,
    feed: &mut Feed<R>,
    limits: Limits,
    segment: u32,
    name: StockName,
    selection: Selection,
) -> Result<Option<Vec<u8, A>>, LoadFault>
    requires bytes { limits.bytes ≤ 2 ^ 40 }
    requires segment { (0 < segment) × (segment ≤ 2 ^ 30) }
    ensures text { IfOk result (λ found. GaveFile (R.remaining feed.old.device) (R.remaining feed.new.device)
        limits (λ day. MatchOption found
        (NamesNone day name) (λ text. PrintsTops name selection text.items day))) }
    ensures fault { IfErr result (
        Stops (R.remaining feed.old.device) (R.remaining feed.new.device) limits.bytes limits.messages) }
    ensures failed { IsErrOf result LoadFault.Read ↔ HasFailed feed.new }
    ensures for_good { HasFailed feed.old → feed.new ≡ feed.old }
    ensures taken { GaveUpTo (R.remaining feed.old.device) (R.remaining feed.new.device) (limits.bytes + 1) }
{
    // A law that the proof cites: it does nothing.
    own_rows_suffice();
    if feed.failed() {
        return Err(LoadFault::Read);
    }
    let lines = TopLines::new(alloc, selection)?;
    let mut noted = Noted::new(alloc, name, lines)?;
    read_segments(alloc, feed, limits, segment, &mut noted)?;
    match noted.into_parts() {
        Some((_, lines)) => Ok(Some(lines.into_text())),
        None => Ok(None),
    }
}

/// Reads a day file and writes the best bid and ask of one of its stocks after each message of the stock that changes
/// them, or after each of its messages, as comma-separated fields with a line of their names first: the number of the
/// message, its time in nanoseconds since midnight, the bid's price and shares, and the ask's. Prices are in 1/10,000
/// of a currency unit; the fields of an empty side are empty.
///
/// A locate code names its stock, whose lines begin at its first message. A symbol names the stock of the first directory
/// message that gives the symbol and is applied, and its lines begin at that message.
///
/// The file is read once, and in memory are no more than a segment of 1 MiB, a byte for each locate code, the machine of
/// this stock, and the text, which is made before it is sent. [`StockFault::NoStock`] comes where the day hasn't the stock,
/// and nothing was sent then; other faults are those of [`stocks_run`].
///
/// [`stocks_run`]: crate::stocks_run
pub fn tops_run<A: Allocator + Copy, R: Read, W: Write>(
    alloc: A,
    feed: &mut Feed<R>,
    sink: &mut Sink<W>,
    name: StockName,
    selection: Selection,
) -> Result<(), StockFault>
    ensures { RunsOnStock (tops_printer name selection) name
        R.remaining W.contents feed.old feed.new sink.old sink.new result }
{
    let found = tops_of_file(alloc, feed, FILE_LIMITS, SEGMENT_BYTES, name, selection)?;
    let Some(text) = found else {
        return Err(StockFault::NoStock);
    };
    send(sink, &text)?;
    Ok(())
}
