//! The engines that write the trades of a day file.
ghost use Rattle.std.specs.Prelude.{◌≡◌, ◌+◌, ◌<◌, ◌≤◌, ◌^◌, ◌↔◌, IfErr, IfOk, IsErrOf, MatchOption};
ghost use Rattle.binaryfile.specs.Devices.{GaveUpTo, HasFailed};
ghost use Rattle.day_segments.specs.Reading.{Stops};
ghost use Rattle.engine_rules.specs.Runs.{Runs};
ghost use Rattle.itch_readings.specs.Engines.{PrintsStockTrades, PrintsTrades, RunsOnStock, stock_trades_printer, trades_printer};
ghost use Rattle.itch_readings.specs.Files.{GaveFile};
ghost use Rattle.itch_readings.specs.Naming.{NamesNone};

use crate::all_noting::AllNoted;
use crate::fault::StockFault;
use crate::naming::StockName;
use crate::noting::Noted;
use crate::segments::read_segments;
use crate::trade_lines::TradeNotes;
use binaryfile::{Feed, Limits, LoadFault, Sink, send};
use day_segments::SEGMENT_BYTES;
use engine_rules::ProgFault;
use engine_rules::limits::FILE_LIMITS;
use std::alloc::Allocator;
use std::io::{Read, Write};

/// The text that [`trades_run`] writes, of a file within the limits. `segment` is how many bytes a segment takes, 1 to 2^30.
/// Its faults are those of [`stocks_of_file`], and at most `limits.bytes + 1` bytes are taken from the reader.
///
/// [`stocks_of_file`]: crate::stocks_of_file
pub fn trades_of_file<A: Allocator + Copy, R: Read>(
    alloc: A,
    feed: &mut Feed<R>,
    limits: Limits,
    segment: u32,
) -> Result<Vec<u8, A>, LoadFault>
    requires bytes { limits.bytes ≤ 2 ^ 40 }
    requires segment { (0 < segment) × (segment ≤ 2 ^ 30) }
    ensures text { IfOk result (λ text. GaveFile
        (R.remaining feed.old.device) (R.remaining feed.new.device) limits (PrintsTrades text.items)) }
    ensures fault { IfErr result (
        Stops (R.remaining feed.old.device) (R.remaining feed.new.device) limits.bytes limits.messages) }
    ensures failed { IsErrOf result LoadFault.Read ↔ HasFailed feed.new }
    ensures for_good { HasFailed feed.old → feed.new ≡ feed.old }
    ensures taken { GaveUpTo (R.remaining feed.old.device) (R.remaining feed.new.device) (limits.bytes + 1) }
{
    if feed.failed() {
        return Err(LoadFault::Read);
    }
    let mut noted = AllNoted::new(alloc, TradeNotes::new(alloc))?;
    read_segments(alloc, feed, limits, segment, &mut noted)?;
    let text = noted.into_notes().into_text(alloc)?;
    Ok(text)
}

/// Reads a day file and writes its trades: for each message that makes one a line of comma-separated fields, in the file's
/// order, with a line of their names first. A trade is made by an applied message of type `E`, `C`, `P` or `Q`.
///
/// The fields are the number of the message, its time in nanoseconds since midnight, the stock's locate code, the message's
/// type, the side of the order that was executed (`B` or `S`; nothing of a cross), the price in 1/10,000 of a currency unit,
/// the shares, the match number, whether the trade is printed (`Y` or `N`), and the number of the message that broke it, or
/// nothing. A trade is broken by the first applied message of type `B` after it that is of its stock and has its match
/// number.
///
/// The file is read once, by one thread, and in memory are no more than a segment of 1 MiB, the machines of all stocks with
/// 8 bytes for each locate code, about 64 bytes for each trade and each message that breaks some, about 50 for each match
/// number that was broken, and the text, which is made before it is sent. Faults are those of [`stocks_run`].
///
/// [`stocks_run`]: crate::stocks_run
pub fn trades_run<A: Allocator + Copy, R: Read, W: Write>(
    alloc: A,
    feed: &mut Feed<R>,
    sink: &mut Sink<W>,
) -> Result<(), ProgFault>
    ensures { Runs trades_printer R.remaining W.contents feed.old feed.new sink.old sink.new result }
{
    let text = trades_of_file(alloc, feed, FILE_LIMITS, SEGMENT_BYTES)?;
    send(sink, &text)?;
    Ok(())
}

/// The text that [`stock_trades_run`] writes, of a file within the limits, or none where the file hasn't the stock.
/// `segment` is how many bytes a segment takes, 1 to 2^30. Its faults are those of [`stocks_of_file`], and at most
/// `limits.bytes + 1` bytes are taken from the reader.
///
/// [`stocks_of_file`]: crate::stocks_of_file
pub fn stock_trades_of_file<A: Allocator + Copy, R: Read>(
    alloc: A,
    feed: &mut Feed<R>,
    limits: Limits,
    segment: u32,
    name: StockName,
) -> Result<Option<Vec<u8, A>>, LoadFault>
    requires bytes { limits.bytes ≤ 2 ^ 40 }
    requires segment { (0 < segment) × (segment ≤ 2 ^ 30) }
    ensures text { IfOk result (λ found. GaveFile (R.remaining feed.old.device) (R.remaining feed.new.device)
        limits (λ day. MatchOption found
        (NamesNone day name) (λ text. PrintsStockTrades name text.items day))) }
    ensures fault { IfErr result (
        Stops (R.remaining feed.old.device) (R.remaining feed.new.device) limits.bytes limits.messages) }
    ensures failed { IsErrOf result LoadFault.Read ↔ HasFailed feed.new }
    ensures for_good { HasFailed feed.old → feed.new ≡ feed.old }
    ensures taken { GaveUpTo (R.remaining feed.old.device) (R.remaining feed.new.device) (limits.bytes + 1) }
{
    if feed.failed() {
        return Err(LoadFault::Read);
    }
    let mut noted = Noted::new(alloc, name, TradeNotes::new(alloc))?;
    read_segments(alloc, feed, limits, segment, &mut noted)?;
    let Some((_, notes)) = noted.into_parts() else {
        return Ok(None);
    };
    let text = notes.into_text(alloc)?;
    Ok(Some(text))
}

/// Reads a day file and writes the trades of one of its stocks, in the lines of [`trades_run`].
///
/// The stock is the one that [`tops_run`] finds by this name, and its messages are the same. The file is read once, and in
/// memory are no more than a segment of 1 MiB, a byte for each locate code, the machine of this stock, about 64 bytes for
/// each of its trades and of its messages that break some, about 50 for each match number that was broken, and the text,
/// which is made before it is sent. Faults are those of [`tops_run`].
///
/// [`tops_run`]: crate::tops_run
pub fn stock_trades_run<A: Allocator + Copy, R: Read, W: Write>(
    alloc: A,
    feed: &mut Feed<R>,
    sink: &mut Sink<W>,
    name: StockName,
) -> Result<(), StockFault>
    ensures { RunsOnStock (stock_trades_printer name) name
        R.remaining W.contents feed.old feed.new sink.old sink.new result }
{
    let found = stock_trades_of_file(alloc, feed, FILE_LIMITS, SEGMENT_BYTES, name)?;
    let Some(text) = found else {
        return Err(StockFault::NoStock);
    };
    send(sink, &text)?;
    Ok(())
}
