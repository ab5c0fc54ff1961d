//! The engines that write a trace of a file while they read it.
ghost use Rattle.std.specs.Prelude.{◌≡◌, ◌<◌, ◌≤◌, ◌^◌, []};
ghost use Rattle.day_printing.specs.Printers.{Prints};
ghost use Rattle.day_segments.specs.Reading.{nothing_read};
ghost use Rattle.itch_trace.specs.Made.{IsStockTraced};
ghost use Rattle.itch_trace.specs.Printers.{IsTrace, TracesStock, trace_printer};

use crate::day_trace::DayTrace;
use crate::extent::Extent;
use crate::stock_trace::StockTrace;
use binaryfile::{Feed, Sink};
use day_printing::print_day;
use engine_rules::ProgFault;
use itch_readings::{StockFault, StockName};
use std::alloc::Allocator;
use std::io::{Read, Write};

/// Reads a day file and writes a line for each of its messages, with a line of the names of fields first: the number of the
/// message, its time in nanoseconds since midnight, its type, its locate code, what became of it, and the price and the
/// shares of the best bids and asks of its stock after it. Prices are in 1/10,000 of a currency unit. Fields are empty where
/// there is no such level, where a message is of no stock, and where it is none.
///
/// `segment` is how many bytes a segment takes, 1 to 2^30. In memory are no more than a segment, its lines, the machines of
/// all stocks and 8 bytes for each locate code. The lines of a segment are sent before the next one is read, and no segment
/// is read after the one that has the last message that is wanted. Faults, and what was sent before one, are as at
/// [`print_day`].
pub fn trace_run<A: Allocator + Copy, R: Read, W: Write>(
    alloc: A,
    feed: &mut Feed<R>,
    sink: &mut Sink<W>,
    segment: u32,
    extent: Extent,
) -> Result<(), ProgFault>
    requires segment { (0 < segment) × (segment ≤ 2 ^ 30) }
    ensures { Prints (trace_printer extent) (IsTrace extent) (IsTrace extent) segment
        R.remaining W.contents feed.old feed.new sink.old sink.new result }
{
    if feed.failed() {
        return Err(ProgFault::Read);
    }
    let mut trace = DayTrace::new(alloc, extent)?;
    print_day(alloc, feed, sink, segment, &mut trace)
}

// Reads a day file and writes a stock's trace, which has not begun.
fn print_stock<A: Allocator + Copy, R: Read, W: Write>(
    alloc: A,
    feed: &mut Feed<R>,
    sink: &mut Sink<W>,
    segment: u32,
    trace: &mut StockTrace<A>,
) -> Result<(), StockFault>
    requires segment { (0 < segment) × (segment ≤ 2 ^ 30) }
    requires none { IsStockTraced trace.old.noted.notes.extent trace.old.noted.search.name
        trace.old.noted.search trace.old.noted.messages trace.old.noted.stock trace.old.noted.notes
        trace.old.begun nothing_read [] }
    ensures { TracesStock trace.old.noted.notes.extent trace.old.noted.search.name segment
        R.remaining W.contents feed.old feed.new sink.old sink.new result }
{
    print_day(alloc, feed, sink, segment, trace)?;
    if trace.has_begun() {
        Ok(())
    } else {
        Err(StockFault::NoStock)
    }
}

/// Reads a day file and writes the lines of [`trace_run`] for the messages of one of its stocks.
///
/// The stock is the one that [`tops_run`] finds by this name, and its messages are the same. In memory are no more than a
/// segment, its lines, a byte for each locate code and the machine of this stock. [`StockFault::NoStock`] comes where the day
/// hasn't the stock, unless another fault comes first, and nothing was sent then; else faults, and what was sent before one,
/// are as at [`print_day`].
///
/// [`tops_run`]: itch_readings::tops_run
pub fn stock_trace_run<A: Allocator + Copy, R: Read, W: Write>(
    alloc: A,
    feed: &mut Feed<R>,
    sink: &mut Sink<W>,
    segment: u32,
    extent: Extent,
    name: StockName,
) -> Result<(), StockFault>
    requires segment { (0 < segment) × (segment ≤ 2 ^ 30) }
    ensures { TracesStock extent name segment
        R.remaining W.contents feed.old feed.new sink.old sink.new result }
{
    if feed.failed() {
        return Err(StockFault::from(ProgFault::Read));
    }
    let mut trace = StockTrace::new(alloc, extent, name)?;
    print_stock(alloc, feed, sink, segment, &mut trace)
}
