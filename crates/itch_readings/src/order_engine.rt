//! The engine that writes the life of one order of a day file.
ghost use Rattle.std.specs.Prelude.{◌≡◌, ◌+◌, ◌<◌, ◌≤◌, ◌^◌, ◌++◌, ◌↔◌, IfErr, IfOk, IsErrOf, MatchOption};
ghost use Rattle.byte_strings.specs.Extending.{Extends};
ghost use Rattle.binaryfile.specs.Devices.{GaveUpTo, HasFailed};
ghost use Rattle.day_segments.specs.Reading.{Stops};
ghost use Rattle.itch_table.specs.World.{is_spent, orders_of};
ghost use Rattle.itch_readings.specs.Engines.{PrintsOrder, RunsOnStock, order_printer};
ghost use Rattle.itch_readings.specs.Files.{GaveFile};
ghost use Rattle.itch_readings.specs.Naming.{NamesNone};
ghost use Rattle.itch_readings.specs.OrderHistory.{HavePayloads, first_by, kept_lines};
ghost use Rattle.itch_readings.specs.OrderLives.{end_line, living_order};

use crate::fault::StockFault;
use crate::lives::Lives;
use crate::naming::StockName;
use crate::noting::Noted;
use crate::order_history::OrderHistory;
use crate::segments::read_segments;
use binaryfile::{Feed, Limits, LoadFault, Sink, send};
use day_segments::SEGMENT_BYTES;
use engine_rules::limits::FILE_LIMITS;
use itch_table::{Order, own_rows_suffice};
use std::alloc::{AllocError, Allocator};
use std::io::{Read, Write};
use stock_machine::Stock;
use stock_text::put_order;
use text_fields::put_count;

// The order of the life that has this reference, among those that live.
fn living_order<A: Allocator + Copy>(
    lives: &Lives<A>,
    reference: u64,
    orders: &[Order],
) -> Option<Order>
    ensures { result ≡ living_order (first_by lives.now.firsts) reference orders.now }
{
    let first = lives.first(reference);
    for order in orders {
        if lives.first(order.reference) == first {
            return Some(*order);
        }
    }
    None
}

// Adds the last line of a life.
fn put_end<A: Allocator>(
    text: &mut Vec<u8, A>,
    order: Option<Order>,
    spent: bool,
    reference: u64,
) -> Result<(), AllocError>
    ensures { Extends text.old text.new (end_line order spent reference) result }
{
    match order {
        Some(order) => put_order(text, order),
        None if spent => text.extend_from_slice(b"gone\n"),
        None => {
            put_count(text, b"no order ", reference)?;
            text.push(b'\n')?;
            Ok(())
        }
    }
}

// The lines of the life that has this reference, by a stock's messages and its machine after them.
fn life_of<A: Allocator + Copy>(
    alloc: A,
    history: &OrderHistory<A>,
    stock: &Stock<A>,
    reference: u64,
) -> Result<Vec<u8, A>, AllocError>
    requires { HavePayloads history.now.kept.items history.now.payloads.items }
    ensures { IfOk result (λ text. text.items
        ≡ kept_lines (first_by history.now.lives.firsts) reference history.now.kept.items history.now.payloads.items
        ++ end_line
        (living_order (first_by history.now.lives.firsts) reference (orders_of stock.now.world stock.now.locate))
        (is_spent stock.now.world stock.now.locate reference) reference) }
{
    let mut text = Vec::new(alloc);
    history.put_lines(&mut text, reference)?;
    let orders = stock.orders(alloc)?;
    let order = living_order(&history.lives, reference, &orders);
    put_end(&mut text, order, stock.spent(reference), reference)?;
    Ok(text)
}

/// The text that [`order_run`] writes, of a file within the limits, or none where the file hasn't the stock. `segment` is
/// how many bytes a segment takes, 1 to 2^30. Its faults are those of [`stocks_of_file`], and at most `limits.bytes + 1`
/// bytes are taken from the reader.
///
/// [`stocks_of_file`]: crate::stocks_of_file
pub fn order_of_file<A: Allocator + Copy, R: Read>(
    alloc: A,
    feed: &mut Feed<R>,
    limits: Limits,
    segment: u32,
    name: StockName,
    reference: u64,
) -> Result<Option<Vec<u8, A>>, LoadFault>
    requires bytes { limits.bytes ≤ 2 ^ 40 }
    requires segment { (0 < segment) × (segment ≤ 2 ^ 30) }
    ensures text { IfOk result (λ found. GaveFile (R.remaining feed.old.device) (R.remaining feed.new.device)
        limits (λ day. MatchOption found
        (NamesNone day name) (λ text. PrintsOrder name reference text.items day))) }
    ensures fault { IfErr result (
        Stops (R.remaining feed.old.device) (R.remaining feed.new.device) limits.bytes limits.messages) }
    ensures failed { IsErrOf result LoadFault.Read ↔ HasFailed feed.new }
    ensures for_good { HasFailed feed.old → feed.new ≡ feed.old }
    ensures taken { GaveUpTo (R.remaining feed.old.device) (R.remaining feed.new.device) (limits.bytes + 1) }
{
    // A law that the proof cites: it does nothing.
    own_rows_suffice();
    if feed.failed() {
        return Err(LoadFault::Read);
    }
    let mut noted = Noted::new(alloc, name, OrderHistory::new(alloc))?;
    read_segments(alloc, feed, limits, segment, &mut noted)?;
    let Some((stock, history)) = noted.into_parts() else {
        return Ok(None);
    };
    let text = life_of(alloc, &history, &stock, reference)?;
    Ok(Some(text))
}

/// Reads a day file and writes the life of an order of one of its stocks, from any of its references. The references of a
/// life are the one that is asked for, and all that applied replacements of the stock link to it, both ways. Each message of
/// the stock that names one of them has a line, in the file's order: its number, what became of it, and its line in the
/// day's text. After these comes the line of the order that lives at the end of the day, `gone` where there is none and the
/// reference was had, or `no order` with the reference where it never was.
///
/// The stock is the one that [`tops_run`] finds by this name, and its messages are the same. The file is read once, and in
/// memory are no more than a segment of 1 MiB, a byte for each locate code, the machine of this stock, its messages with 16
/// bytes more for each, its replaced references, and the text, which is made before it is sent. Faults are those of
/// [`tops_run`].
///
/// [`tops_run`]: crate::tops_run
pub fn order_run<A: Allocator + Copy, R: Read, W: Write>(
    alloc: A,
    feed: &mut Feed<R>,
    sink: &mut Sink<W>,
    name: StockName,
    reference: u64,
) -> Result<(), StockFault>
    ensures { RunsOnStock (order_printer name reference) name
        R.remaining W.contents feed.old feed.new sink.old sink.new result }
{
    let found = order_of_file(alloc, feed, FILE_LIMITS, SEGMENT_BYTES, name, reference)?;
    let Some(text) = found else {
        return Err(StockFault::NoStock);
    };
    send(sink, &text)?;
    Ok(())
}
