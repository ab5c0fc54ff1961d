//! The engine that shows a stock at a place of a day file.
ghost use Rattle.std.specs.Prelude.{◌≡◌, ◌≢◌, ◌⊎◌, Err, ◌+◌, ◌<◌, ◌≤◌, ◌^◌, ◌++◌, ◌↔◌, IfOk, IsErrOf, IsOk, List, codes, length, ℕ};
ghost use Rattle.binaryfile.specs.Devices.{GaveUpTo, HasFailed};
ghost use Rattle.engine_rules.specs.declared.fault.ProgFault.TheVariants.{Read as ReadFailed, Write as WriteFailed};
ghost use Rattle.stock_text.specs.Sessions.{position_words, stock_text};
ghost use Rattle.itch_show.specs.Engine.{Returns, RunsTwice, file_limits, shown_at};
ghost use Rattle.itch_show.specs.Parts.{GavePart, StopsAt};
ghost use Rattle.itch_show.specs.Places.{up_to};
ghost use Rattle.itch_show.specs.Shown.{GaveParts, IsReadTo};

use crate::place::Place;
use crate::sending::send_made;
use crate::stock_at_place::{StockAtPlace, last_outcome, stock_at_place};
use binaryfile::{Feed, Limits, Sink};
use day_segments::SEGMENT_BYTES;
use engine_rules::ProgFault;
use engine_rules::limits::FILE_LIMITS;
use itch_readings::{StockFault, StockName};
use itch_table::{Outcome, own_rows_suffice};
use std::alloc::{AllocError, Allocator};
use std::io::{Read, Write};
use stock_machine::Stock;
use stock_text::{put_position_line, put_shown_stock};

// The line of a position, and the lines of a stock there.
fn text_of<A: Allocator + Copy>(
    alloc: A,
    position: u32,
    outcome: Option<Outcome>,
    stock: &Stock<A>,
) -> Result<Vec<u8, A>, AllocError>
    ensures { IfOk result (λ text. text.items ≡ position_words position outcome ++ codes "\n"
        ++ stock_text stock.now.world stock.now.locate) }
{
    let mut text = Vec::new(alloc);
    put_position_line(&mut text, position, outcome)?;
    put_shown_stock(alloc, &mut text, stock)?;
    Ok(text)
}

// The text of what was read up to a place of a file, `again` being the same file once more. Its faults are those of
// [`show_of_file`] after the first reading.
fn text_at<A: Allocator + Copy, S: Read>(
    alloc: A,
    again: &mut Feed<S>,
    limits: Limits,
    segment: u32,
    place: &Place,
    at: &StockAtPlace<A>,
) -> Result<Vec<u8, A>, StockFault>
    requires bytes { limits.bytes ≤ 2 ^ 40 }
    requires segment { (0 < segment) × (segment ≤ 2 ^ 30) }
    ensures answer { (name : StockName) (day : List (List ℕ))
        → IsReadTo day name at.now.last.number at.now.last.payload.items at.now.stock
        → GavePart (S.remaining again.old.device) (S.remaining again.new.device)
        (λ input file. up_to place.now file.payloads ≡ day
        → Returns (shown_at name place.now limits) input file result) }
    ensures read { IsErrOf result (StockFault.Engine ReadFailed) → HasFailed again.new }
    ensures not_write { result ≢ Err (StockFault.Engine WriteFailed) }
    ensures failed { HasFailed again.new
        → (HasFailed again.old ⊎ IsErrOf result (StockFault.Engine ReadFailed)) }
    ensures for_good { HasFailed again.old → again.new ≡ again.old }
    ensures taken { GaveUpTo (S.remaining again.old.device) (S.remaining again.new.device)
        (limits.bytes + 1) }
{
    // A law that the proof cites: it does nothing.
    own_rows_suffice();
    if place.is_past(at.last.number) {
        return Err(StockFault::PastEnd);
    }
    let Some((stock, noted)) = &at.stock else {
        return Err(StockFault::NoStock);
    };
    let Some(outcome) = last_outcome(alloc, again, limits, segment, *noted, &at.last)? else {
        return Err(StockFault::Changed);
    };
    let text = text_of(alloc, at.last.number, outcome, stock)?;
    Ok(text)
}

/// The text that [`show_run`] writes, of a file within the limits. `segment` is how many bytes a segment takes, 1 to 2^30.
///
/// In the course of reading the first of these is returned, where `feed` or `again` comes to it: [`ProgFault::Read`] where it
/// fails (at once, and with no memory, where `feed` had failed before), [`ProgFault::Memory`] where memory is refused,
/// [`ProgFault::TooManyBytes`] where the reader gave more than `limits.bytes` bytes, which are no more than 2^40, and
/// [`ProgFault::TooManyMessages`] as soon as more than `limits.messages` messages were read. After the first reading come
/// [`StockFault::PastEnd`] and [`StockFault::NoStock`], after the second one [`StockFault::Changed`]. Whatever the result, at
/// most `limits.bytes + 1` bytes are taken from each reader.
pub fn show_of_file<A: Allocator + Copy, R: Read, S: Read>(
    alloc: A,
    feed: &mut Feed<R>,
    again: &mut Feed<S>,
    limits: Limits,
    segment: u32,
    name: StockName,
    place: Place,
) -> Result<Vec<u8, A>, StockFault>
    requires bytes { limits.bytes ≤ 2 ^ 40 }
    requires segment { (0 < segment) × (segment ≤ 2 ^ 30) }
    ensures answer { GaveParts (R.remaining feed.old.device) (R.remaining feed.new.device)
        (S.remaining again.old.device) (S.remaining again.new.device)
        (λ input file. Returns (shown_at name place limits) input file result) }
    ensures needed { IsOk result
        → StopsAt place segment (R.remaining feed.old.device) (R.remaining feed.new.device) }
    ensures read { IsErrOf result (StockFault.Engine ReadFailed)
        → (HasFailed feed.new ⊎ HasFailed again.new) }
    ensures not_write { result ≢ Err (StockFault.Engine WriteFailed) }
    ensures failed { HasFailed feed.new → IsErrOf result (StockFault.Engine ReadFailed) }
    ensures failed_again { HasFailed again.new
        → (HasFailed again.old ⊎ IsErrOf result (StockFault.Engine ReadFailed)) }
    ensures for_good { HasFailed feed.old → feed.new ≡ feed.old }
    ensures again_for_good { HasFailed again.old → again.new ≡ again.old }
    ensures taken { GaveUpTo (R.remaining feed.old.device) (R.remaining feed.new.device) (limits.bytes + 1) }
    ensures taken_again { GaveUpTo (S.remaining again.old.device) (S.remaining again.new.device)
        (limits.bytes + 1) }
{
    let at = stock_at_place(alloc, feed, limits, segment, name, &place)?;
    text_at(alloc, again, limits, segment, &place, &at)
}

/// Reads a day file up to a place and writes what a debugging session prints of a stock there: the line of the position, with
/// what became of the message before it, and the lines of the stock, or that its locate code has no directory message before
/// the place.
///
/// A locate code names its stock. A symbol names the stock of the first directory message (Nasdaq TotalView-ITCH 5.0, "Stock
/// Directory") before the place that gives the symbol and is applied; where there is none, that is [`StockFault::NoStock`].
/// Where a place asks for more messages than the day has, that is [`StockFault::PastEnd`].
///
/// `feed` is read up to the place, and `again` gives the same file once more: what became of the last message before the place
/// is known only to the machine of that message's stock, so where it isn't the stock that is shown, the file is read again for
/// it. What is written is right for each file of which both gave the beginning, and all where they ended. Of such a file
/// [`StockFault::Changed`], which says that the second reading had too few messages, isn't returned. In memory are no more than
/// a segment of 1 MiB, a byte for each locate code, the machine of the stock, that of the other one during a second reading,
/// and the text, which is made before it is sent.
/// [`ProgFault::Write`] comes only where the sink fails, and then a prefix of the text was sent; after another fault nothing
/// was. The other faults are those of [`show_of_file`], with the limits of day files.
pub fn show_run<A: Allocator + Copy, R: Read, S: Read, W: Write>(
    alloc: A,
    feed: &mut Feed<R>,
    again: &mut Feed<S>,
    sink: &mut Sink<W>,
    name: StockName,
    place: Place,
) -> Result<(), StockFault>
    ensures { RunsTwice (shown_at name place file_limits) R.remaining S.remaining W.contents
        feed.old feed.new again.old again.new sink.old sink.new result }
{
    let made = show_of_file(alloc, feed, again, FILE_LIMITS, SEGMENT_BYTES, name, place);
    send_made(sink, made)
}
