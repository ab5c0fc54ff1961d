//! The engine that says what became of a message, and why.
ghost use Rattle.std.specs.Prelude.{◌≡◌, ◌≢◌, ◌⊎◌, ◌+◌, ◌<◌, ◌≤◌, ◌^◌, ◌↔◌, Err, IfErr, IfOk, IsErrOf, IsOk, List, ℕ};
ghost use Rattle.binaryfile.specs.Devices.{GaveUpTo, HasFailed};
ghost use Rattle.engine_rules.specs.declared.fault.ProgFault.TheVariants.{Read as ReadFailed, Write as WriteFailed};
ghost use Rattle.itch_show.specs.Engine.{Returns, RunsTwice, file_limits};
ghost use Rattle.engine_rules.specs.FaultOrigins.{fault_of_load};
ghost use Rattle.itch_show.specs.Parts.{Exceeds, GavePart, StopsAt};
ghost use Rattle.itch_show.specs.declared.place.Place.TheVariants.{After};
ghost use Rattle.itch_show.specs.Places.{up_to};
ghost use Rattle.itch_show.specs.Shown.{GaveParts};
ghost use Rattle.itch_table.specs.Parts.{part};
ghost use Rattle.itch_table.specs.declared.outcome.Part.{Part};
ghost use Rattle.itch_why.specs.Why.{IsOwnText, IsReadUpTo, why};

use crate::earlier::EarlierLines;
use crate::lines::{message_text, own_text};
use binaryfile::{Feed, Limits, LoadFault, Sink};
use day_segments::SEGMENT_BYTES;
use engine_rules::ProgFault;
use engine_rules::limits::FILE_LIMITS;
use itch_readings::StockFault;
use itch_show::{LastMessage, Place, TakesMessages, read_up_to, send_made, stock_before};
use itch_table::{Part, own_rows_suffice, part, stocks_are_independent};
use std::alloc::{AllocError, Allocator};
use std::io::{Read, Write};

// Takes the messages of a day, and keeps nothing of them.
#[derive(Drop)]
struct TakesNone;

impl<A: Allocator + Copy> TakesMessages<A> for TakesNone {
    ghost has_taken = { λ _ _ _. Unit {0} };

    fn take(&mut self, _alloc: A, _payload: &[u8]) -> Result<(), AllocError> {
        Ok(())
    }
}

// The text of a message of the stock with this locate code, by reading the file once more up to the message; none where that
// gave fewer messages than come before it.
fn text_again<A: Allocator + Copy, S: Read>(
    alloc: A,
    again: &mut Feed<S>,
    limits: Limits,
    segment: u32,
    locate: u16,
    last: &LastMessage<A>,
) -> Result<Option<Vec<u8, A>>, LoadFault>
    requires some { 0 < last.now.number }
    requires own { part last.now.payload.items ≡ Part.Locate locate }
    requires bytes { limits.bytes ≤ 2 ^ 40 }
    requires segment { (0 < segment) × (segment ≤ 2 ^ 30) }
    ensures text { IfOk result (λ made.
        GavePart (S.remaining again.old.device) (S.remaining again.new.device)
        (IsOwnText last.now.number last.now.payload.items made)) }
    ensures fault { IfErr result (λ fault.
        GavePart (S.remaining again.old.device) (S.remaining again.new.device)
        (Exceeds limits (fault_of_load fault))) }
    ensures failed { IsErrOf result LoadFault.Read ↔ HasFailed again.new }
    ensures for_good { HasFailed again.old → again.new ≡ again.old }
    ensures taken { GaveUpTo (S.remaining again.old.device) (S.remaining again.new.device)
        (limits.bytes + 1) }
{
    // Laws that the proof cites: they do nothing.
    stocks_are_independent();
    own_rows_suffice();
    let none = EarlierLines::of_none(alloc, &last.payload);
    let before = stock_before(alloc, again, limits, segment, locate, last.number, none)?;
    let Some((mut stock, earlier)) = before else {
        return Ok(None);
    };
    let text = own_text(alloc, &mut stock, &earlier.text, last.number, &last.payload)?;
    Ok(Some(text))
}

// The text of the last message that was read, where that is message `number`, `again` being the same file once more. Its faults
// are those of [`why_of_file`] after the first reading.
fn text_of_last<A: Allocator + Copy, S: Read>(
    alloc: A,
    again: &mut Feed<S>,
    limits: Limits,
    segment: u32,
    number: u32,
    last: &LastMessage<A>,
) -> Result<Vec<u8, A>, StockFault>
    requires bytes { limits.bytes ≤ 2 ^ 40 }
    requires segment { (0 < segment) × (segment ≤ 2 ^ 30) }
    ensures answer { (day : List (List ℕ)) → IsReadUpTo day number last.now.number last.now.payload.items
        → GavePart (S.remaining again.old.device) (S.remaining again.new.device)
        (λ input file. up_to (After number) file.payloads ≡ day
        → Returns (why number limits) input file result) }
    ensures read { IsErrOf result (StockFault.Engine ReadFailed) → HasFailed again.new }
    ensures not_write { result ≢ Err (StockFault.Engine WriteFailed) }
    ensures failed { HasFailed again.new
        → (HasFailed again.old ⊎ IsErrOf result (StockFault.Engine ReadFailed)) }
    ensures for_good { HasFailed again.old → again.new ≡ again.old }
    ensures taken { GaveUpTo (S.remaining again.old.device) (S.remaining again.new.device)
        (limits.bytes + 1) }
{
    // A law that the proof cites: it does nothing.
    stocks_are_independent();
    if number == 0 || last.number < number {
        return Err(StockFault::PastEnd);
    }
    let locate = match part(&last.payload) {
        Part::Locate(locate) => locate,
        Part::Nowhere(outcome) => {
            let text = message_text(alloc, last.number, outcome, &last.payload)?;
            return Ok(text);
        }
    };
    let made = text_again(alloc, again, limits, segment, locate, last)?;
    let Some(text) = made else {
        return Err(StockFault::Changed);
    };
    Ok(text)
}

/// The text that [`why_run`] writes, of a file within the limits. `segment` is how many bytes a segment takes, 1 to 2^30.
///
/// In the course of reading the first of these is returned, where `feed` or `again` comes to it: [`ProgFault::Read`] where it
/// fails (at once, and with no memory, where `feed` had failed before), [`ProgFault::Memory`] where memory is refused,
/// [`ProgFault::TooManyBytes`] where the reader gave more than `limits.bytes` bytes, which are no more than 2^40, and
/// [`ProgFault::TooManyMessages`] as soon as more than `limits.messages` messages were read. After the first reading comes
/// [`StockFault::PastEnd`], after the second one [`StockFault::Changed`]. Whatever the result, at most `limits.bytes + 1` bytes
/// are taken from each reader.
pub fn why_of_file<A: Allocator + Copy, R: Read, S: Read>(
    alloc: A,
    feed: &mut Feed<R>,
    again: &mut Feed<S>,
    limits: Limits,
    segment: u32,
    number: u32,
) -> Result<Vec<u8, A>, StockFault>
    requires bytes { limits.bytes ≤ 2 ^ 40 }
    requires segment { (0 < segment) × (segment ≤ 2 ^ 30) }
    ensures answer { GaveParts (R.remaining feed.old.device) (R.remaining feed.new.device)
        (S.remaining again.old.device) (S.remaining again.new.device)
        (λ input file. Returns (why number limits) input file result) }
    ensures needed { IsOk result
        → StopsAt (After number) segment (R.remaining feed.old.device) (R.remaining feed.new.device) }
    ensures read { IsErrOf result (StockFault.Engine ReadFailed)
        → (HasFailed feed.new ⊎ HasFailed again.new) }
    ensures not_write { result ≢ Err (StockFault.Engine WriteFailed) }
    ensures failed { HasFailed feed.new → IsErrOf result (StockFault.Engine ReadFailed) }
    ensures failed_again { HasFailed again.new
        → (HasFailed again.old ⊎ IsErrOf result (StockFault.Engine ReadFailed)) }
    ensures for_good { HasFailed feed.old → feed.new ≡ feed.old }
    ensures again_for_good { HasFailed again.old → again.new ≡ again.old }
    ensures taken { GaveUpTo (R.remaining feed.old.device) (R.remaining feed.new.device) (limits.bytes + 1) }
    ensures taken_again { GaveUpTo (S.remaining again.old.device) (S.remaining again.new.device)
        (limits.bytes + 1) }
{
    let place = Place::After(number);
    let last = read_up_to(alloc, feed, limits, segment, &place, &mut TakesNone)?;
    text_of_last(alloc, again, limits, segment, number, &last)
}

/// Reads a day file and writes what became of message `number`, counted from 1, and why:
///
/// - the line of the position after it, with what became of it, and its line of the day's text;
/// - where it was refused, the fault's number and name, and why, in words;
/// - each order that it names, as its stock had it before, or that there is none, or none any more;
/// - the earlier applied messages of its stock that named one of these orders, and where it breaks a trade those that have its
///   match number: each with its number, before its line of the text.
///
/// Where the day hasn't that message, that is [`StockFault::PastEnd`].
///
/// `feed` is read up to the message, and `again` gives the same file once more, up to it: what a stock had before is known
/// once it is known whose message it is. What is written is right for each file of which both gave the beginning, and all where
/// they ended. Of such a file [`StockFault::Changed`], which says that the second reading had too few messages, isn't
/// returned. In memory are no more than a segment of 1 MiB, a byte for each locate code, the machine of the stock, and twice the
/// text, which is made before it is sent.
/// [`ProgFault::Write`] comes only where the sink fails, and then a prefix of the text was sent; after another fault nothing
/// was. The other faults are those of [`why_of_file`], with the limits of day files.
pub fn why_run<A: Allocator + Copy, R: Read, S: Read, W: Write>(
    alloc: A,
    feed: &mut Feed<R>,
    again: &mut Feed<S>,
    sink: &mut Sink<W>,
    number: u32,
) -> Result<(), StockFault>
    ensures { RunsTwice (why number file_limits) R.remaining S.remaining W.contents
        feed.old feed.new again.old again.new sink.old sink.new result }
{
    let made = why_of_file(alloc, feed, again, FILE_LIMITS, SEGMENT_BYTES, number);
    send_made(sink, made)
}
