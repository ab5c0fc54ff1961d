//! A stock at a place of a day file, and the outcome of the last message before the place.
ghost use Rattle.std.specs.Prelude.{◌≡◌, ◌+◌, ◌<◌, ◌≤◌, ◌^◌, ◌++◌, ◌↔◌, ◌⊎◌, IfErr, IfOk, IsErrOf, IsOk, List, MatchOption, length, ℕ};
ghost use Rattle.binaryfile.specs.Devices.{GaveUpTo, HasFailed};
ghost use Rattle.itch_readings.specs.Noting.{HasTaken};
ghost use Rattle.itch_table.specs.Parts.{part};
ghost use Rattle.itch_table.specs.Projection.{payload_at};
ghost use Rattle.itch_table.specs.declared.outcome.Part.{Part};
ghost use Rattle.engine_rules.specs.FaultOrigins.{fault_of_load};
ghost use Rattle.itch_show.specs.Parts.{Exceeds, GavePart, HasReadUpTo, StopsAt};
ghost use Rattle.itch_show.specs.Shown.{HasOutcome, IsKnownAt, IsLastOf, IsShownAfter, StandsForNone, StartsWith, last_noted};

use crate::before::stock_before;
use crate::last_outcome::LastOutcome;
use crate::place::Place;
use crate::reading::{LastMessage, read_up_to};
use binaryfile::{Feed, Limits, LoadFault};
use itch_readings::{Noted, StockName};
use itch_table::{Outcome, Part, locates_are_parts, part, stocks_are_independent};
use std::alloc::Allocator;
use std::io::Read;
use stock_machine::Stock;

/// The last message before a place, and the machine of the stock that a name stands for, with the stock's last message; none
/// where the name stands for none.
#[derive(Drop)]
pub(crate) struct StockAtPlace<A: Allocator> {
    pub last: LastMessage<A>,
    pub stock: Option<(Stock<A>, LastOutcome)>,
}

// The machine of the stock that a name stands for, and its last message, by what was noted of a day under the name.
fn stock_of<A: Allocator + Copy>(
    alloc: A,
    noted: Noted<A, LastOutcome>,
    name: StockName,
) -> Option<(Stock<A>, LastOutcome)>
    ensures { (first : LastOutcome) (day : List (List ℕ))
        → HasTaken (λ _ now messages. now ≡ last_noted messages) first day name
        noted.search noted.messages noted.stock noted.notes
        → MatchOption result (StandsForNone day name) (λ found. IsShownAfter day name found.0 found.1) }
{
    // A law that the proof cites: it does nothing.
    locates_are_parts();
    if let Some(found) = noted.into_parts() {
        return Some(found);
    }
    match name {
        StockName::Locate(locate) => Some((Stock::new(alloc, locate), LastOutcome::of_none())),
        StockName::Symbol(_) => None,
    }
}

/// Reads a day file up to a place, for the stock of a name. Its faults are those of [`read_up_to`].
pub(crate) fn stock_at_place<A: Allocator + Copy, R: Read>(
    alloc: A,
    feed: &mut Feed<R>,
    limits: Limits,
    segment: u32,
    name: StockName,
    place: &Place,
) -> Result<StockAtPlace<A>, LoadFault>
    requires bytes { limits.bytes ≤ 2 ^ 40 }
    requires segment { (0 < segment) × (segment ≤ 2 ^ 30) }
    ensures read { IfOk result (λ found.
        HasReadUpTo (R.remaining feed.old.device) (R.remaining feed.new.device)
        limits place.now found.last.number found.last.payload.items (λ day.
        MatchOption found.stock (StandsForNone day name) (λ stock. IsShownAfter day name stock.0 stock.1))) }
    ensures needed { IsOk result
        → StopsAt place.now segment (R.remaining feed.old.device) (R.remaining feed.new.device) }
    ensures fault { IfErr result (λ fault.
        GavePart (R.remaining feed.old.device) (R.remaining feed.new.device)
        (Exceeds limits (fault_of_load fault))) }
    ensures failed { IsErrOf result LoadFault.Read ↔ HasFailed feed.new }
    ensures for_good { HasFailed feed.old → feed.new ≡ feed.old }
    ensures taken { GaveUpTo (R.remaining feed.old.device) (R.remaining feed.new.device) (limits.bytes + 1) }
{
    if feed.failed() {
        return Err(LoadFault::Read);
    }
    let mut noted = Noted::new(alloc, name, LastOutcome::of_none())?;
    let last = read_up_to(alloc, feed, limits, segment, place, &mut noted)?;
    let stock = stock_of(alloc, noted, name);
    Ok(StockAtPlace { last, stock })
}

// The outcome of the last message before a place, which is of the stock with this locate code, by reading the file once more;
// none where that gave fewer messages than come before it.
fn outcome_again<A: Allocator + Copy, S: Read>(
    alloc: A,
    again: &mut Feed<S>,
    limits: Limits,
    segment: u32,
    locate: u16,
    last: &LastMessage<A>,
) -> Result<Option<Outcome>, LoadFault>
    requires some { 0 < last.now.number }
    requires own { part last.now.payload.items ≡ Part.Locate locate }
    requires bytes { limits.bytes ≤ 2 ^ 40 }
    requires segment { (0 < segment) × (segment ≤ 2 ^ 30) }
    ensures outcome { IfOk result (λ found.
        GavePart (S.remaining again.old.device) (S.remaining again.new.device)
        (HasOutcome last.now.number last.now.payload.items found)) }
    ensures fault { IfErr result (λ fault.
        GavePart (S.remaining again.old.device) (S.remaining again.new.device)
        (Exceeds limits (fault_of_load fault))) }
    ensures failed { IsErrOf result LoadFault.Read ↔ HasFailed again.new }
    ensures for_good { HasFailed again.old → again.new ≡ again.old }
    ensures taken { GaveUpTo (S.remaining again.old.device) (S.remaining again.new.device)
        (limits.bytes + 1) }
{
    // A law that the proof cites: it does nothing.
    stocks_are_independent();
    let none = LastOutcome::of_none();
    let before = stock_before(alloc, again, limits, segment, locate, last.number, none)?;
    let Some((mut stock, _)) = before else {
        return Ok(None);
    };
    let outcome = stock.step(&last.payload)?;
    Ok(Some(outcome))
}

/// What became of the last message before a place, `Some(None)` where there is none, where a stock's last message is known; the
/// file is read once more where the message is another stock's. None where that gave fewer messages than come before it. The
/// faults are those of [`read_up_to`] over `again`.
pub(crate) fn last_outcome<A: Allocator + Copy, S: Read>(
    alloc: A,
    again: &mut Feed<S>,
    limits: Limits,
    segment: u32,
    noted: LastOutcome,
    last: &LastMessage<A>,
) -> Result<Option<Option<Outcome>>, LoadFault>
    requires bytes { limits.bytes ≤ 2 ^ 40 }
    requires segment { (0 < segment) × (segment ≤ 2 ^ 30) }
    ensures outcome { IfOk result (λ found. (day : List (List ℕ)) → last.now.number ≡ length day
        → last.now.payload.items ≡ payload_at day (length day) → IsLastOf day noted
        → GavePart (S.remaining again.old.device) (S.remaining again.new.device)
        (λ _ file. StartsWith day file.payloads → IsKnownAt file.payloads (length day) found)) }
    ensures fault { IfErr result (λ fault.
        GavePart (S.remaining again.old.device) (S.remaining again.new.device)
        (Exceeds limits (fault_of_load fault))) }
    ensures failed { IsErrOf result LoadFault.Read → HasFailed again.new }
    ensures fails { HasFailed again.new → (HasFailed again.old ⊎ IsErrOf result LoadFault.Read) }
    ensures for_good { HasFailed again.old → again.new ≡ again.old }
    ensures taken { GaveUpTo (S.remaining again.old.device) (S.remaining again.new.device)
        (limits.bytes + 1) }
{
    if last.number == 0 {
        return Ok(Some(None));
    }
    if noted.number == last.number {
        return Ok(Some(Some(noted.outcome)));
    }
    let locate = match part(&last.payload) {
        Part::Nowhere(outcome) => return Ok(Some(Some(outcome))),
        Part::Locate(locate) => locate,
    };
    match outcome_again(alloc, again, limits, segment, locate, last)? {
        Some(outcome) => Ok(Some(Some(outcome))),
        None => Ok(None),
    }
}
