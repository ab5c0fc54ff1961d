//! A stock before one of a day file's messages.
ghost use Rattle.std.specs.Prelude.{◌≡◌, ◌+◌, ◌-◌, ◌<◌, ◌≤◌, ◌^◌, ◌↔◌, IfErr, IfOk, IfSome, IsErrOf, List, [], ℕ};
ghost use Rattle.binaryfile.specs.Devices.{GaveUpTo, HasFailed};
ghost use Rattle.itch_readings.specs.Noting.{HasTaken};
ghost use Rattle.itch_readings.specs.declared.naming.StockName.{StockName};
ghost use Rattle.itch_readings.specs.declared.naming.StockName.TheVariants.{Locate};
ghost use Rattle.itch_show.specs.Before.{HasTakenOwn, IsBefore};
ghost use Rattle.engine_rules.specs.FaultOrigins.{fault_of_load};
ghost use Rattle.itch_show.specs.Parts.{Exceeds, GavePart};

use crate::place::Place;
use crate::reading::read_up_to;
use binaryfile::{Feed, Limits, LoadFault};
use itch_readings::{Noted, Notes, StockName};
use itch_table::locates_are_parts;
use std::alloc::Allocator;
use std::io::Read;
use stock_machine::Stock;

// The machine of the stock that was looked for by its locate code, and the notes of its messages: of none where it has none.
fn own_parts<A: Allocator + Copy, N: Notes + Drop>(
    alloc: A,
    locate: u16,
    noted: Noted<A, N>,
) -> (Stock<A>, N)
    ensures { (first : N) (day : List (List ℕ)) (name : StockName) → name ≡ Locate locate
        → HasTaken N.noted first day name noted.search noted.messages noted.stock noted.notes
        → HasTakenOwn N.noted first day locate result.0 result.1 }
{
    // A law that the proof cites: it does nothing.
    locates_are_parts();
    let Noted { stock, notes, .. } = noted;
    match stock {
        Some(stock) => (stock, notes),
        None => (Stock::new(alloc, locate), notes),
    }
}

/// Reads a day file up to message `number`, counted from 1, and gives the machine of the stock with this locate code before
/// that message, and notes of the stock's messages up to there; `notes` are those of none. None where the file gave fewer
/// messages than come before it. The faults are those of [`read_up_to`].
///
/// [`read_up_to`]: crate::read_up_to
pub fn stock_before<A: Allocator + Copy, R: Read, N: Notes + Drop>(
    alloc: A,
    feed: &mut Feed<R>,
    limits: Limits,
    segment: u32,
    locate: u16,
    number: u32,
    notes: N,
) -> Result<Option<(Stock<A>, N)>, LoadFault>
    requires none { N.noted notes notes [] }
    requires some { 0 < number }
    requires bytes { limits.bytes ≤ 2 ^ 40 }
    requires segment { (0 < segment) × (segment ≤ 2 ^ 30) }
    ensures stock { IfOk result (λ found.
        GavePart (R.remaining feed.old.device) (R.remaining feed.new.device)
        (IsBefore N.noted notes locate number found)) }
    ensures machine { IfOk result (λ found. IfSome found (λ parts.
        (parts.0.locate ≡ locate) × (parts.0.steps < 2 ^ 32 - 1))) }
    ensures fault { IfErr result (λ fault.
        GavePart (R.remaining feed.old.device) (R.remaining feed.new.device)
        (Exceeds limits (fault_of_load fault))) }
    ensures failed { IsErrOf result LoadFault.Read ↔ HasFailed feed.new }
    ensures for_good { HasFailed feed.old → feed.new ≡ feed.old }
    ensures taken { GaveUpTo (R.remaining feed.old.device) (R.remaining feed.new.device) (limits.bytes + 1) }
{
    if feed.failed() {
        return Err(LoadFault::Read);
    }
    let before = number - 1;
    let mut noted = Noted::new(alloc, StockName::Locate(locate), notes)?;
    let last = read_up_to(
        alloc,
        feed,
        limits,
        segment,
        &Place::After(before),
        &mut noted,
    )?;
    if last.number < before {
        return Ok(None);
    }
    Ok(Some(own_parts(alloc, locate, noted)))
}
