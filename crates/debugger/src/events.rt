//! The system events of a day.
ghost use Rattle.std.specs.Prelude.{◌≡◌, ◌≤◌, IfOk, length};
ghost use Rattle.itch_layouts.specs.Shapes.{shape_of};
ghost use Rattle.itch_table.specs.After.{after};
ghost use Rattle.debugger.specs.Sessions.{is_system, systems_of};

use crate::finding::latest_until;
use binaryfile::Day;
use checkpoints::numbers_where;
use day_core::event_after;
use itch_layouts::{Msg, Shape, read_msg};
use itch_table::{Part, part};
use std::alloc::{AllocError, Allocator};

// Whether a payload is a system event message. Such a message is of no stock, as few are, and only these are read.
#[tactic(auto, using(crate::proofs::Shown::of_stock_no_system))]
fn is_system(payload: &[u8]) -> bool
    ensures { result ≡ is_system (shape_of payload.now) }
{
    matches!(part(payload), Part::Nowhere(_))
        && matches!(read_msg(payload), Shape::Known(Msg::System(_, _)))
}

/// The system event messages of a day, by their numbers, rising.
pub fn systems_of<A: Allocator + Copy>(alloc: A, day: &Day<A>) -> Result<Vec<u32, A>, AllocError>
    ensures { IfOk result (λ systems. systems.items ≡ systems_of day.now.payloads) }
{
    numbers_where(alloc, day, is_system)
}

/// The event code of the last system event message among the first `n` messages of a day, by the numbers of all of
/// them.
pub fn event_at<A: Allocator>(day: &Day<A>, systems: &[u32], n: u32) -> Option<u8>
    requires systems { systems.now ≡ systems_of day.now.payloads }
    requires within { n ≤ length day.now.payloads }
    ensures { result ≡ (after day.now.payloads n).event }
{
    event_after(day.payload(latest_until(systems, n)?), None)
}
