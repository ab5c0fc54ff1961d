//! What became of a message.
ghost use Rattle.std.specs.Prelude.{◌≡◌, ◌≤◌, IfOk, length};
ghost use Rattle.itch_table.specs.After.{outcome_at};

use crate::tracks::Tracks;
use binaryfile::Day;
use itch_table::{Outcome, Part, part};
use std::alloc::{AllocError, Allocator};

/// What became of message `n` of a day, none where it is 0: by the machine of the message's stock just before it, or
/// where the message is of no stock as in every day.
pub fn outcome_at<A: Allocator + Copy>(
    alloc: A,
    day: &Day<A>,
    tracks: &mut Tracks<'_, A>,
    n: u32,
) -> Result<Option<Outcome>, AllocError>
    requires within { n ≤ length day.now.payloads }
    requires tracks { tracks.old.day ≡ day.now.payloads }
    ensures outcome { IfOk result (λ outcome. outcome ≡ outcome_at day.now.payloads n) }
    ensures tracks { tracks.new ≡ tracks.old }
{
    if n == 0 {
        return Ok(None);
    }
    let payload = day.payload(n);
    match part(payload) {
        Part::Nowhere(outcome) => Ok(Some(outcome)),
        Part::Locate(locate) => {
            let mut stock = tracks.stock_at(alloc, locate, n - 1)?;
            let outcome = stock.step(payload)?;
            Ok(Some(outcome))
        }
    }
}
