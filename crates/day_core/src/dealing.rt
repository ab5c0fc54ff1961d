//! The messages of a day, dealt to the workers of its stocks.
ghost use Rattle.std.specs.Prelude.{◌≡◌, ◌<◌, ◌^◌, [], IfOk, length, map, slice_index_or};
ghost use Rattle.itch_layouts.specs.Shapes.{shape_of};
ghost use Rattle.itch_table.specs.Parts.{part};
ghost use Rattle.itch_table.specs.Projection.{event_with};
ghost use Rattle.day_core.specs.Splitting.{ArePartsOf};

use crate::merging::Piece;
use crate::ordering::{empty_lists, give};
use crate::parts::Parts;
use crate::seeing::locates;
use binaryfile::Day;
use itch_layouts::{Msg, Shape, read_msg};
use itch_table::{Part, part};
use rayon::prelude::*;
use std::alloc::{AllocError, Allocator};
use std::thread::Threads;
use worker_count::WorkerCount;

// How many messages one thread looks at in a row, at least.
const MANY: usize = 1 << 12;

/// The event code of the last system event message up to a payload, given that of the messages before the payload.
pub fn event_after(payload: &[u8], before: Option<u8>) -> Option<u8>
    ensures { result ≡ event_with (shape_of payload.now) before }
{
    match read_msg(payload) {
        Shape::Known(Msg::System(_, message)) => Some(message.event),
        _ => before,
    }
}

/// Whose each message of a day is, found by several threads.
pub(crate) fn whose_messages<R: Threads + Sync, A: Allocator + Copy + Send + Sync>(
    rt: &R,
    alloc: A,
    day: &Day<A>,
) -> Result<Vec<Part, A>, AllocError>
    ensures { IfOk result (λ whose. whose.items ≡ map part day.now.payloads) }
{
    (0..day.len())
        .into_par_iter()
        .with_min_len(MANY)
        .map(
            |before: u32| -> Part
                requires { (before < length day.now.payloads) × (length day.now.payloads < 2 ^ 32) }
                ensures { result ≡ part (slice_index_or day.entry.now.payloads before []) }
            { part(day.payload(before + 1)) },
        )
        .collect(rt, alloc)
}

/// The parts of a day of which it is known whose each message is.
pub(crate) fn deal<A: Allocator + Copy>(
    alloc: A,
    day: &Day<A>,
    whose: &[Part],
    workers: WorkerCount,
) -> Result<Parts<A>, AllocError>
    requires { whose.now ≡ map part day.now.payloads }
    ensures parts { IfOk result (ArePartsOf day.now.payloads) }
    ensures workers { IfOk result (λ parts. parts.workers ≡ workers) }
{
    let count = workers.get();
    let mut own = empty_lists(alloc, count)?;
    let mut fixed = Vec::new(alloc);
    let mut event = None;
    for before in 0..day.len() {
        let message = before + 1;
        match whose[before as usize] {
            Part::Locate(locate) => {
                give(&mut own, u32::from(locate) % count, message)?;
            }
            Part::Nowhere(outcome) => {
                fixed.push(Piece { message, outcome })?;
                event = event_after(day.payload(message), event);
            }
        }
    }
    Ok(Parts {
        workers,
        locates: locates(alloc, day)?,
        own,
        fixed,
        event,
    })
}
