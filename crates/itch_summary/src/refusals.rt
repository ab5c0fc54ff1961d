//! How many messages of each stock were refused.
ghost use Rattle.std.specs.Prelude.{◌≡◌, IfOk};
ghost use Rattle.itch_summary.specs.RefusedCounts.{AreCounts};

use day_replay::RefusedMessage;
use itch_table::LOCATES;
use std::alloc::{AllocError, Allocator};

/// By locate code, how many of these refused messages are each stock's, of 2^16 codes in all.
pub(crate) fn refused_counts<A: Allocator + Copy>(
    alloc: A,
    refused: &[RefusedMessage],
) -> Result<Vec<usize, A>, AllocError>
    ensures { IfOk result (λ counts. AreCounts refused.now counts.items) }
{
    let mut counts = vec![in alloc; 0usize; LOCATES]?;
    for message in refused {
        if let Some(locate) = message.locate {
            counts[locate as usize] += 1;
        }
    }
    Ok(counts)
}
