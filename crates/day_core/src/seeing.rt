//! The stocks that have messages in a day.
ghost use Rattle.std.specs.Prelude.{◌≡◌, IfOk};
ghost use Rattle.itch_table.specs.Shows.{locates_of_day};

use binaryfile::Day;
use itch_table::{LOCATES, Part, part};
use std::alloc::{AllocError, Allocator};

/// The locate codes of the stocks that have messages in a day, rising. They are found by the calling thread.
pub fn locates<A: Allocator + Copy>(alloc: A, day: &Day<A>) -> Result<Vec<u16, A>, AllocError>
    ensures { IfOk result (λ locates. locates.items ≡ locates_of_day day.now.payloads) }
{
    let mut seen = vec![in alloc; false; LOCATES]?;
    for before in 0..day.len() {
        if let Part::Locate(locate) = part(day.payload(before + 1)) {
            seen[usize::from(locate)] = true;
        }
    }
    let mut locates = Vec::new(alloc);
    for (locate, is_seen) in seen.iter().enumerate() {
        if *is_seen {
            locates.push(locate as u16)?;
        }
    }
    Ok(locates)
}
