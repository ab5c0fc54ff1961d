//! The cells of the tests.
ghost use Rattle.std.specs.Prelude.{IfOk};
ghost use Rattle.test_top_cell.specs.Showing.{AreInStep};

use binaryfile::Day;
use itch_table::Plain;
use std::alloc::Allocator;
use std::test::Fail;
use test_support::same;
use top_cell::{Board, TopWriter};

/// The board of a day of one stock, the writer of its only cell, and a machine, all before the first message.
pub fn only_cell<A: Allocator + Copy>(
    alloc: A,
    day: &Day<A>,
) -> Result<(Board<A>, TopWriter, Plain<A>), Fail>
    ensures { IfOk result (λ made. AreInStep day.now.payloads made.0 made.2 made.1) }
{
    // For the proof alone: it says that the day has fewer than 2^32 messages.
    let _few = day.payloads();
    let (board, mut writers) = Board::new(alloc, day)?;
    let Some(writer) = writers.pop() else {
        return Err(Fail::new("no cell"));
    };
    same("how many cells more", &writers.len(), &0)?;
    Ok((board, writer, Plain::new(alloc)))
}
