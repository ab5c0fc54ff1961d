//! The summary of a file, by what the file makes.
ghost use Rattle.std.specs.Prelude.{◌≡◌, ◌++◌, IfOk, List, length};
ghost use Rattle.std.specs.List.{flat_map};
ghost use Rattle.byte_strings.specs.Extending.{Extends};
ghost use Rattle.binaryfile.specs.Entries.{Contents};
ghost use Rattle.day_replay.specs.declared.refusals.RefusedMessage.{RefusedMessage};
ghost use Rattle.file_replay.specs.Files.{IsFileSummary};
ghost use Rattle.itch_summary.specs.RefusedCounts.{AreCounts};
ghost use Rattle.itch_summary.specs.Summaries.{machine_line, summary_of_day};

use crate::lines::{put_field_names, put_line};
use crate::refusals::refused_counts;
use file_replay::FileSummary;
use std::alloc::{AllocError, Allocator};
use stock_machine::Stock;

// Adds the lines of these stocks, by how many messages of each stock were refused.
fn put_lines<A: Allocator + Copy>(
    alloc: A,
    text: &mut Vec<u8, A>,
    stocks: &[Stock<A>],
    counts: &[usize],
) -> Result<(), AllocError>
    requires { length counts.now ≡ 0x1_0000 }
    ensures { (refused : List RefusedMessage) → AreCounts refused counts.now
        → Extends text.old text.new (flat_map (machine_line refused) stocks.now) result }
{
    for stock in stocks {
        let refused = counts[stock.locate() as usize];
        put_line(alloc, text, stock, refused)?;
    }
    Ok(())
}

/// The summary of a file, by what the file makes.
pub(crate) fn summary_of<A: Allocator + Copy>(
    alloc: A,
    file: &FileSummary<A>,
) -> Result<Vec<u8, A>, AllocError>
    ensures { IfOk result (λ text. (contents : Contents) → IsFileSummary contents file.now
        → text.items ≡ summary_of_day contents.payloads) }
{
    let counts = refused_counts(alloc, &file.summary.refused)?;
    let mut text = Vec::new(alloc);
    put_field_names(&mut text)?;
    put_lines(alloc, &mut text, &file.summary.stocks, &counts)?;
    Ok(text)
}
