//! The lines of a report that speak of messages.
ghost use Rattle.std.specs.Prelude.{◌≡◌, ◌++◌, List, OnOk};
ghost use Rattle.std.specs.List.{flat_map};
ghost use Rattle.byte_strings.specs.Extending.{Extends};
ghost use Rattle.binaryfile.specs.Entries.{Contents};
ghost use Rattle.itch_table.specs.After.{outcomes};
ghost use Rattle.itch_table.specs.declared.outcome.Outcome.{Outcome};
ghost use Rattle.file_replay.specs.Files.{IsFileSummary};
ghost use Rattle.itch_engine.specs.Report.{counts, file_line, mark, refused_line};
ghost use Rattle.itch_engine.specs.Tallies.{IsTally};

use day_replay::RefusedMessage;
use file_replay::FileSummary;
use itch_table::Outcome;
use std::alloc::{AllocError, Allocator};
use text_fields::{put_count, put_quoted_byte};

/// How many messages a file has, and how many of them were applied, passed over and refused.
#[derive(Clone, Copy)]
pub(crate) struct Tally {
    pub messages: u32,
    pub applied: u32,
    pub passed: u32,
    pub refused: u32,
}

/// Counts what became of the messages of a file, by what it makes.
pub(crate) fn tally_of<A: Allocator>(file: &FileSummary<A>) -> Tally
    requires { (contents : Contents) × IsFileSummary contents file.now }
    ensures { (contents : Contents) → IsFileSummary contents file.now
        → IsTally (outcomes contents.payloads) result }
{
    let messages = file.summary.messages;
    let passed = file.summary.passed;
    let refused = file.summary.refused.len() as u32;
    Tally {
        messages,
        applied: messages - passed - refused,
        passed,
        refused,
    }
}

// Adds the line of a message, where it was refused.
fn put_refused<A: Allocator>(
    text: &mut Vec<u8, A>,
    refused: RefusedMessage,
) -> Result<(), AllocError>
    ensures { Extends text.old text.new (refused_line refused.message refused.outcome) result }
{
    if let Outcome::Refused(fault) = refused.outcome {
        put_count(text, b"message ", refused.message)?;
        put_count(text, b" refused F", fault.number())?;
        text.push(b'\n')?;
    }
    Ok(())
}

/// Adds the lines of the refused messages of a file.
pub(crate) fn put_refused_lines<A: Allocator>(
    text: &mut Vec<u8, A>,
    refused: &[RefusedMessage],
) -> Result<(), AllocError>
    ensures { Extends text.old text.new
        (flat_map (λ r. refused_line r.message r.outcome) refused.now) result }
{
    for message in refused {
        put_refused(text, *message)?;
    }
    Ok(())
}

// Adds how many messages there are, and how many became what.
fn put_counts<A: Allocator>(text: &mut Vec<u8, A>, tally: Tally) -> Result<(), AllocError>
    ensures { (found : List Outcome) → IsTally found tally → Extends text.old text.new (counts found) result }
{
    put_count(text, b"messages ", tally.messages)?;
    put_count(text, b" applied ", tally.applied)?;
    put_count(text, b" passed ", tally.passed)?;
    put_count(text, b" refused ", tally.refused)
}

// Adds whether the file has an end marker.
fn put_mark<A: Allocator>(text: &mut Vec<u8, A>, marked: bool) -> Result<(), AllocError>
    ensures { Extends text.old text.new (mark marked) result }
{
    if marked {
        text.extend_from_slice(b" marked yes")
    } else {
        text.extend_from_slice(b" marked no")
    }
}

/// Adds the line of the whole file: its messages, its mark, the length of its tail and the last event.
pub(crate) fn put_file_line<A: Allocator>(
    text: &mut Vec<u8, A>,
    tally: Tally,
    marked: bool,
    tail_length: u64,
    event: Option<u8>,
) -> Result<(), AllocError>
    ensures { (found : List Outcome) → IsTally found tally
        → Extends text.old text.new (file_line found marked tail_length event) result }
{
    put_counts(text, tally)?;
    put_mark(text, marked)?;
    put_count(text, b" tail ", tail_length)?;
    text.extend_from_slice(b" event ")?;
    put_quoted_byte(text, event)?;
    text.push(b'\n')?;
    Ok(())
}
