//! The engine that loads a day file and replays it, with a gate.
ghost use Rattle.std.specs.Prelude.{◌≡◌, ◌-◌, ◌<◌, ◌≤◌, ◌^◌, Err, IfOk, IfErr, count_by, length};
ghost use Rattle.binaryfile.specs.Loading.{HasMoreMessages};
ghost use Rattle.itch_table.specs.After.{outcomes};
ghost use Rattle.day_replay.specs.Summaries.{is_passed, refused_of};
ghost use Rattle.file_replay.specs.Files.{IsFileSummary};
ghost use Rattle.engine_rules.specs.Runs.{Fails, Runs};
ghost use Rattle.itch_engine.specs.ReplayEngines.{Replays, replayer};

use crate::report::file::{Report, report_of};
use binaryfile::{Day, Feed, Sink, read_to_end, send};
use day_replay::{RefusedMessage, Summary};
use engine_rules::ProgFault;
use engine_rules::limits::{MOST_FILE_BYTES, MOST_MESSAGES};
use file_replay::FileSummary;
use itch_table::Outcome;
use std::alloc::{AllocError, Allocator};
use std::io::{Read, Write};
use std::sync::Wait;
use std::thread::Threads;
use stock_workers::{Gate, RunFault, run};
use top_cell::Board;

// How many of these outcomes are of messages that were passed over.
fn passed_among(found: &[Outcome]) -> u32
    requires { length found.now < 2 ^ 32 }
    ensures { result ≡ count_by is_passed found.now }
{
    let mut passed = 0;
    for outcome in found {
        if let Outcome::Passed = outcome {
            passed += 1;
        }
    }
    passed
}

// The refused ones of the messages of a day, whose outcomes these are, by rising number.
fn refused_among<A: Allocator + Copy>(
    alloc: A,
    day: &Day<A>,
    found: &[Outcome],
) -> Result<Vec<RefusedMessage, A>, AllocError>
    requires few { length found.now < 2 ^ 32 }
    requires are { found.now ≡ outcomes day.now.payloads }
    ensures { IfOk result (λ refused. refused.items ≡ refused_of day.now.payloads) }
{
    let mut refused = Vec::new(alloc);
    for (before, outcome) in found.iter().enumerate() {
        if let Outcome::Refused(_) = outcome {
            let message = before as u32 + 1;
            refused.push(RefusedMessage::of(message, day.payload(message), *outcome))?;
        }
    }
    Ok(refused)
}

// What a day makes, replayed by this many workers on a board of its own, which call the gate before each message.
fn replay_day<R: Threads + Wait + Sync, A: Allocator + Copy + Send + Sync, G: Gate>(
    rt: &R,
    alloc: A,
    day: &Day<A>,
    workers: u32,
    gate: &G,
) -> Result<FileSummary<A>, AllocError>
    requires { (0 < workers) × (workers ≤ 64) }
    ensures { IfOk result (λ made. IsFileSummary day.now made) }
{
    let (board, writers) = Board::new(alloc, day)?;
    let made = match run(rt, alloc, day, &board, writers, workers, gate) {
        Ok(made) => made,
        Err(RunFault::Memory) => return Err(AllocError),
        Err(RunFault::Workers) => unreachable!(),
    };
    Ok(FileSummary {
        summary: Summary {
            messages: day.len(),
            passed: passed_among(&made.outcomes),
            refused: refused_among(alloc, day, &made.outcomes)?,
            stocks: made.stocks,
            event: made.event,
        },
        marked: day.marked(),
        tail: day.tail().len() as u64,
    })
}

/// The report of a file, and how many of its messages are refused.
pub(crate) fn report_of_file<R: Threads + Wait + Sync, A: Allocator + Copy + Send + Sync, G: Gate>(
    rt: &R,
    alloc: A,
    input: Vec<u8, A>,
    workers: u32,
    gate: &G,
) -> Result<Report<A>, ProgFault>
    requires { (0 < workers) × (workers ≤ 64) }
    ensures report { IfOk result (λ report. Replays input.items report.text.items report.refused) }
    ensures fault { IfErr result (Fails replayer input.items) }
    // Whatever memory is left.
    ensures judged { HasMoreMessages input.items (2 ^ 32 - 1) → result ≡ Err ProgFault.TooManyMessages }
{
    let day = Day::from_bytes(alloc, input, MOST_MESSAGES)?;
    let made = replay_day(rt, alloc, &day, workers, gate)?;
    Ok(report_of(alloc, &made)?)
}

/// Reads a day file, replays it and writes the report. Returns how many messages were refused.
///
/// The whole file is read before it is judged, and the whole report is made in memory before it is sent. After
/// [`ProgFault::Write`] the bytes that were taken are a prefix of the report; after another fault none was sent.
/// [`ProgFault::Read`] comes exactly where the feed has failed, [`ProgFault::TooManyBytes`] above
/// [`MOST_FILE_BYTES`] bytes, and [`ProgFault::TooManyMessages`] above [`MOST_MESSAGES`] messages. The report is the
/// same for every number of workers, from 1 to 64: each replays the messages of its stocks in a thread of its own, calls
/// the gate before each of them, and may wait there. Where no thread can be made, the work is done all the same.
///
/// ```text
/// let mut feed = Feed::new(file);
/// let mut sink = Sink::new(output);
/// let refused = replay_run(rt, rt.alloc(), &mut feed, &mut sink, 1, &FreeGate)?;
/// ```
pub fn replay_run<
    T: Threads + Wait + Sync,
    A: Allocator + Copy + Send + Sync,
    R: Read,
    W: Write,
    G: Gate,
>(
    rt: &T,
    alloc: A,
    feed: &mut Feed<R>,
    sink: &mut Sink<W>,
    workers: u32,
    gate: &G,
) -> Result<u32, ProgFault>
    requires { (0 < workers) × (workers ≤ 64) }
    ensures { Runs replayer R.remaining W.contents feed.old feed.new sink.old sink.new result }
{
    let input = read_to_end(alloc, feed, MOST_FILE_BYTES)?;
    let report = report_of_file(rt, alloc, input, workers, gate)?;
    send(sink, &report.text)?;
    Ok(report.refused)
}
