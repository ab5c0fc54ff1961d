//! The engine that replays a day file while it reads it.
ghost use Rattle.std.specs.Prelude.{◌≡◌, ◌+◌, ◌<◌, ◌≤◌, ◌^◌, ◌↔◌, IfErr, IfOk, IsErrOf};
ghost use Rattle.binaryfile.specs.Devices.{GaveUpTo, HasFailed};
ghost use Rattle.engine_rules.specs.declared.limits.TheConstants.{MOST_FILE_BYTES};
ghost use Rattle.engine_rules.specs.Runs.{HasMade, Runs, StopsReading};
ghost use Rattle.itch_engine.specs.ReplayEngines.{replayer};

use crate::report::file::{Report, report_of};
use binaryfile::{Feed, Sink, send};
use engine_rules::ProgFault;
use engine_rules::limits::{FILE_LIMITS, MOST_FILE_BYTES};
use file_replay::{Progress, replay_file};
use std::alloc::Allocator;
use std::io::{Read, Write};
use std::thread::Threads;
use worker_count::WorkerCount;

// The report of a file that is replayed while it is read, and how many of its messages are refused.
fn report_of_feed<T, A, R, P>(
    rt: &T,
    alloc: A,
    feed: &mut Feed<R>,
    segment: u32,
    threads: WorkerCount,
    progress: &P,
) -> Result<Report<A>, ProgFault>
where
    T: Threads + Sync,
    A: Allocator + Copy + Send + Sync,
    R: Read + Send,
    P: Progress,
    requires segment { (0 < segment) × (segment ≤ 2 ^ 30) }
    ensures report { IfOk result (λ report. HasMade replayer
        (R.remaining feed.old.device) (R.remaining feed.new.device) report.text.items report.refused) }
    ensures fault { IfErr result (
        StopsReading replayer (R.remaining feed.old.device) (R.remaining feed.new.device)) }
    // Whatever the result, no more is taken from the reader than the limit and one byte.
    ensures taken { GaveUpTo (R.remaining feed.old.device) (R.remaining feed.new.device)
        (MOST_FILE_BYTES + 1) }
    ensures failed { IsErrOf result ProgFault.Read ↔ HasFailed feed.new }
    ensures for_good { HasFailed feed.old → feed.new ≡ feed.old }
{
    let file = replay_file(rt, alloc, feed, FILE_LIMITS, segment, threads, progress)?;
    Ok(report_of(alloc, &file)?)
}

/// Replays a day file while it is read, and writes the report, the same that [`replay_run`] writes. Returns how many
/// messages were refused.
///
/// `segment` is how many bytes a segment takes, 1 to 2^30. `threads` threads replay up to 16 segments together, while one
/// more reads the next ones; where none can be made, the work is done all the same. In memory are a segment, copies of the
/// messages of those that are dealt and of those that are replayed, what the stocks need, and the refused messages.
/// Each time that segments were replayed `progress` is told how far it is.
///
/// The file is read to its end before anything is written, and the whole report is made in memory before it is sent.
/// After [`ProgFault::Write`] the bytes that were taken are a prefix of the report; after another fault none was sent.
/// [`ProgFault::Read`] comes exactly where the feed has failed, [`ProgFault::TooManyBytes`] above [`MOST_FILE_BYTES`]
/// bytes, and [`ProgFault::TooManyMessages`] above 2^32 - 1 messages, once the whole input was read.
///
/// ```text
/// let mut feed = Feed::new(file);
/// let mut sink = Sink::new(output);
/// let (segment, threads) = (day_segments::SEGMENT_BYTES, WorkerCount::ONE);
/// let refused = report_run(rt, rt.alloc(), &mut feed, &mut sink, segment, threads, &Silent)?;
/// ```
///
/// [`replay_run`]: crate::replay_run
pub fn report_run<T, A, R, W, P>(
    rt: &T,
    alloc: A,
    feed: &mut Feed<R>,
    sink: &mut Sink<W>,
    segment: u32,
    threads: WorkerCount,
    progress: &P,
) -> Result<u32, ProgFault>
where
    T: Threads + Sync,
    A: Allocator + Copy + Send + Sync,
    R: Read + Send,
    W: Write,
    P: Progress,
    requires segment { (0 < segment) × (segment ≤ 2 ^ 30) }
    ensures { Runs replayer R.remaining W.contents feed.old feed.new sink.old sink.new result }
{
    let report = report_of_feed(rt, alloc, feed, segment, threads, progress)?;
    send(sink, &report.text)?;
    Ok(report.refused)
}
