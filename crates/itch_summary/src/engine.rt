//! The engine that writes the summary of a day file.
ghost use Rattle.std.specs.Prelude.{◌≡◌, ◌+◌, ◌<◌, ◌≤◌, ◌^◌, ◌↔◌, IfErr, IfOk, IsErrOf};
ghost use Rattle.binaryfile.specs.Devices.{GaveUpTo, HasFailed};
ghost use Rattle.day_segments.specs.Reading.{Stops};
ghost use Rattle.engine_rules.specs.Runs.{Runs};
ghost use Rattle.itch_summary.specs.Engines.{GaveSummarized, summary_printer};

use crate::summary::summary_of;
use binaryfile::{Feed, Limits, LoadFault, Sink, send};
use day_segments::SEGMENT_BYTES;
use engine_rules::ProgFault;
use engine_rules::limits::FILE_LIMITS;
use file_replay::{Silent, replay_file};
use std::alloc::Allocator;
use std::io::{Read, Write};
use std::thread::Threads;
use worker_count::WorkerCount;

/// The text that [`summary_run`] writes, of a file within the limits. `segment` is how many bytes a segment takes, 1 to
/// 2^30.
///
/// In the course of reading the first of these is returned: [`LoadFault::Read`] where the feed fails (at once, and with no
/// memory, where it had failed before), [`LoadFault::Memory`] where memory is refused, [`LoadFault::TooManyBytes`] where
/// the reader gave more than `limits.bytes` bytes, which are no more than 2^40, and [`LoadFault::TooManyMessages`], once
/// the whole input was read, where it has more than `limits.messages` messages. Whatever the result, at most
/// `limits.bytes + 1` bytes are taken from the reader.
pub fn summary_of_file<T, A, R>(
    rt: &T,
    alloc: A,
    feed: &mut Feed<R>,
    limits: Limits,
    segment: u32,
    threads: WorkerCount,
) -> Result<Vec<u8, A>, LoadFault>
where
    T: Threads + Sync,
    A: Allocator + Copy + Send + Sync,
    R: Read + Send,
    requires bytes { limits.bytes ≤ 2 ^ 40 }
    requires segment { (0 < segment) × (segment ≤ 2 ^ 30) }
    ensures text { IfOk result (λ text. GaveSummarized
        (R.remaining feed.old.device) (R.remaining feed.new.device) limits text.items) }
    ensures fault { IfErr result (
        Stops (R.remaining feed.old.device) (R.remaining feed.new.device) limits.bytes limits.messages) }
    ensures failed { IsErrOf result LoadFault.Read ↔ HasFailed feed.new }
    ensures for_good { HasFailed feed.old → feed.new ≡ feed.old }
    ensures taken { GaveUpTo (R.remaining feed.old.device) (R.remaining feed.new.device) (limits.bytes + 1) }
{
    let file = replay_file(rt, alloc, feed, limits, segment, threads, &Silent)?;
    Ok(summary_of(alloc, &file)?)
}

/// Reads a day file and writes its summary: a line of the names of the fields, and for each stock that has messages, by
/// rising locate code, a line of comma-separated fields.
///
/// | fields | what they are |
/// |---|---|
/// | `locate`, `symbol` | the locate code; the stock of the directory row between quotes, or empty without one |
/// | `messages`, `refused` | how many messages of the day are the stock's, and how many of them were refused |
/// | `bid_price`, `bid_shares` | the best bid and the shares there, or both empty where there is none |
/// | `ask_price`, `ask_shares` | the best ask, likewise |
/// | `orders` | how many orders live |
/// | `trades`, `shares`, `notional` | the printed trades: how many, their shares, and their shares times prices |
/// | `unprinted` | the shares of the trades that weren't printed |
///
/// Prices are in 1/10,000 of a currency unit, and broken trades don't count.
///
/// The file is replayed while it is read, by `threads` threads and one more that reads; where none can be made, the work
/// is done all the same. It is read to its end before anything is written, and the whole text is made in memory before it
/// is sent. After [`ProgFault::Write`] the bytes that were taken are a prefix of the text; after another fault none was
/// sent. [`ProgFault::Read`] comes exactly where the feed has failed, [`ProgFault::TooManyBytes`] above 2^40 bytes, and
/// [`ProgFault::TooManyMessages`] above 2^32 - 1 messages, once the whole input was read.
pub fn summary_run<T, A, R, W>(
    rt: &T,
    alloc: A,
    feed: &mut Feed<R>,
    sink: &mut Sink<W>,
    threads: WorkerCount,
) -> Result<(), ProgFault>
where
    T: Threads + Sync,
    A: Allocator + Copy + Send + Sync,
    R: Read + Send,
    W: Write,
    ensures { Runs summary_printer R.remaining W.contents feed.old feed.new sink.old sink.new result }
{
    let text = summary_of_file(rt, alloc, feed, FILE_LIMITS, SEGMENT_BYTES, threads)?;
    send(sink, &text)?;
    Ok(())
}
