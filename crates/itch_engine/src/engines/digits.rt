//! The engine that replays a day file in hexadecimal digits.
ghost use Rattle.std.specs.Prelude.{◌≡◌, IfOk, IfErr};
ghost use Rattle.engine_rules.specs.Runs.{Fails, Runs};
ghost use Rattle.itch_engine.specs.ReplayEngines.{ReplaysDigits, digits_replayer};

use crate::engines::replay::report_of_file;
use crate::hex_input::decode_digits;
use crate::report::file::Report;
use binaryfile::{Feed, Sink, read_to_end, send};
use engine_rules::ProgFault;
use engine_rules::limits::MOST_HEX_BYTES;
use std::alloc::Allocator;
use std::io::{Read, Write};
use std::sync::Wait;
use std::thread::Threads;
use stock_workers::FreeGate;

// The report of a file that is given in hexadecimal digits, and how many of its messages are refused.
fn report_of_digits<R: Threads + Wait + Sync, A: Allocator + Copy + Send + Sync>(
    rt: &R,
    alloc: A,
    input: Vec<u8, A>,
) -> Result<Report<A>, ProgFault>
    ensures report { IfOk result (λ report. ReplaysDigits input.items report.text.items report.refused) }
    ensures fault { IfErr result (Fails digits_replayer input.items) }
{
    let bytes = decode_digits(alloc, input)?;
    report_of_file(rt, alloc, bytes, 1, &FreeGate)
}

/// Reads a day file that is given in hexadecimal digits, replays it and writes the report, as [`replay_run`] does.
///
/// One thread does the whole day. Spaces and line feeds are passed over. [`ProgFault::TooManyBytes`] comes above
/// [`MOST_HEX_BYTES`] bytes of input, and [`ProgFault::BadHex`] only where there is an odd number of digits, or a byte
/// that is no hexadecimal digit, no space and no line feed.
///
/// [`replay_run`]: crate::replay_run
pub fn hex_run<T: Threads + Wait + Sync, A: Allocator + Copy + Send + Sync, R: Read, W: Write>(
    rt: &T,
    alloc: A,
    feed: &mut Feed<R>,
    sink: &mut Sink<W>,
) -> Result<u32, ProgFault>
    ensures { Runs digits_replayer R.remaining W.contents feed.old feed.new sink.old sink.new result }
{
    let input = read_to_end(alloc, feed, MOST_HEX_BYTES)?;
    let report = report_of_digits(rt, alloc, input)?;
    send(sink, &report.text)?;
    Ok(report.refused)
}
