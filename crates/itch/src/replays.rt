//! Replays of whole days.
use crate::progress::ProgressLines;
use binaryfile::{Feed, Sink};
use day_segments::SEGMENT_BYTES;
use engine_rules::ProgFault;
use itch_commands::{Ended, Terminals, ended, named_stock, open_day, replayed, standard_output};
use itch_engine::{hex_run, report_run};
use itch_summary::summary_run;
use itch_watch::watch_run;
use named_files::Named;
use std::io::{Read, Write};
use std::rt::Runtime;
use std::sync::Wait;
use std::thread::Threads;
use worker_count::WorkerCount;

// The number of workers that the arguments give, which is in the range of the argument.
fn number_of_workers(number: u32) -> WorkerCount {
    WorkerCount::new(number).unwrap_or(WorkerCount::ONE)
}

/// What a replay of a file writes.
#[derive(Clone, Copy)]
pub enum Replaying {
    /// The report of the day, and on standard error how far it is, where that is asked for.
    Report { progress: bool },
    /// A line for each of its stocks.
    Summary,
}

impl Replaying {
    // Writes it, of a file that was opened, by this many threads.
    fn write<T: Runtime + AllocGlobal + Threads + Sync, R: Read + Send, W: Write>(
        self,
        rt: &T,
        path: &str,
        feed: &mut Feed<R>,
        sink: &mut Sink<W>,
        workers: WorkerCount,
    ) -> Result<u32, ProgFault> {
        match self {
            Replaying::Report { progress } => {
                let lines = if progress {
                    Some(ProgressLines::new(rt, path))
                } else {
                    None
                };
                let run = report_run(rt, rt.alloc(), feed, sink, SEGMENT_BYTES, workers, &lines);
                if let Some(lines) = &lines {
                    lines.say();
                }
                run
            }
            Replaying::Summary => {
                summary_run(rt, rt.alloc(), feed, sink, workers)?;
                Ok(0)
            }
        }
    }
}

/// Replays a file by this many threads while it is read, and writes on standard output what is asked of it.
pub fn replay<'a, R: Runtime + AllocGlobal + Threads + Sync>(
    rt: &R,
    terminals: Terminals,
    path: &'a str,
    workers: u32,
    replaying: Replaying,
) -> Ended<'a>
where
    R::File: Send,
{
    let mut day = open_day(rt, terminals, path)?;
    let mut output = standard_output(rt);
    let (mut feed, mut sink) = (Feed::new(&mut day), Sink::new(&mut output));
    let run = replaying.write(rt, path, &mut feed, &mut sink, number_of_workers(workers));
    replayed(run, &day, &output)
}

/// Replays a file, and writes what a screen of one of its stocks sees meanwhile on standard output.
pub fn watch<'a, R: Runtime + AllocGlobal + Threads + Wait + Sync>(
    rt: &R,
    terminals: Terminals,
    path: &'a str,
    stock: &str,
    workers: u32,
) -> Ended<'a> {
    let mut day = open_day(rt, terminals, path)?;
    let name = named_stock(stock)?;
    let mut output = standard_output(rt);
    let (mut feed, mut sink) = (Feed::new(&mut day), Sink::new(&mut output));
    let workers = number_of_workers(workers);
    let run = watch_run(rt, rt.alloc(), &mut feed, &mut sink, name, workers);
    ended(run, &day, &output)
}

/// Replays the file whose hexadecimal digits are standard input, and writes its report on standard output. At a terminal
/// it is said what is waited for.
pub fn replay_digits<R: Runtime + AllocGlobal + Threads + Wait + Sync>(
    rt: &R,
    terminals: Terminals,
) -> Ended<'_> {
    terminals.ask_for_digits(rt);
    let mut input = Named::new("standard input", rt.reader());
    let mut output = standard_output(rt);
    let run = hex_run(
        rt,
        rt.alloc(),
        &mut Feed::new(&mut input),
        &mut Sink::new(&mut output),
    );
    replayed(run, &input, &output)
}
