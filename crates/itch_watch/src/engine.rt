//! The engine that reads a day file, replays it, and writes what a screen of one of its stocks sees meanwhile.
ghost use Rattle.std.specs.Prelude.{◌≡◌, IfOk, IfErr, MatchOption};
ghost use Rattle.engine_rules.specs.Runs.{Fails};
ghost use Rattle.itch_readings.specs.Engines.{LacksStock, RunsOnStock};
ghost use Rattle.itch_watch.specs.Engines.{PrintsSeen, watcher};

use crate::lines::put_readings;
use crate::watching::watch_stock;
use binaryfile::{Day, Feed, Sink, read_to_end, send};
use engine_rules::ProgFault;
use engine_rules::limits::{MOST_FILE_BYTES, MOST_MESSAGES};
use itch_readings::{StockFault, StockName, find_stock};
use std::alloc::Allocator;
use std::io::{Read, Write};
use std::sync::Wait;
use std::thread::Threads;
use worker_count::WorkerCount;

// The lines of what a screen sees of a file's stock; none where the file hasn't the stock.
fn seen_of_file<R: Threads + Wait + Sync, A: Allocator + Copy + Send + Sync>(
    rt: &R,
    alloc: A,
    input: Vec<u8, A>,
    name: StockName,
    workers: WorkerCount,
) -> Result<Option<Vec<u8, A>>, ProgFault>
    ensures text { IfOk result (λ found. MatchOption found
        (LacksStock name input.items) (λ text. PrintsSeen name input.items text.items)) }
    ensures fault { IfErr result (Fails (watcher name) input.items) }
{
    let day = Day::from_bytes(alloc, input, MOST_MESSAGES)?;
    let Some(locate) = find_stock(alloc, &day, name)? else {
        return Ok(None);
    };
    let readings = watch_stock(rt, alloc, &day, locate, workers)?;
    let mut text = Vec::new(alloc);
    put_readings(&mut text, &readings)?;
    Ok(Some(text))
}

/// Reads a day file, replays it by 1 to 64 workers, and writes what a screen of one of its stocks sees meanwhile: a
/// line for each reading, which is the stock's best bid and ask after the message that it names. The numbers of the
/// messages rise, and the last is that of the stock's last message, which is read after the run. How many lines come
/// before it depends on how the threads run; [`itch_readings::tops_run`] can write one for every message. Prices are in
/// 1/10,000 of a currency unit. The screen has a thread of its own beside those of the workers.
///
/// The stock is the one that [`itch_readings::tops_run`] finds by this name. [`StockFault::NoStock`] comes where the day
/// hasn't the stock, and nothing was sent then; other faults are those of an engine that reads a day file ([`ProgFault`]).
pub fn watch_run<T: Threads + Wait + Sync, A: Allocator + Copy + Send + Sync, R: Read, W: Write>(
    rt: &T,
    alloc: A,
    feed: &mut Feed<R>,
    sink: &mut Sink<W>,
    name: StockName,
    workers: WorkerCount,
) -> Result<(), StockFault>
    ensures { RunsOnStock (watcher name) name
        R.remaining W.contents feed.old feed.new sink.old sink.new result }
{
    let input = read_to_end(alloc, feed, MOST_FILE_BYTES)?;
    let Some(text) = seen_of_file(rt, alloc, input, name, workers)? else {
        return Err(StockFault::NoStock);
    };
    send(sink, &text)?;
    Ok(())
}
