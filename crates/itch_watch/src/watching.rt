//! A screen of one stock, beside the workers that replay its day.
ghost use Rattle.std.specs.Prelude.{◌≡◌, ◌<◌, ◌≤◌, ◌++◌, ℕ, List, All, IfOk, OnErr, OnOk, length, map, slice_index};
ghost use Rattle.std.specs.List.{Contains};
ghost use Rattle.day_core.specs.Owners.{last_message, last_or};
ghost use Rattle.itch_table.specs.Projection.{IsQuiet};
ghost use Rattle.itch_table.specs.Shows.{HasMessage, locates_of_day};
ghost use Rattle.byte_strings.specs.Bytes.{AreBytes};
ghost use Rattle.stock_workers.specs.Running.{at_last};
ghost use Rattle.top_cell.specs.Boards.{AreNew, IsOn};
ghost use Rattle.itch_watch.specs.Watching.{AreSeen, AreSeenToTheEnd, IsReading, IsScreenOf, numbers};

use binaryfile::Day;
use itch_table::one_row_of_words;
use std::alloc::{AllocError, Allocator};
use std::sync::Wait;
use std::sync::atomic::{AtomicU64, Ordering};
use std::thread::{Threads, join, yield_now};
use stock_workers::{FreeGate, RunFault, run};
use top_cell::{Board, Reading, Screen, TopWriter};
use worker_count::WorkerCount;

// How often a glance tries to read a cell before other threads get their turn.
const TRIES: u32 = 4;

// The number of the last message that was read; 0 where none was.
fn last_seen(readings: &[Reading]) -> u32
    ensures { result ≡ last_or 0 (numbers readings.now) }
{
    match readings.last() {
        Some(reading) => reading.message,
        None => 0,
    }
}

// Adds a reading to those that a screen has seen, where it is of a later message than they are.
fn note<A: Allocator>(readings: &mut Vec<Reading, A>, reading: Reading) -> Result<(), AllocError>
    ensures seen { (day : List (List ℕ)) (locate : ℕ) → AreSeen day locate readings.old.items
        → IsReading day locate reading → AreSeen day locate readings.new.items }
    ensures noted { last_or 0 (numbers readings.old.items) ≤ reading.message
        → OnOk result (last_or 0 (numbers readings.new.items) ≡ reading.message) }
    ensures kept { (more : List Reading) × (readings.new.items ≡ readings.old.items ++ more) }
    ensures err { OnErr result (readings.new.items ≡ readings.old.items) }
{
    if reading.message > last_seen(readings) {
        readings.push(reading)?;
    }
    Ok(())
}

/// Looks once at a screen's stock, and adds a reading to those that the screen has seen where it is of a later message. So
/// these go up to the message at which the screen stands. The caller passes the screen's own board.
///
/// It waits for nobody: where the stock's worker is changing the cell at each of a few tries, nothing is added. An error
/// says that memory was refused. Then nothing was added either, but the screen may stand at a later message, which the
/// next look adds.
pub fn look<A: Allocator>(
    board: &Board<A>,
    screen: &mut Screen,
    readings: &mut Vec<Reading, A>,
) -> Result<(), AllocError>
    requires { IsOn board.now screen.old.place }
    ensures place { screen.new.place ≡ screen.old.place }
    ensures looked { screen.old.looks < screen.new.looks }
    ensures seen { AreSeen screen.old.place.day screen.old.place.locate readings.old.items
        → AreSeen screen.old.place.day screen.old.place.locate readings.new.items }
    ensures noted { last_or 0 (numbers readings.old.items) ≡ screen.old.message
        → OnOk result (last_or 0 (numbers readings.new.items) ≡ screen.new.message) }
    ensures kept { (more : List Reading) × (readings.new.items ≡ readings.old.items ++ more) }
    ensures err { OnErr result (readings.new.items ≡ readings.old.items) }
{
    match screen.glance(board, TRIES) {
        Ok(reading) => note(readings, reading),
        Err(_) => Ok(()),
    }
}

// What a screen sees until `ended` isn't 0, to the message at which it stands then. An error comes at once; else it returns
// only once `ended` isn't 0, which it looks at before each look at the board.
fn watch<R: Wait, A: Allocator + Copy>(
    rt: &R,
    alloc: A,
    board: &Board<A>,
    screen: &mut Screen,
    ended: &AtomicU64,
) -> Result<Vec<Reading, A>, AllocError>
    requires { IsOn board.now screen.old.place }
    ensures seen { IfOk result (λ readings.
        AreSeen screen.old.place.day screen.old.place.locate readings.items) }
    ensures noted { screen.old.message ≡ 0
        → IfOk result (λ readings. last_or 0 (numbers readings.items) ≡ screen.new.message) }
{
    let mut readings = Vec::new(alloc);
    for _ in rt.forever() {
        if ended.load(Ordering::SeqCst) != 0 {
            return Ok(readings);
        }
        look(board, screen, &mut readings)?;
        yield_now();
    }
    unreachable!()
}

// The index of the writer of a stock.
fn index_of(writers: &[TopWriter], locate: u16) -> usize
    requires { Contains (map (λ w. w.place.locate) writers.now) locate }
    ensures within { result < length writers.now }
    ensures own { slice_index (map (λ w. w.place.locate) writers.now) result ≡ locate }
{
    for (index, writer) in writers.iter().enumerate() {
        if writer.locate() == locate {
            return index;
        }
    }
    unreachable!()
}

// A screen of a stock, and the index of the stock's writer.
fn screen_of<A: Allocator>(
    board: &Board<A>,
    writers: &mut Vec<TopWriter, A>,
    locate: u16,
) -> (usize, Screen)
    requires on { All (λ w. IsOn board.now w.place) writers.old.items }
    requires stock { Contains (map (λ w. w.place.locate) writers.old.items) locate }
    ensures same { writers.new.items ≡ writers.old.items }
    ensures own { IsScreenOf board.now writers.old.items locate result.0 result.1.place }
{
    let index = index_of(writers, locate);
    (index, writers[index].screen(board))
}

// The reading of a stock's last message, at which its writer stands.
fn last_reading<R: Wait, A: Allocator>(rt: &R, board: &Board<A>, writer: &mut TopWriter) -> Reading
    requires own { IsOn board.now writer.old.place }
    requires quiet { IsQuiet writer.old.place.day writer.old.place.locate writer.old.message
        (length writer.old.place.day) }
    ensures shows { IsReading writer.old.place.day writer.old.place.locate result }
    ensures message { result.message ≡ writer.old.message }
{
    // A law that the proof cites: it does nothing.
    one_row_of_words();
    let message = writer.message();
    let reading = writer.screen(board).read(rt, board);
    Reading { message, ..reading }
}

// What the screen has seen, with the last message in place of any reading from it on: the screen may have come to it,
// or not.
fn to_the_end<A: Allocator>(
    readings: Vec<Reading, A>,
    last: Reading,
) -> Result<Vec<Reading, A>, AllocError>
    requires some { 0 < last.message }
    ensures { IfOk result (λ all. (day : List (List ℕ)) (locate : ℕ) → AreSeen day locate readings.items
        → IsReading day locate last → last.message ≡ last_message day locate
        → AreSeenToTheEnd day locate all.items) }
{
    let mut readings = readings;
    readings.retain(|reading: &Reading| -> bool { reading.message < last.message });
    readings.push(last)?;
    Ok(readings)
}

// Replays the day, and gives back the writers.
fn replay<R: Threads + Wait + Sync, A: Allocator + Copy + Send + Sync>(
    rt: &R,
    alloc: A,
    day: &Day<A>,
    board: &Board<A>,
    writers: Vec<TopWriter, A>,
    workers: WorkerCount,
) -> Result<Vec<TopWriter, A>, AllocError>
    requires { AreNew day.now.payloads (locates_of_day day.now.payloads) board.now writers.items }
    ensures { IfOk result (λ last. last.items ≡ map (at_last day.now.payloads) writers.items) }
{
    match run(rt, alloc, day, board, writers, workers.get(), &FreeGate) {
        Ok(replayed) => Ok(replayed.writers),
        Err(RunFault::Memory) => Err(AllocError),
        Err(RunFault::Workers) => unreachable!(),
    }
}

// What a screen sees while workers replay the day, and the writers after it. The screen has a thread of its own; where
// none can be made, it sees nothing.
fn look_and_replay<R: Threads + Wait + Sync, A: Allocator + Copy + Send + Sync>(
    rt: &R,
    alloc: A,
    day: &Day<A>,
    board: &Board<A>,
    screen: Screen,
    writers: Vec<TopWriter, A>,
    workers: WorkerCount,
    ended: &AtomicU64,
) -> (
    Result<Vec<Reading, A>, AllocError>,
    Result<Vec<TopWriter, A>, AllocError>,
)
    requires screen { IsOn board.now screen.place }
    requires new { AreNew day.now.payloads (locates_of_day day.now.payloads) board.now writers.items }
    ensures seen { IfOk result.0 (λ readings.
        AreSeen screen.place.day screen.place.locate readings.items) }
    ensures ends { IfOk result.1 (λ last. last.items ≡ map (at_last day.now.payloads) writers.items) }
{
    let watching = move || -> Result<Vec<Reading, A>, AllocError>
        requires { IsOn board.now screen.place }
        ensures { IfOk result (λ readings.
            AreSeen screen.place.day screen.place.locate readings.items) }
    {
        let mut screen = screen;
        watch(rt, alloc, board, &mut screen, ended)
    };
    let work = || -> Result<Vec<TopWriter, A>, AllocError>
        requires { AreNew day.now.payloads (locates_of_day day.now.payloads) board.now writers.items }
        ensures { IfOk result (λ last. last.items ≡ map (at_last day.entry.now.payloads) writers.items) }
    {
        let replayed = replay(rt, alloc, day, board, writers, workers);
        ended.store(1, Ordering::SeqCst);
        replayed
    };
    join(rt, watching, work)
}

/// Replays a day by 1 to 64 workers, while a screen looks at one of its stocks in a thread of its own, and gives what
/// the screen has seen, to the stock's last message, which is read after the run. Prices are in 1/10,000 of a currency
/// unit. The stock has a message in the day.
///
/// It waits for its threads.
pub fn watch_stock<R: Threads + Wait + Sync, A: Allocator + Copy + Send + Sync>(
    rt: &R,
    alloc: A,
    day: &Day<A>,
    locate: u16,
    workers: WorkerCount,
) -> Result<Vec<Reading, A>, AllocError>
    requires bytes { All AreBytes day.now.payloads }
    requires stock { HasMessage day.now.payloads locate }
    ensures { IfOk result (λ readings. AreSeenToTheEnd day.now.payloads locate readings.items) }
{
    let (board, mut writers) = Board::new(alloc, day)?;
    let (index, screen) = screen_of(&board, &mut writers, locate);
    let ended = AtomicU64::new(0);
    let (readings, writers) = look_and_replay(
        rt, alloc, day, &board, screen, writers, workers, &ended,
    );
    let mut writers = writers?;
    let last = last_reading(rt, &board, &mut writers[index]);
    to_the_end(readings?, last)
}
