//! Runs of each engine on its file, with devices and memory that fail.
use crate::engines::{ENGINES, Engine};
use binaryfile::{Feed, Sink};
use file_replay::Silent;
use itch_engine::{ProgFault, replay_run, report_run};
use itch_readings::{StockFault, StockName};
use itch_watch::watch_run;
use std::io::ErrorKind;
use std::sync::Wait;
use std::sync::atomic::{AtomicU64, Ordering};
use std::test::Fail;
use std::thread::Threads;
use stock_workers::{FreeGate, Gate};
use test_refusing::{Refusal, Refusing, Tried, refuse_each};
use test_support::{FILE, Failure, Narrow, Pieces, REPORT, same, same_bytes};
use worker_count::WorkerCount;

// A run on a file that comes in pieces.
fn try_pieces<T: AllocGlobal + Threads + Wait + Sync>(
    rt: &T,
    engine: Engine,
    most: usize,
) -> Result<(), Fail> {
    let mut output = Vec::new(rt.alloc());
    let returned = engine.run(
        rt,
        rt.alloc(),
        Pieces::new(engine.input(), most),
        &mut output,
    );
    same("a result", &(engine, returned), &(engine, engine.returns()))?;
    same_bytes("an output", &output, engine.output())
}

#[test]
fn engines_write_their_output(rt: HostRuntime) -> Result<(), Fail> {
    for engine in ENGINES {
        for most in [1, 7, 10_000] {
            try_pieces(&rt, engine, most)?;
        }
    }
    try_pieces(&rt, Engine::TwoThreads, 7)
}

// Counts how often workers come to a message, and how often the one of this number does, and adds up the numbers of
// these messages.
#[derive(Drop)]
struct Counting {
    owner: u32,
    calls: AtomicU64,
    own: AtomicU64,
    sum: AtomicU64,
}

impl Counting {
    // Nobody has come yet. The owner has the stock of this locate code.
    fn new(locate: u32, workers: WorkerCount) -> Counting {
        Counting {
            owner: locate % workers.get(),
            calls: AtomicU64::new(0),
            own: AtomicU64::new(0),
            sum: AtomicU64::new(0),
        }
    }

    // Compares the calls, the owner's calls and the sum of the messages with these.
    fn compare(&self, workers: u32, wanted: (u64, u64, u64)) -> Result<(), Fail> {
        let calls = self.calls.load(Ordering::SeqCst);
        let own = self.own.load(Ordering::SeqCst);
        let sum = self.sum.load(Ordering::SeqCst);
        same(
            "calls of the gate",
            &(workers, (calls, own, sum)),
            &(workers, wanted),
        )
    }
}

impl Gate for Counting {
    fn at<R: Threads + Wait + Sync>(&self, _rt: &R, worker: u32, message: u32) {
        self.calls.fetch_add(1, Ordering::SeqCst);
        if worker == self.owner {
            self.own.fetch_add(1, Ordering::SeqCst);
        }
        self.sum.fetch_add(u64::from(message), Ordering::SeqCst);
    }
}

// This many workers.
fn worker_count(workers: u32) -> Result<WorkerCount, Fail> {
    WorkerCount::new(workers).ok_or_else(|| Fail::new("a run has 1 to 64 workers"))
}

// A replay of the worked file by this many workers. Of them the one that has the stock of locate code 1 comes to
// messages 1 and 2, the only ones of a stock.
fn try_replay<T: AllocGlobal + Threads + Wait + Sync>(rt: &T, workers: u32) -> Result<(), Fail> {
    let mut output = Vec::new(rt.alloc());
    let count = worker_count(workers)?;
    let gate = Counting::new(1, count);
    let returned = replay_run(
        rt,
        rt.alloc(),
        &mut Feed::new(FILE),
        &mut Sink::new(&mut output),
        count.get(),
        &gate,
    );
    same("a result", &(workers, returned), &(workers, Ok(1)))?;
    same_bytes("a report", &output, REPORT)?;
    gate.compare(workers, (2, 2, 3))
}

// A replay of a file while it is read, by this many threads.
fn try_report<T: AllocGlobal + Threads + Wait + Sync>(
    rt: &T,
    threads: u32,
    file: &[u8],
    refused: u32,
    report: &[u8],
) -> Result<(), Fail> {
    let mut output = Vec::new(rt.alloc());
    let returned = report_run(
        rt,
        rt.alloc(),
        &mut Feed::new(file),
        &mut Sink::new(&mut output),
        1 << 20,
        worker_count(threads)?,
        &Silent,
    );
    same("a result", &(threads, returned), &(threads, Ok(refused)))?;
    same_bytes("a report", &output, report)
}

// What a screen sees while this many workers replay the file of two stocks.
fn try_watch<T: AllocGlobal + Threads + Wait + Sync>(rt: &T, workers: u32) -> Result<(), Fail> {
    let engine = Engine::Watch;
    let mut output = Vec::new(rt.alloc());
    let returned = watch_run(
        rt,
        rt.alloc(),
        &mut Feed::new(engine.input()),
        &mut Sink::new(&mut output),
        StockName::Locate(3),
        worker_count(workers)?,
    );
    same("a result", &(workers, returned), &(workers, Ok(())))?;
    same_bytes("what a screen sees", &output, engine.output())
}

#[test]
fn outputs_are_the_same_for_all_numbers_of_workers(rt: HostRuntime) -> Result<(), Fail> {
    for workers in [1, 2, 3, 4, 64] {
        try_replay(&rt, workers)?;
        try_report(&rt, workers, FILE, 1, REPORT)?;
        try_watch(&rt, workers)?;
    }
    Ok(())
}

// A file of which several workers refuse messages: deletions of three stocks that have no directory row, between them a
// payload of a wrong length and one of an unknown type, which are of no stock, a system event and the marker.
const REFUSALS: &[u8] =
    b"\x00\x13D\x00\x01\x00\x00\x00\x00\x00\x00\x00\x00\x00\x00\x00\x00\x00\x00\x00\x09\
      \x00\x01D\
      \x00\x13D\x00\x02\x00\x00\x00\x00\x00\x00\x00\x00\x00\x00\x00\x00\x00\x00\x00\x09\
      \x00\x01z\
      \x00\x13D\x00\x03\x00\x00\x00\x00\x00\x00\x00\x00\x00\x00\x00\x00\x00\x00\x00\x09\
      \x00\x0cS\x00\x00\x00\x00\x00\x00\x00\x00\x00\x00O\
      \x00\x00";

// Its report: the refused messages stand by their numbers, whoever did them.
const REFUSALS_REPORT: &[u8] = b"message 1 refused F2\n\
      message 2 refused F1\n\
      message 3 refused F2\n\
      message 5 refused F2\n\
      messages 6 applied 1 passed 1 refused 4 marked yes tail 0 event \"O\"\n";

#[test]
fn refused_messages_stand_by_their_numbers(rt: HostRuntime) -> Result<(), Fail> {
    for workers in [1, 2, 3, 64] {
        let mut output = Vec::new(rt.alloc());
        let returned = replay_run(
            &rt,
            rt.alloc(),
            &mut Feed::new(REFUSALS),
            &mut Sink::new(&mut output),
            worker_count(workers)?.get(),
            &FreeGate,
        );
        same("a result", &(workers, returned), &(workers, Ok(4)))?;
        same_bytes("a report", &output, REFUSALS_REPORT)?;
        try_report(&rt, workers, REFUSALS, 4, REFUSALS_REPORT)?;
    }
    Ok(())
}

// A run whose reader gives one byte a call and fails at one call.
fn try_read<T: AllocGlobal + Threads + Wait + Sync>(
    rt: &T,
    engine: Engine,
    failing: u64,
) -> Result<(), Fail> {
    let mut output = Vec::new(rt.alloc());
    let reader = Pieces::failing(engine.input(), 1, failing, ErrorKind::Interrupted);
    let returned = engine.run(rt, rt.alloc(), reader, &mut output);
    let found = (engine, failing, returned, output.len());
    same(
        "a failed read",
        &found,
        &(engine, failing, Err(StockFault::Engine(ProgFault::Read)), 0),
    )
}

// One call for each byte, and one more that gives the end. Some engines read segment by segment: the segment after the
// last one asks once more, and in a replay where no segment is left to deal too, if the last ones were dealt together.
#[test]
fn engines_send_nothing_after_a_failed_read(rt: HostRuntime) -> Result<(), Fail> {
    for engine in ENGINES {
        for failing in 1..=(engine.input().len() as u64).saturating_add(1) {
            try_read(&rt, engine, failing)?;
        }
    }
    for (engine, more) in [
        (Engine::Stocks, 2),
        (Engine::Report, 2),
        (Engine::Report, 3u64),
    ] {
        try_read(
            &rt,
            engine,
            (engine.input().len() as u64).saturating_add(more),
        )?;
    }
    Ok(())
}

// A run whose writer takes one byte a call, and fails when it has taken this many.
fn try_write<T: AllocGlobal + Threads + Wait + Sync>(
    rt: &T,
    engine: Engine,
    taken: usize,
    failure: Failure,
) -> Result<(), Fail> {
    let failing = (taken as u64).saturating_add(1);
    let mut output = Narrow::failing(rt.alloc(), failing, failure);
    let returned = engine.run(rt, rt.alloc(), engine.input(), &mut output);
    let found = (engine, failing, returned, output.calls());
    same(
        "a failed write",
        &found,
        &(
            engine,
            failing,
            Err(StockFault::Engine(ProgFault::Write)),
            failing,
        ),
    )?;
    let prefix = engine.output().get(..taken).unwrap_or(b"no prefix");
    same_bytes("what was taken", output.taken(), prefix)
}

#[test]
fn engines_have_sent_a_prefix_after_a_failed_write(rt: HostRuntime) -> Result<(), Fail> {
    for engine in ENGINES {
        for taken in 0..engine.output().len() {
            try_write(&rt, engine, taken, Failure::Error(ErrorKind::Interrupted))?;
            try_write(&rt, engine, taken, Failure::Error(ErrorKind::Other))?;
            try_write(&rt, engine, taken, Failure::TakesNone)?;
        }
    }
    Ok(())
}

// A run under a refusal. Where it is out of memory, it has sent nothing, and the engine is run with memory. In the end
// the output is whole.
fn try_refusal<T: AllocGlobal + Threads + Wait + Sync>(
    rt: &T,
    engine: Engine,
    refusal: Refusal,
) -> Result<Tried, Fail> {
    let heap = Refusing::new(rt.alloc(), refusal);
    let mut output = Vec::new(rt.alloc());
    let mut returned = engine.run(rt, &heap, engine.input(), &mut output);
    let tried = heap.tried(returned.is_err());
    let case = (engine, refusal);
    if tried.refused {
        let found = (case, returned, output.len());
        same(
            "without memory",
            &found,
            &(case, Err(StockFault::Engine(ProgFault::Memory)), 0),
        )?;
        returned = engine.run(rt, &heap, engine.input(), &mut output);
    }
    same("a result", &(case, returned), &(case, engine.returns()))?;
    same_bytes("an output", &output, engine.output())?;
    Ok(tried)
}

#[test]
fn engines_send_nothing_without_memory(rt: HostRuntime) -> Result<(), Fail> {
    for engine in [
        Engine::TwoWorkers,
        Engine::Replay,
        Engine::Digits,
        Engine::Disassembler,
        Engine::Assembler,
        Engine::Stocks,
        Engine::Tops,
        Engine::Watch,
    ] {
        let growths = refuse_each(|refusal: Refusal| -> Result<Tried, Fail> {
            try_refusal(&rt, engine, refusal)
        })?;
        same(
            "that there are growths",
            &(engine, growths > 3),
            &(engine, true),
        )?;
    }
    Ok(())
}

// A replay of a file while it is read makes its batches, and reads several segments.
#[test]
fn a_report_is_not_sent_without_memory(rt: HostRuntime) -> Result<(), Fail> {
    for engine in [Engine::Report, Engine::TwoThreads] {
        let growths = refuse_each(|refusal: Refusal| -> Result<Tried, Fail> {
            try_refusal(&rt, engine, refusal)
        })?;
        same(
            "that there are growths",
            &(engine, growths > 128),
            &(engine, true),
        )?;
    }
    Ok(())
}
