//! A replay of a long day of many stocks, by one worker in each thread.
use binaryfile::{Feed, Sink};
use itch_engine::replay_run;
use std::alloc::{AllocError, Allocator};
use std::sync::Wait;
use std::sync::atomic::{AtomicU64, Ordering};
use std::test::Fail;
use std::thread::Threads;
use stock_workers::Gate;
use test_support::{AAPL, Ticker, payload_of, same, same_bytes};
use worker_count::WorkerCount;

// The length of a directory message, as its entry has it.
const LENGTH: [u8; 2] = [0, 39];

// How the report of the day begins.
const BEGINS: &[u8] =
    b"messages 131072 applied 131072 passed 0 refused 0 marked no tail 0 event none\n";

// The directory messages of 2,048 stocks, 64 times over.
fn long_day<A: Allocator + Copy>(alloc: A) -> Result<Vec<u8, A>, AllocError> {
    let mut bytes = Vec::new(alloc);
    for _ in 0..64 {
        for locate in 1..2049 {
            let stock = Ticker { locate, ..AAPL };
            bytes.extend_from_slice(&LENGTH)?;
            bytes.extend_from_slice(&payload_of(alloc, &stock.directory())?)?;
        }
    }
    Ok(bytes)
}

// Counts how often it is called with a number of a worker, and with another number; notes these numbers, as bits; and
// counts how often it is called with a message that isn't after the one of the call before.
#[derive(Drop)]
struct Calls {
    workers: u32,
    within: AtomicU64,
    beyond: AtomicU64,
    numbers: AtomicU64,
    last: AtomicU64,
    falls: AtomicU64,
}

impl Gate for Calls {
    fn at<R: Threads + Wait + Sync>(&self, _rt: &R, worker: u32, message: u32) {
        let calls = if worker < self.workers {
            &self.within
        } else {
            &self.beyond
        };
        calls.fetch_add(1, Ordering::SeqCst);
        let bit = 1u64.checked_shl(worker).unwrap_or(0);
        self.numbers.fetch_or(bit, Ordering::SeqCst);
        let message = u64::from(message);
        if self.last.swap(message, Ordering::SeqCst) >= message {
            self.falls.fetch_add(1, Ordering::SeqCst);
        }
    }
}

#[test]
fn a_long_day_of_many_stocks_is_the_same_for_all_numbers_of_workers(
    rt: HostRuntime,
) -> Result<(), Fail> {
    let alloc = rt.alloc();
    let day = long_day(alloc)?;
    let mut first: Vec<u8> = Vec::new(alloc);
    for (workers, numbers) in [(1, 0b1), (2, 0b11), (64, u64::MAX)] {
        let gate = Calls {
            workers,
            within: AtomicU64::new(0),
            beyond: AtomicU64::new(0),
            numbers: AtomicU64::new(0),
            last: AtomicU64::new(0),
            falls: AtomicU64::new(0),
        };
        let count = WorkerCount::new(workers).ok_or_else(|| Fail::new("1 to 64 workers"))?;
        let mut report = Vec::new(alloc);
        let mut feed = Feed::new(day.as_slice());
        let mut sink = Sink::new(&mut report);
        let returned = replay_run(&rt, alloc, &mut feed, &mut sink, count.get(), &gate);
        same("a result", &(workers, returned), &(workers, Ok(0)))?;
        let within = gate.within.load(Ordering::SeqCst);
        let beyond = gate.beyond.load(Ordering::SeqCst);
        same("calls of the gate", &(within, beyond), &(131_072, 0))?;
        let called = gate.numbers.load(Ordering::SeqCst);
        same("workers", &(workers, called), &(workers, numbers))?;
        let begins = report.get(..BEGINS.len()).unwrap_or(b"");
        same_bytes("the beginning of a report", begins, BEGINS)?;
        if workers == 1 {
            // The only worker does all messages in their order.
            same("falls", &gate.falls.load(Ordering::SeqCst), &0)?;
            first = report;
        } else {
            same_bytes("a report", &report, &first)?;
        }
    }
    Ok(())
}
