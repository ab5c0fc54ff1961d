//! Runs with devices that fail.
use crate::cases::Case;
use binaryfile::{Feed, Sink};
use engine_rules::ProgFault;
use itch_summary::summary_run;
use std::alloc::Allocator;
use std::io::{ErrorKind, Read, Write};
use std::test::Fail;
use std::thread::Threads;
use test_support::{Failure, Narrow, Pieces, same, same_bytes};
use worker_count::WorkerCount;

// A run by this many threads.
fn run<T: Threads + Sync, A: Allocator + Copy + Send + Sync, R: Read + Send + Drop, W: Write>(
    rt: &T,
    alloc: A,
    reader: R,
    writer: &mut W,
    threads: u32,
) -> Result<Result<(), ProgFault>, Fail> {
    let threads = WorkerCount::new(threads).ok_or_else(|| Fail::new("1 to 64 threads"))?;
    let (mut feed, mut sink) = (Feed::new(reader), Sink::new(writer));
    Ok(summary_run(rt, alloc, &mut feed, &mut sink, threads))
}

#[test]
fn a_summary_is_written(rt: HostRuntime) -> Result<(), Fail> {
    let alloc = rt.alloc();
    let file = Case::Stocks.file(alloc)?;
    for threads in [1, 2, 3, 64] {
        let mut output = Vec::new(alloc);
        let returned = run(&rt, alloc, Pieces::new(&file, 7), &mut output, threads)?;
        same("a result", &(threads, returned), &(threads, Ok(())))?;
        same_bytes("a summary", &output, Case::Stocks.summary())?;
    }
    Ok(())
}

// A run whose reader gives 30 bytes a call, and fails at one call.
fn try_read<T: AllocGlobal + Threads + Sync>(
    rt: &T,
    file: &[u8],
    failing: u64,
    kind: ErrorKind,
) -> Result<(), Fail> {
    let mut output = Vec::new(rt.alloc());
    let reader = Pieces::failing(file, 30, failing, kind);
    let returned = run(rt, rt.alloc(), reader, &mut output, 2)?;
    let found = (failing, returned, output.len());
    let wanted = (failing, Err(ProgFault::Read), 0);
    same("a failed read", &found, &wanted)
}

// Each call gives 30 bytes, and one more the end.
#[test]
fn nothing_is_sent_after_a_failed_read(rt: HostRuntime) -> Result<(), Fail> {
    let file = Case::Broken.file(rt.alloc())?;
    for failing in 1..=(file.len() as u64).div_ceil(30).saturating_add(1) {
        try_read(&rt, &file, failing, ErrorKind::Interrupted)?;
        try_read(&rt, &file, failing, ErrorKind::Other)?;
    }
    Ok(())
}

// A run whose writer takes one byte a call, and fails when it has taken this many.
fn try_write<T: AllocGlobal + Threads + Sync>(
    rt: &T,
    file: &[u8],
    taken: usize,
    failure: Failure,
) -> Result<(), Fail> {
    let failing = (taken as u64).saturating_add(1);
    let mut output = Narrow::failing(rt.alloc(), failing, failure);
    let returned = run(rt, rt.alloc(), file, &mut output, 1)?;
    let found = (failing, returned, output.calls());
    let wanted = (failing, Err(ProgFault::Write), failing);
    same("a failed write", &found, &wanted)?;
    let prefix = Case::Broken.summary().get(..taken).unwrap_or(b"no prefix");
    same_bytes("what was taken", output.taken(), prefix)
}

// The writer fails at the first byte, at the second, at the last of the names of the fields, after them, and at the last.
#[test]
fn a_prefix_is_sent_before_a_failed_write(rt: HostRuntime) -> Result<(), Fail> {
    let file = Case::Broken.file(rt.alloc())?;
    let last = Case::Broken.summary().len().saturating_sub(1);
    for taken in [0, 1, 112, 113, last] {
        try_write(&rt, &file, taken, Failure::Error(ErrorKind::Interrupted))?;
        try_write(&rt, &file, taken, Failure::Error(ErrorKind::Other))?;
        try_write(&rt, &file, taken, Failure::TakesNone)?;
    }
    Ok(())
}
