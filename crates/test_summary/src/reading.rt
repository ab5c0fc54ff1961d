//! The summary of what a reader gives.
use binaryfile::{Feed, Limits, LoadFault};
use itch_summary::summary_of_file;
use std::alloc::Allocator;
use std::io::Read;
use std::test::Fail;
use std::thread::Threads;
use worker_count::WorkerCount;

/// The summary of what a reader gives, by segments of so many bytes and this many threads, within limits.
pub fn summary<T: Threads + Sync, A: Allocator + Copy + Send + Sync, R: Read + Send>(
    rt: &T,
    alloc: A,
    feed: &mut Feed<R>,
    limits: Limits,
    segment: u32,
    threads: u32,
) -> Result<Result<Vec<u8, A>, LoadFault>, Fail> {
    if segment == 0 || segment > 1 << 30 {
        return Err(Fail::new("a segment takes 1 to 2^30 bytes"));
    }
    if limits.bytes > 1 << 40 {
        return Err(Fail::new("a file has 2^40 bytes at most"));
    }
    let threads = WorkerCount::new(threads).ok_or_else(|| Fail::new("1 to 64 threads"))?;
    Ok(summary_of_file(rt, alloc, feed, limits, segment, threads))
}
