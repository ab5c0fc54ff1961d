//! The days of the tests, and their parts.
use binaryfile::Day;
use day_core::{Parts, split};
use std::alloc::Allocator;
use std::test::Fail;
use std::thread::Threads;
pub use test_support::{add_entry, crossed_book, day_of, two_stocks};

/// The parts of a day.
pub fn parts_of<R: Threads + Sync, A: Allocator + Copy + Send + Sync>(
    rt: &R,
    alloc: A,
    day: &Day<A>,
    workers: u32,
) -> Result<Parts<A>, Fail> {
    split(rt, alloc, day, workers).map_err(|_| Fail::new("no parts"))
}
