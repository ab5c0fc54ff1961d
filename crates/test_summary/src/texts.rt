//! The summaries of the worked days, wherever a file is cut into segments, by any number of threads, and within limits.
use crate::cases::{CASES, Case};
use crate::reading::summary;
use binaryfile::{Feed, Limits, LoadFault};
use std::alloc::Allocator;
use std::test::Fail;
use std::thread::Threads;
use test_support::{AMPLE, Pieces, same, same_bytes};

// The summary of a worked day.
fn try_case<T: Threads + Sync, A: Allocator + Copy + Send + Sync>(
    rt: &T,
    alloc: A,
    case: Case,
    segment: u32,
    threads: u32,
) -> Result<(), Fail> {
    let file = case.file(alloc)?;
    let mut feed = Feed::new(Pieces::new(&file, 30));
    match summary(rt, alloc, &mut feed, AMPLE, segment, threads)? {
        Ok(text) => same_bytes("a summary", &text, case.summary()),
        Err(fault) => Err(Fail::new(format_args!("{case:?} has a fault: {fault:?}"))),
    }
}

#[test]
fn a_summary_is_the_same_in_segments_of_any_size(rt: HostRuntime) -> Result<(), Fail> {
    for case in CASES {
        for segment in [1, 7, 50, 1_000_000] {
            try_case(&rt, rt.alloc(), case, segment, 1)?;
        }
    }
    Ok(())
}

#[test]
fn a_summary_is_the_same_for_all_numbers_of_threads(rt: HostRuntime) -> Result<(), Fail> {
    for case in CASES {
        for threads in [1, 2, 3, 64] {
            try_case(&rt, rt.alloc(), case, 50, threads)?;
        }
    }
    Ok(())
}

// The fault of the day of a broken trade within limits.
fn try_limits<T: Threads + Sync, A: Allocator + Copy + Send + Sync>(
    rt: &T,
    alloc: A,
    limits: Limits,
    fault: Option<LoadFault>,
) -> Result<(), Fail> {
    let file = Case::Broken.file(alloc)?;
    for segment in [1, 50, 1_000] {
        let mut feed = Feed::new(Pieces::new(&file, 7));
        let found = summary(rt, alloc, &mut feed, limits, segment, 2)?.err();
        same(
            "a fault, and whether the feed has failed",
            &(segment, limits, found, feed.failed()),
            &(segment, limits, fault, false),
        )?;
    }
    Ok(())
}

// The day has five messages.
#[test]
fn a_file_has_no_more_than_its_limits(rt: HostRuntime) -> Result<(), Fail> {
    let alloc = rt.alloc();
    let bytes = Case::Broken.file(alloc)?.len() as u64;
    let short = bytes.saturating_sub(1);
    try_limits(&rt, alloc, Limits { bytes, messages: 5 }, None)?;
    for messages in 0..5 {
        let limits = Limits { bytes, messages };
        try_limits(&rt, alloc, limits, Some(LoadFault::TooManyMessages))?;
    }
    for bytes in [0, short] {
        let limits = Limits { bytes, messages: 5 };
        try_limits(&rt, alloc, limits, Some(LoadFault::TooManyBytes))?;
    }
    Ok(())
}
