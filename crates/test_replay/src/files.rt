//! Files that are replayed while they are read.
use crate::comparing::{Wanted, follow, same_day};
use crate::cutting::add_payload;
use crate::days::threads_of;
use crate::random::random_day;
use binaryfile::{Day, Feed, Limits, LoadFault};
use file_replay::{FileSummary, Progress, Silent, replay_file};
use std::alloc::{Allocator, Global};
use std::io::{ErrorKind, Read};
use std::sync::atomic::{AtomicU64, Ordering};
use std::test::Fail;
use std::thread::Threads;
use test_refusing::{Refusal, Refusing, Tried, refuse_each};
use test_support::{Pieces, same, two_stocks};

// The greatest limits.
const MOST: Limits = Limits {
    bytes: 1 << 40,
    messages: u32::MAX,
};

// An end marker, and four bytes that would be an entry elsewhere.
const END: &[u8] = b"\x00\x00\x00\x02RS";

// The file of a day, an end marker and four bytes.
fn file_of<A: Allocator + Copy>(alloc: A, day: &Day<A>) -> Result<Vec<u8, A>, Fail> {
    let mut file = Vec::new(alloc);
    for payload in day.payloads() {
        add_payload(&mut file, payload)?;
    }
    file.extend_from_slice(END)?;
    Ok(file)
}

// Knows how often it was told how far a replay is, how often it was told less than before, and what it was told last.
#[derive(Drop)]
struct Told {
    calls: AtomicU64,
    falls: AtomicU64,
    messages: AtomicU64,
    bytes: AtomicU64,
}

impl Told {
    fn new() -> Told {
        Told {
            calls: AtomicU64::new(0),
            falls: AtomicU64::new(0),
            messages: AtomicU64::new(0),
            bytes: AtomicU64::new(0),
        }
    }
}

impl Progress for Told {
    fn at(&self, messages: u32, bytes: u64) {
        self.calls.fetch_add(1, Ordering::SeqCst);
        let before = self.messages.swap(u64::from(messages), Ordering::SeqCst);
        if before > u64::from(messages) || self.bytes.swap(bytes, Ordering::SeqCst) > bytes {
            self.falls.fetch_add(1, Ordering::SeqCst);
        }
    }
}

// Replays a file in segments of so many bytes, within these limits.
fn replay<T: Threads + Sync, A: Allocator + Copy + Send + Sync, R: Read + Send, P: Progress>(
    rt: &T,
    alloc: A,
    feed: &mut Feed<R>,
    limits: Limits,
    segment: u32,
    threads: u32,
    progress: &P,
) -> Result<Result<FileSummary<A>, LoadFault>, Fail> {
    if segment == 0 || segment > 1 << 30 {
        return Err(Fail::new("a segment takes 1 to 2^30 bytes"));
    }
    if limits.bytes > 1 << 40 {
        return Err(Fail::new("a file has 2^40 bytes at most"));
    }
    let threads = threads_of(threads)?;
    Ok(replay_file(rt, alloc, feed, limits, segment, threads, progress))
}

// How often a replay of a file of so many bytes is told: segments are replayed 1, 2, 4, 8 and then 16 at a time.
fn rounds(bytes: usize, segment: u32) -> u64 {
    let size = u64::from(segment);
    let ends = (bytes as u64).saturating_add(size.saturating_sub(1));
    let mut left = ends.checked_div(size).unwrap_or(0);
    let mut rounds = 0u64;
    for segments in [1u64, 2, 4, 8] {
        if left > 0 {
            rounds = rounds.saturating_add(1);
        }
        left = left.saturating_sub(segments);
    }
    rounds.saturating_add(left.saturating_add(15) / 16)
}

// Compares what was told of a file of so many messages and bytes, in segments of this size.
fn same_told(told: &Told, messages: u32, bytes: usize, segment: u32) -> Result<(), Fail> {
    let calls = told.calls.load(Ordering::SeqCst);
    let falls = told.falls.load(Ordering::SeqCst);
    same(
        "how often it was told, and how often less than before",
        &(calls, falls),
        &(rounds(bytes, segment), 0),
    )?;
    let last = (
        told.messages.load(Ordering::SeqCst),
        told.bytes.load(Ordering::SeqCst),
    );
    let wanted = (u64::from(messages), bytes as u64);
    same("how far it was at last", &last, &wanted)
}

// Compares what a replay has made of a file with the four bytes at its end, and what was told meanwhile.
fn same_made<A: Allocator + Copy>(
    alloc: A,
    made: &FileSummary<A>,
    wanted: &Wanted<A>,
    told: &Told,
    bytes: usize,
    segment: u32,
) -> Result<(), Fail> {
    same_day(alloc, &made.summary, wanted)?;
    let end = (segment, made.marked, made.tail);
    same("its end", &end, &(segment, true, 4))?;
    same_told(told, made.summary.messages, bytes, segment)
}

// Replays a file with the four bytes at its end, and compares it with what the plain machine makes of its day.
fn compare<T: Threads + Sync, A: Allocator + Copy + Send + Sync>(
    rt: &T,
    alloc: A,
    file: &[u8],
    wanted: &Wanted<A>,
    segment: u32,
    threads: u32,
) -> Result<(), Fail> {
    let told = Told::new();
    let mut feed = Feed::new(Pieces::new(file, 7));
    match replay(rt, alloc, &mut feed, MOST, segment, threads, &told)? {
        Ok(made) => same_made(alloc, &made, wanted, &told, file.len(), segment),
        Err(fault) => Err(Fail::new(format_args!("a file has a fault: {fault:?}"))),
    }
}

// Segments end after each byte of an entry, of its length, and of the end marker.
#[test]
fn a_file_is_the_same_in_segments_of_any_size(rt: HostRuntime) -> Result<(), Fail> {
    let alloc = rt.alloc();
    let day = two_stocks(alloc)?;
    let file = file_of(alloc, &day)?;
    let wanted = follow(alloc, &day)?;
    for segment in [1, 2, 3, 40, 41, 42, 1_000_000] {
        compare(&rt, alloc, &file, &wanted, segment, 2)?;
    }
    Ok(())
}

// A day at random, by several numbers of threads.
fn compare_threads<T: Threads + Sync, A: Allocator + Copy + Send + Sync>(
    rt: &T,
    alloc: A,
    seed: u64,
) -> Result<(), Fail> {
    let day = random_day(alloc, seed, 300)?;
    let file = file_of(alloc, &day)?;
    let wanted = follow(alloc, &day)?;
    for (threads, segment) in [(1, 1_000), (2, 300), (3, 77), (4, 1_000), (64, 77)] {
        compare(rt, alloc, &file, &wanted, segment, threads)?;
    }
    Ok(())
}

#[test]
fn a_file_is_the_same_for_all_numbers_of_threads(rt: HostRuntime) -> Result<(), Fail> {
    for seed in 5..11 {
        compare_threads(&rt, rt.alloc(), seed)?;
    }
    Ok(())
}

// The fault of a file within limits, and whether its feed has failed.
fn fault_of<T: Threads + Sync, A: Allocator + Copy + Send + Sync>(
    rt: &T,
    alloc: A,
    file: &[u8],
    limits: Limits,
) -> Result<(Option<LoadFault>, bool), Fail> {
    let mut feed = Feed::new(Pieces::new(file, 100));
    let fault = replay(rt, alloc, &mut feed, limits, 50, 2, &Silent)?.err();
    Ok((fault, feed.failed()))
}

#[test]
fn a_file_has_no_more_than_its_limits(rt: HostRuntime) -> Result<(), Fail> {
    let alloc = rt.alloc();
    let day = two_stocks(alloc)?;
    let file = file_of(alloc, &day)?;
    let (bytes, messages) = (file.len() as u64, day.len());
    let many = Some(LoadFault::TooManyMessages);
    let long = Some(LoadFault::TooManyBytes);
    for (limits, fault) in [
        (Limits { bytes, messages }, None),
        (
            Limits {
                bytes,
                messages: messages.saturating_sub(1),
            },
            many,
        ),
        (Limits { bytes, messages: 0 }, many),
        (
            Limits {
                bytes: bytes.saturating_sub(1),
                messages,
            },
            long,
        ),
        (
            Limits {
                bytes: bytes.saturating_sub(1),
                messages: 0,
            },
            long,
        ),
        (Limits { bytes: 0, messages }, long),
    ] {
        let found = fault_of(&rt, alloc, &file, limits)?;
        same("a fault", &(limits, found), &(limits, (fault, false)))?;
    }
    Ok(())
}

// The first read that fails stops it, and the reader isn't asked again. Of 227 bytes in segments of 60 and pieces of 30,
// eight calls give some; three more give the end, in the last segment, after it, and where no segment is left to deal.
#[test]
fn a_file_stops_where_its_feed_fails(rt: HostRuntime) -> Result<(), Fail> {
    let alloc = rt.alloc();
    let file = file_of(alloc, &two_stocks(alloc)?)?;
    for call in 1..=11u64 {
        let mut pieces = Pieces::failing(&file, 30, call, ErrorKind::Interrupted);
        let mut feed = Feed::new(&mut pieces);
        let fault = replay(&rt, alloc, &mut feed, MOST, 60, 2, &Silent)?.err();
        let wanted = (Some(LoadFault::Read), true);
        same("a fault", &(call, (fault, feed.failed())), &(call, wanted))?;
        same("how often the reader was asked", &pieces.calls(), &call)?;
    }
    Ok(())
}

// Compares what was made of a file with what the plain machine makes of its day.
fn same_file<A: Allocator + Copy>(
    alloc: A,
    day: &Day<A>,
    made: &FileSummary<A>,
) -> Result<(), Fail> {
    same_day(alloc, &made.summary, &follow(alloc, day)?)
}

// Replays a file of several segments under a refusal. Where it is refused, the fault says so, and the feed hasn't failed.
fn try_file<T: Threads + Sync, A: Allocator + Copy + Send + Sync>(
    rt: &T,
    heap: &Refusing<Global>,
    alloc: A,
    threads: u32,
    refusal: Refusal,
) -> Result<Tried, Fail> {
    let day = two_stocks(alloc)?;
    let file = file_of(alloc, &day)?;
    let mut feed = Feed::new(file.as_slice());
    heap.restart(refusal);
    let made = replay(rt, alloc, &mut feed, MOST, 60, threads, &Silent)?;
    let tried = heap.tried(made.is_err());
    same("a feed", &(refusal, feed.failed()), &(refusal, false))?;
    match made {
        Ok(made) => same_file(alloc, &day, &made)?,
        Err(fault) => same("a fault", &(refusal, fault), &(refusal, LoadFault::Memory))?,
    }
    Ok(tried)
}

#[test]
fn a_file_without_memory_makes_nothing(rt: HostRuntime) -> Result<(), Fail> {
    let heap = Refusing::new(rt.alloc(), Refusal::Never);
    for threads in [1, 2] {
        refuse_each(|refusal: Refusal| -> Result<Tried, Fail> {
            try_file(&rt, &heap, &heap, threads, refusal)
        })?;
    }
    Ok(())
}
