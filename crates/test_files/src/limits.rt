//! Limits, and memory that is refused.
use crate::THREE;
use crate::days::{File, THREE_ENTRIES, try_day};
use binaryfile::{Day, Feed, Limits, LoadFault, read_to_end};
use std::alloc::{Allocator, Global};
use std::test::Fail;
use test_refusing::{Refusal, Refusing, Tried, refuse_each};
use test_support::{AMPLE, Pieces, STORED_RUN, same};

// The limits of bytes and messages under which the three entries are loaded, and the fault.
const LIMITS: [(u64, u32, Option<LoadFault>); 5] = [
    (13, 3, None),
    (13, 2, Some(LoadFault::TooManyMessages)),
    (12, 3, Some(LoadFault::TooManyBytes)),
    (12, 2, Some(LoadFault::TooManyBytes)),
    (0, 0, Some(LoadFault::TooManyBytes)),
];

// A load under limits, which takes at most one byte more than the limit.
fn try_limits<A: Allocator + Copy>(
    alloc: A,
    file: &[u8],
    limits: Limits,
    wanted: Option<LoadFault>,
) -> Result<(), Fail> {
    let Limits { bytes, messages } = limits;
    if bytes > AMPLE.bytes {
        return Err(Fail::new("a load has a limit of 2^40 bytes at most"));
    }
    let mut reader = file;
    let mut feed = Feed::new(&mut reader);
    let loaded = Day::load(alloc, &mut feed, limits).err();
    let found = (bytes, messages, loaded, feed.failed());
    same("a fault", &found, &(bytes, messages, wanted, false))?;
    let taken = file.len().saturating_sub(reader.len()) as u64;
    let few = taken <= bytes.saturating_add(1);
    same(
        "few bytes are taken",
        &(bytes, taken, few),
        &(bytes, taken, true),
    )
}

#[test]
fn files_above_a_limit_are_refused(rt: HostRuntime) -> Result<(), Fail> {
    for (bytes, messages, wanted) in LIMITS {
        try_limits(rt.alloc(), THREE, Limits { bytes, messages }, wanted)?;
    }
    let nothing = Limits {
        bytes: 0,
        messages: 0,
    };
    try_limits(rt.alloc(), b"", nothing, None)
}

// The stored run has 114 bytes and 3 messages.
#[test]
fn each_limit_below_a_file_is_kept(rt: HostRuntime) -> Result<(), Fail> {
    for bytes in 0..=114 {
        let wanted = if bytes < 114 {
            Some(LoadFault::TooManyBytes)
        } else {
            None
        };
        try_limits(
            rt.alloc(),
            STORED_RUN,
            Limits { bytes, messages: 3 },
            wanted,
        )?;
    }
    for messages in 0..=3 {
        let wanted = if messages < 3 {
            Some(LoadFault::TooManyMessages)
        } else {
            None
        };
        let limits = Limits {
            bytes: 114,
            messages,
        };
        try_limits(rt.alloc(), STORED_RUN, limits, wanted)?;
    }
    Ok(())
}

// A file of which each read gives three bytes, and what is left of it after each number of reads.
const FOUR: &[u8] = b"\x00\x01A\x00\x01B\x00\x01C\x00\x01D\x00\x00\xff";

const RESTS: [File; 6] = [
    (FOUR, &[b"A", b"B", b"C", b"D"], true, b"\xff"),
    (
        b"\x00\x01B\x00\x01C\x00\x01D\x00\x00\xff",
        &[b"B", b"C", b"D"],
        true,
        b"\xff",
    ),
    (
        b"\x00\x01C\x00\x01D\x00\x00\xff",
        &[b"C", b"D"],
        true,
        b"\xff",
    ),
    (b"\x00\x01D\x00\x00\xff", &[b"D"], true, b"\xff"),
    (b"\x00\x00\xff", &[], true, b"\xff"),
    (b"", &[], false, b""),
];

// How many reads that gave bytes a load of the file makes under a refusal.
fn reads_under(heap: &Refusing<Global>, refusal: Refusal) -> u64 {
    let mut reader = Pieces::new(FOUR, 3);
    heap.restart(refusal);
    let _loaded = Day::load(heap, &mut Feed::new(&mut reader), AMPLE);
    reader.calls().min(5)
}

// Loads the file under a refusal. Where that is out of memory, the feed has not failed and stays past the bytes that
// were taken: a load from it with memory is the day of the rest.
fn try_load(heap: &Refusing<Global>, refusal: Refusal) -> Result<Tried, Fail> {
    let reads = reads_under(heap, refusal);
    let mut feed = Feed::new(Pieces::new(FOUR, 3));
    heap.restart(refusal);
    let loaded = Day::load(heap, &mut feed, AMPLE);
    let tried = heap.tried(loaded.is_err());
    same("a feed", &(refusal, feed.failed()), &(refusal, false))?;
    let (day, taken) = match loaded {
        Ok(day) => (day, 0),
        Err(fault) => {
            let memory = LoadFault::Memory;
            same("a fault", &(refusal, fault), &(refusal, memory))?;
            (Day::load(heap, &mut feed, AMPLE)?, reads)
        }
    };
    let Some(rest) = RESTS.get(taken as usize) else {
        return Err(Fail::new("more reads than the file has"));
    };
    try_day(heap, &day, *rest)?;
    Ok(tried)
}

#[test]
fn each_growth_of_a_load_may_be_refused(rt: HostRuntime) -> Result<(), Fail> {
    let heap = Refusing::new(rt.alloc(), Refusal::Never);
    let growths = refuse_each(|refusal: Refusal| -> Result<Tried, Fail> {
        try_load(&heap, refusal)
    })?;
    same("that there are growths", &(growths > 3), &true)
}

// The fault of a load that may grow so often, and that of a day of bytes that may not grow at all.
fn try_limit<A: Allocator>(
    heap: &Refusing<A>,
    reading: u64,
    messages: u32,
    wanted: LoadFault,
) -> Result<(), Fail> {
    heap.restart(Refusal::From(reading.saturating_add(1)));
    let limits = Limits {
        bytes: 100,
        messages,
    };
    let loaded = Day::load(heap, &mut Feed::new(THREE), limits).err();
    heap.restart(Refusal::Never);
    let bytes = THREE.to_vec(heap)?;
    heap.restart(Refusal::From(1));
    let split = Day::from_bytes(heap, bytes, messages).err();
    same(
        "loaded, and of bytes",
        &(messages, loaded, split),
        &(messages, Some(wanted), Some(wanted)),
    )
}

// The growths of reading are counted by reading alone, so that the next one is the index's.
#[test]
fn too_many_messages_are_found_before_the_index_grows(rt: HostRuntime) -> Result<(), Fail> {
    let heap = Refusing::new(rt.alloc(), Refusal::Never);
    let read = read_to_end(&heap, &mut Feed::new(THREE), 100);
    same("with memory", &read.err(), &None)?;
    let reading = heap.asked();
    try_limit(&heap, reading, 0, LoadFault::TooManyMessages)?;
    try_limit(&heap, reading, 2, LoadFault::TooManyMessages)?;
    try_limit(&heap, reading, 3, LoadFault::Memory)
}

#[test]
fn a_loaded_day_is_read_and_sent_without_memory(rt: HostRuntime) -> Result<(), Fail> {
    let heap = Refusing::new(rt.alloc(), Refusal::Never);
    let day = Day::load(&heap, &mut Feed::new(THREE), AMPLE)?;
    heap.restart(Refusal::From(1));
    try_day(rt.alloc(), &day, THREE_ENTRIES)?;
    same("the growths", &heap.asked(), &0)
}
