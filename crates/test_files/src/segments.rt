//! Files that are read segment by segment.
use crate::THREE;
use binaryfile::{Day, Feed, LoadFault};
use day_segments::SegmentReader;
use std::alloc::{AllocError, Allocator, Global};
use std::io::ErrorKind;
use std::test::Fail;
use test_refusing::{Refusal, Refusing, Tried, refuse_each};
use test_support::{Pieces, same, same_bytes, same_list};

// The most bytes of a file.
const MOST: u64 = 1 << 40;

// How many bytes a segment takes, where a test says no other number.
const SIZE: u32 = 1 << 20;

// A file of 20 entries with as many bytes as an entry can have, those of the entry after n others all n. Its first 2^20
// bytes are 15 entries and 65,521 bytes of the next one.
fn long_file<A: Allocator>(alloc: A) -> Result<Vec<u8, A>, AllocError> {
    let mut file = Vec::new(alloc);
    for byte in 0..20u8 {
        file.resize(file.len().saturating_add(2), 0xff)?;
        file.resize(file.len().saturating_add(65_535), byte)?;
    }
    Ok(file)
}

// The next segment, where one comes.
fn next<A: Allocator + Copy>(
    alloc: A,
    reader: &mut SegmentReader<A>,
    feed: &mut Feed<Pieces<'_>>,
) -> Result<Day<A>, Fail> {
    match reader.next(alloc, feed) {
        Ok(Some(segment)) => Ok(segment),
        Ok(None) => Err(Fail::new("a file ends before its last segment")),
        Err(fault) => Err(Fail::new(format_args!("a segment has a fault: {fault:?}"))),
    }
}

// That a file has no segment more, and so many messages and bytes.
fn try_end<A: Allocator + Copy>(
    alloc: A,
    reader: &mut SegmentReader<A>,
    feed: &mut Feed<Pieces<'_>>,
    wanted: (u64, u64),
) -> Result<(), Fail> {
    let ended = matches!(reader.next(alloc, feed), Ok(None));
    same("the end", &(ended, feed.failed()), &(true, false))?;
    same(
        "its messages and bytes",
        &(reader.messages(), reader.bytes()),
        &wanted,
    )
}

#[test]
fn an_entry_of_two_segments_is_in_the_second(rt: HostRuntime) -> Result<(), Fail> {
    let alloc = rt.alloc();
    let file = long_file(alloc)?;
    let mut feed = Feed::new(Pieces::new(&file, 1_000_000));
    let mut reader = SegmentReader::new(alloc, SIZE, MOST);
    let first = next(alloc, &mut reader, &mut feed)?;
    same(
        "a segment",
        &(first.len(), first.tail().len()),
        &(15, 65_521),
    )?;
    let second = next(alloc, &mut reader, &mut feed)?;
    same(
        "the next one",
        &(second.len(), second.marked()),
        &(5, false),
    )?;
    let Some(shared) = second.payloads().next() else {
        return Err(Fail::new("a segment of five entries has no first one"));
    };
    same_bytes("the entry", shared, &[15; 65_535])?;
    try_end(alloc, &mut reader, &mut feed, (20, 1_310_740))
}

#[test]
fn nothing_after_a_marker_is_an_entry(rt: HostRuntime) -> Result<(), Fail> {
    let alloc = rt.alloc();
    let mut file = THREE.to_vec(alloc)?;
    file.extend_from_slice(&long_file(alloc)?)?;
    let mut feed = Feed::new(Pieces::new(&file, 100_000));
    let mut reader = SegmentReader::new(alloc, SIZE, MOST);
    let first = next(alloc, &mut reader, &mut feed)?;
    same("a segment", &(first.len(), first.marked()), &(3, true))?;
    let second = next(alloc, &mut reader, &mut feed)?;
    same("the next one", &(second.len(), second.marked()), &(0, true))?;
    try_end(alloc, &mut reader, &mut feed, (3, 1_310_753))
}

// A file whose first segment ends after one byte of these, which stand after 15 long entries and one of 65,518 bytes:
// what the second segment is.
fn try_border<A: Allocator + Copy>(
    alloc: A,
    rest: &[u8],
    wanted: (u32, bool, &[u8]),
) -> Result<(), Fail> {
    let mut file = long_file(alloc)?;
    file.truncate(15 * 65_537);
    file.extend_from_slice(&[0xff, 0xee])?;
    file.resize(1_048_575, b'x')?;
    file.extend_from_slice(rest)?;
    let mut feed = Feed::new(Pieces::new(&file, 1 << 20));
    let mut reader = SegmentReader::new(alloc, SIZE, MOST);
    let first = next(alloc, &mut reader, &mut feed)?;
    same("a segment", &(first.len(), first.tail().len()), &(16, 1))?;
    let second = next(alloc, &mut reader, &mut feed)?;
    let found = (second.len(), second.marked(), second.tail());
    same("the next one", &found, &wanted)
}

#[test]
fn a_length_and_a_marker_may_be_cut_between_segments(rt: HostRuntime) -> Result<(), Fail> {
    try_border(rt.alloc(), b"\x00\x01A\x00\x00\xff", (1, true, b"\xff"))?;
    try_border(rt.alloc(), b"\x00\x00\xff", (0, true, b"\xff"))?;
    try_border(rt.alloc(), b"\x00\x05ABC", (0, false, b"\x00\x05ABC"))
}

// A file of which each segment takes so many bytes: the entries of each segment, whether it has come to the end marker,
// and its tail.
fn try_segments<A: Allocator + Copy>(
    alloc: A,
    file: &[u8],
    size: u32,
    wanted: &[(&[&[u8]], bool, &[u8])],
) -> Result<(), Fail> {
    if size == 0 || size > 1 << 30 {
        return Err(Fail::new("a segment takes 1 to 2^30 bytes"));
    }
    let mut feed = Feed::new(Pieces::new(file, 2));
    let mut reader = SegmentReader::new(alloc, size, MOST);
    for (entries, marked, tail) in wanted {
        let segment = next(alloc, &mut reader, &mut feed)?;
        let found = segment.payloads().collect::<Vec<&[u8], A>>(alloc)?;
        same_list("the entries", &found, entries)?;
        let rest = (segment.marked(), segment.tail());
        same("the rest", &(size, rest), &(size, (*marked, *tail)))?;
    }
    try_end(alloc, &mut reader, &mut feed, (2, 15))
}

// Two entries, a marker and two bytes.
const TWO: &[u8] = b"\x00\x01A\x00\x06BCDEFG\x00\x00\xff\xee";

// The second entry is in the fourth segment, which ends after one byte of the marker.
#[test]
fn an_entry_and_a_marker_may_be_cut_into_segments_of_three_bytes(
    rt: HostRuntime,
) -> Result<(), Fail> {
    try_segments(
        rt.alloc(),
        TWO,
        3,
        &[
            (&[b"A"], false, b""),
            (&[], false, b"\x00\x06B"),
            (&[], false, b"\x00\x06BCDE"),
            (&[b"BCDEFG"], false, b"\x00"),
            (&[], true, b"\xff\xee"),
        ],
    )
}

// The first segment ends after a length, the second in the midst of its entry.
#[test]
fn an_entry_may_be_cut_into_segments_of_five_bytes(rt: HostRuntime) -> Result<(), Fail> {
    try_segments(
        rt.alloc(),
        TWO,
        5,
        &[
            (&[b"A"], false, b"\x00\x06"),
            (&[], false, b"\x00\x06BCDEF"),
            (&[b"BCDEFG"], true, b"\xff\xee"),
        ],
    )
}

// The fault of a segment of so many bytes, where no more than `most` may come, and how many it takes.
fn try_limit<A: Allocator + Copy>(
    alloc: A,
    size: u32,
    most: u64,
    wanted: (Option<LoadFault>, usize),
) -> Result<(), Fail> {
    if size == 0 || size > 1 << 30 {
        return Err(Fail::new("a segment takes 1 to 2^30 bytes"));
    }
    if most > MOST {
        return Err(Fail::new("a file has 2^40 bytes at most"));
    }
    let mut reader = THREE;
    let mut feed = Feed::new(&mut reader);
    let fault = SegmentReader::new(alloc, size, most)
        .next(alloc, &mut feed)
        .err();
    let taken = THREE.len().saturating_sub(reader.len());
    same(
        "a fault",
        &((size, most), (fault, taken)),
        &((size, most), wanted),
    )
}

#[test]
fn a_segment_takes_no_more_than_its_limit_and_one_byte(rt: HostRuntime) -> Result<(), Fail> {
    try_limit(rt.alloc(), SIZE, 13, (None, 13))?;
    try_limit(rt.alloc(), SIZE, 12, (Some(LoadFault::TooManyBytes), 13))?;
    try_limit(rt.alloc(), SIZE, 5, (Some(LoadFault::TooManyBytes), 6))?;
    try_limit(rt.alloc(), SIZE, 0, (Some(LoadFault::TooManyBytes), 1))?;
    try_limit(rt.alloc(), 5, 5, (None, 5))?;
    try_limit(rt.alloc(), 5, 4, (Some(LoadFault::TooManyBytes), 5))
}

// A failed feed stays failed, and its reader, which would go on, is not asked again.
#[test]
fn a_segment_fails_where_its_feed_does(rt: HostRuntime) -> Result<(), Fail> {
    let mut reader = Pieces::failing(THREE, 4, 2, ErrorKind::Interrupted);
    let mut feed = Feed::new(&mut reader);
    let mut segments = SegmentReader::new(rt.alloc(), SIZE, MOST);
    for _ in 0..2 {
        let fault = segments.next(rt.alloc(), &mut feed).err();
        let wanted = (Some(LoadFault::Read), true);
        same("a fault", &(fault, feed.failed()), &wanted)?;
    }
    same("how often the reader was asked", &reader.calls(), &2)
}

// A segment of bytes whose last entry is cut, under a refusal. Where that is out of memory, the feed has not failed.
fn try_memory(heap: &Refusing<Global>, refusal: Refusal) -> Result<Tried, Fail> {
    let mut feed = Feed::new(b"\x00\x01A\x00\x02B".as_slice());
    heap.restart(refusal);
    let mut reader = SegmentReader::new(heap, SIZE, MOST);
    let segment = reader.next(heap, &mut feed);
    let tried = heap.tried(segment.is_err());
    same("a feed", &(refusal, feed.failed()), &(refusal, false))?;
    match segment {
        Ok(Some(segment)) => {
            same("entries", &(refusal, segment.len()), &(refusal, 1))?;
            same_bytes("its tail", segment.tail(), b"\x00\x02B")?;
        }
        Ok(None) => return Err(Fail::new("a file has no segment")),
        Err(fault) => same("a fault", &(refusal, fault), &(refusal, LoadFault::Memory))?,
    }
    Ok(tried)
}

// A growth for the bytes, one for the index and one for what is carried over.
#[test]
fn each_growth_of_a_segment_may_be_refused(rt: HostRuntime) -> Result<(), Fail> {
    let heap = Refusing::new(rt.alloc(), Refusal::Never);
    let growths = refuse_each(|refusal: Refusal| -> Result<Tried, Fail> {
        try_memory(&heap, refusal)
    })?;
    same("the growths", &growths, &3)
}
