//! Files and their parts.
use crate::THREE;
use binaryfile::{Day, Feed, Sink};
use std::alloc::Allocator;
use std::test::Fail;
use test_support::{AMPLE, Pieces, STORED_RUN, same, same_bytes};

/// A file, and its payloads, whether it is marked, and its tail.
pub type File<'a> = (&'a [u8], &'a [&'a [u8]], bool, &'a [u8]);

/// The three entries.
pub const THREE_ENTRIES: File = (THREE, &[b"A", b"BC", b"D"], true, b"\xff");

const FILES: [File; 8] = [
    (b"", &[], false, b""),
    (b"\x00", &[], false, b"\x00"),
    (b"\x00\x05A\x00", &[], false, b"\x00\x05A\x00"),
    (b"\x00\x01A\x00\x02B", &[b"A"], false, b"\x00\x02B"),
    (b"\x00\x00", &[], true, b""),
    (b"\x00\x00\xff", &[], true, b"\xff"),
    (b"\x00\x00\x00\x00", &[], true, b"\x00\x00"),
    THREE_ENTRIES,
];

/// A day has the parts of its file, and gives its bytes back.
pub fn try_day<A: Allocator, B: Allocator + Copy>(
    alloc: B,
    day: &Day<A>,
    file: File,
) -> Result<(), Fail> {
    let (bytes, payloads, marked, tail) = file;
    same("how many payloads", &(day.len() as usize), &payloads.len())?;
    let mut number = 0usize;
    for payload in day.payloads() {
        same("a payload", &Some(payload), &payloads.get(number).copied())?;
        number = number.wrapping_add(1);
    }
    same("payloads in turn", &number, &payloads.len())?;
    for number in 1..=day.len() {
        let wanted = payloads.get(number as usize - 1).copied();
        same(
            "a payload by its number",
            &Some(day.payload(number)),
            &wanted,
        )?;
    }
    same("the marker", &day.marked(), &marked)?;
    same_bytes("the tail", day.tail(), tail)?;
    same_bytes("the bytes that were loaded", day.bytes(), bytes)?;
    let mut sent = Vec::new(alloc);
    same(
        "a day is sent",
        &day.write_to(&mut Sink::new(&mut sent)),
        &Ok(()),
    )?;
    same_bytes("the bytes that were sent", &sent, bytes)
}

// A file that comes in pieces is loaded as a day with its parts.
fn try_pieces<A: Allocator + Copy>(alloc: A, file: File, most: usize) -> Result<(), Fail> {
    let (bytes, _, _, _) = file;
    let mut feed = Feed::new(Pieces::new(bytes, most));
    let day = Day::load(alloc, &mut feed, AMPLE)?;
    same("a feed that gave its end", &feed.failed(), &false)?;
    try_day(alloc, &day, file)
}

#[test]
fn files_are_split_however_they_are_given(rt: HostRuntime) -> Result<(), Fail> {
    for file in FILES {
        for most in 1..=13 {
            try_pieces(rt.alloc(), file, most)?;
        }
    }
    Ok(())
}

#[test]
fn the_stored_run_is_split_alike_in_pieces_of_every_size(rt: HostRuntime) -> Result<(), Fail> {
    let (Some(directory), Some(bid), Some(execution)) = (
        STORED_RUN.get(2..41),
        STORED_RUN.get(43..79),
        STORED_RUN.get(81..112),
    ) else {
        return Err(Fail::new("the stored run is too short"));
    };
    let payloads = [directory, bid, execution];
    let file: File = (STORED_RUN, &payloads, true, b"");
    for most in 1..=STORED_RUN.len() {
        try_pieces(rt.alloc(), file, most)?;
    }
    Ok(())
}

// The index finds each payload, on both sides of the places that it keeps.
#[test]
fn payloads_are_found_by_number(rt: HostRuntime) -> Result<(), Fail> {
    let mut file = Vec::new(rt.alloc());
    for number in 1..=100 {
        file.extend_from_slice(&[0, 2, number, 0])?;
    }
    let day = Day::from_bytes(rt.alloc(), file, 100)?;
    same("how many payloads", &day.len(), &100)?;
    for number in 1..=100 {
        if u32::from(number) <= day.len() {
            same_bytes("a payload", day.payload(u32::from(number)), &[number, 0])?;
        }
    }
    Ok(())
}
