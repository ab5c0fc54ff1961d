//! The lines of some messages.
use crate::printing::{Printed, SEGMENTS};
use binaryfile::{Feed, Sink};
use itch_engine::ProgFault;
use std::alloc::Allocator;
use std::io::ErrorKind;
use std::test::Fail;
use test_support::{FILE, Pieces, TEXT, same, same_bytes};

// How many messages the worked file has, and after which of its bytes each ends.
const MESSAGES: u32 = 5;

const ENDS: [u64; 5] = [41, 79, 82, 86, 100];

// The lines of the worked file's text from one number to another, of those that are lines of messages.
fn lines<A: Allocator + Copy>(alloc: A, first: u32, last: u32) -> Result<Vec<u8, A>, Fail> {
    let mut lines = Vec::new(alloc);
    let mut number = 1u32;
    for byte in TEXT {
        if first <= number && number <= last && number <= MESSAGES {
            lines.push(*byte)?;
        }
        if *byte == b'\n' {
            number = number.saturating_add(1);
        }
    }
    Ok(lines)
}

// Writes a part of the worked file's text in segments of so many bytes, and compares it.
fn compare<A: Allocator + Copy>(
    alloc: A,
    segment: u32,
    first: u32,
    last: Option<u32>,
) -> Result<(), Fail> {
    let mut feed = Feed::new(Pieces::new(FILE, 9));
    let mut output = Vec::new(alloc);
    let part = Printed::Part(first, last);
    let returned = part.run(alloc, &mut feed, &mut Sink::new(&mut output), segment)?;
    let case = (part, segment);
    same("a result", &(case, returned), &(case, Ok(())))?;
    same_bytes(
        "a part",
        &output,
        &lines(alloc, first, last.unwrap_or(u32::MAX))?,
    )
}

// Numbers below the first message and beyond the last one have no lines, and there are none where the last is before the
// first.
#[test]
fn parts_are_the_same_in_segments_of_any_size(rt: HostRuntime) -> Result<(), Fail> {
    for segment in SEGMENTS {
        for first in [0, 1, 2, 3, 4, 5, 6, 7, u32::MAX] {
            for last in [0, 1, 2, 3, 4, 5, 6, u32::MAX] {
                compare(rt.alloc(), segment, first, Some(last))?;
            }
            compare(rt.alloc(), segment, first, None)?;
        }
    }
    Ok(())
}

// Lines 2 and 3, by hand.
#[test]
fn a_part_has_the_lines_of_its_numbers(rt: HostRuntime) -> Result<(), Fail> {
    let mut output = Vec::new(rt.alloc());
    let part = Printed::Part(2, Some(3));
    let returned = part.run(
        rt.alloc(),
        &mut Feed::new(FILE),
        &mut Sink::new(&mut output),
        16,
    )?;
    same("a result", &returned, &Ok(()))?;
    let wanted =
        b"add locate=1 tracking=0 time=1 reference=1 side=\"B\" shares=100 stock=\"AAPL\" price=1010000\n\
          raw 41\n";
    same_bytes("a part", &output, wanted)
}

// Lines up to a message, of a reader that gives one byte a call and fails as soon as it is asked for more than the segment
// that has the message's last byte.
fn try_stop<A: Allocator + Copy>(
    alloc: A,
    segment: u32,
    last: u32,
    asked: u64,
) -> Result<(), Fail> {
    let mut pieces = Pieces::failing(FILE, 1, asked.saturating_add(1), ErrorKind::Other);
    let mut feed = Feed::new(&mut pieces);
    let mut output = Vec::new(alloc);
    let part = Printed::Part(1, Some(last));
    let returned = part.run(alloc, &mut feed, &mut Sink::new(&mut output), segment)?;
    let case = (segment, last);
    same("a result", &(case, returned), &(case, Ok(())))?;
    same(
        "how often the reader was asked",
        &(case, pieces.calls()),
        &(case, asked),
    )?;
    same_bytes("a part", &output, &lines(alloc, 1, last)?)
}

#[test]
fn a_part_ends_the_reading(rt: HostRuntime) -> Result<(), Fail> {
    for segment in [1, 2, 3, 5, 13, 40] {
        try_stop(rt.alloc(), segment, 0, 0)?;
        let mut last = 0u32;
        for end in ENDS {
            last = last.saturating_add(1);
            let read = end.next_multiple_of(u64::from(segment));
            // The last segment is not full, which one call more finds out.
            let asked = read.min((FILE.len() as u64).saturating_add(1));
            try_stop(rt.alloc(), segment, last, asked)?;
        }
    }
    Ok(())
}

// One that is asked for more than the file has goes on to its end.
#[test]
fn a_part_to_the_end_reads_to_it(rt: HostRuntime) -> Result<(), Fail> {
    for last in [None, Some(6), Some(u32::MAX)] {
        let length = FILE.len() as u64;
        for failing in 1..=length.saturating_add(1) {
            let mut feed = Feed::new(Pieces::failing(FILE, 1, failing, ErrorKind::Other));
            let mut output = Vec::new(rt.alloc());
            let part = Printed::Part(1, last);
            let returned = part.run(rt.alloc(), &mut feed, &mut Sink::new(&mut output), 10)?;
            let case = (last, failing);
            same("a result", &(case, returned), &(case, Err(ProgFault::Read)))?;
        }
    }
    Ok(())
}
