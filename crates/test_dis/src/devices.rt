//! Devices that fail.
use crate::printing::{Printed, SEGMENTS};
use binaryfile::{Feed, Sink};
use itch_engine::ProgFault;
use std::alloc::Allocator;
use std::io::ErrorKind;
use std::test::Fail;
use test_support::{FILE, Failure, Narrow, Pieces, TEXT, same, same_bytes};

// How long the text of the worked file's five messages is, which each part of it is that has all of them.
fn lines_long() -> usize {
    TEXT.len().saturating_sub(b"end\nrest ff00\n".len())
}

// Both, and how much of the text they write.
fn both() -> [(Printed, usize); 2] {
    [
        (Printed::Whole, TEXT.len()),
        (Printed::Part(1, None), lines_long()),
    ]
}

// The first bytes of the text.
fn first(count: usize) -> &'static [u8] {
    TEXT.get(..count).unwrap_or(b"no such part")
}

// A run whose reader gives one byte a call and fails at one call. The lines of the segments before were written.
fn try_read<A: Allocator + Copy>(
    alloc: A,
    printed: Printed,
    segment: u32,
    failing: u64,
) -> Result<usize, Fail> {
    let mut pieces = Pieces::failing(FILE, 1, failing, ErrorKind::Interrupted);
    let mut feed = Feed::new(&mut pieces);
    let mut output = Vec::new(alloc);
    let returned = printed.run(alloc, &mut feed, &mut Sink::new(&mut output), segment)?;
    let case = (printed, segment, failing);
    let found = (returned, feed.failed());
    same(
        "a failed read",
        &(case, found),
        &(case, (Err(ProgFault::Read), true)),
    )?;
    same(
        "how often it was asked",
        &(case, pieces.calls()),
        &(case, failing),
    )?;
    same_bytes("what was written", &output, first(output.len()))?;
    Ok(output.len())
}

// The first line has 240 bytes or more, and is written once its entry of 41 bytes was read.
#[test]
fn a_beginning_was_written_where_a_read_fails(rt: HostRuntime) -> Result<(), Fail> {
    for (printed, long) in both() {
        for segment in SEGMENTS {
            for failing in 1..=(FILE.len() as u64).saturating_add(1) {
                let written = try_read(rt.alloc(), printed, segment, failing)?;
                let read = failing.saturating_sub(1);
                let whole = read / u64::from(segment) * u64::from(segment);
                let case = (printed, segment, failing);
                let found = (whole >= 41, written > 200);
                same("whether it is written", &(case, found.1), &(case, found.0))?;
                let within = written <= long;
                same("that it is no more", &(case, within), &(case, true))?;
            }
        }
    }
    Ok(())
}

// A run whose writer takes one byte a call, and fails when it has taken this many.
fn try_write<A: Allocator + Copy>(
    alloc: A,
    printed: Printed,
    segment: u32,
    taken: usize,
    failure: Failure,
) -> Result<(), Fail> {
    let failing = (taken as u64).saturating_add(1);
    let mut output = Narrow::failing(alloc, failing, failure);
    let mut sink = Sink::new(&mut output);
    let returned = printed.run(alloc, &mut Feed::new(FILE), &mut sink, segment)?;
    let case = (printed, segment, taken);
    let found = (returned, sink.failed());
    same(
        "a failed write",
        &(case, found),
        &(case, (Err(ProgFault::Write), true)),
    )?;
    same(
        "how often it was asked",
        &(case, output.calls()),
        &(case, failing),
    )?;
    same_bytes("what was taken", output.taken(), first(taken))
}

#[test]
fn a_beginning_was_taken_where_a_write_fails(rt: HostRuntime) -> Result<(), Fail> {
    for (printed, long) in both() {
        for taken in 0..long {
            let error = Failure::Error(ErrorKind::Interrupted);
            try_write(rt.alloc(), printed, 41, taken, error)?;
            try_write(rt.alloc(), printed, 1000, taken, Failure::TakesNone)?;
        }
    }
    Ok(())
}

// Nothing is read on where a write fails: of segments of 10 bytes the first line is made of the fifth.
#[test]
fn a_failed_write_ends_the_reading(rt: HostRuntime) -> Result<(), Fail> {
    let mut pieces = Pieces::new(FILE, 10);
    let mut feed = Feed::new(&mut pieces);
    let mut output = Narrow::failing(rt.alloc(), 1, Failure::TakesNone);
    let mut sink = Sink::new(&mut output);
    let returned = Printed::Whole.run(rt.alloc(), &mut feed, &mut sink, 10)?;
    same("a result", &returned, &Err(ProgFault::Write))?;
    same("how often the reader was asked", &pieces.calls(), &5)
}

// A feed that had failed isn't asked, and nothing is written.
#[test]
fn a_failed_feed_is_a_fault_at_once(rt: HostRuntime) -> Result<(), Fail> {
    for printed in [
        Printed::Whole,
        Printed::Part(1, None),
        Printed::Part(1, Some(0)),
    ] {
        let mut pieces = Pieces::failing(FILE, 1, 1, ErrorKind::Other);
        let mut feed = Feed::new(&mut pieces);
        let refused = feed.read(&mut [0]).is_err();
        same("that a read fails", &refused, &true)?;
        let mut output = Vec::new(rt.alloc());
        let returned = printed.run(rt.alloc(), &mut feed, &mut Sink::new(&mut output), 1000)?;
        let found = (returned, output.len());
        same(
            "a run",
            &(printed, found),
            &(printed, (Err(ProgFault::Read), 0)),
        )?;
        same("how often it was asked", &pieces.calls(), &1)?;
    }
    Ok(())
}

// A sink that had failed is a fault where something is to be written, and else it isn't.
#[test]
fn a_failed_sink_is_a_fault_where_there_are_lines(rt: HostRuntime) -> Result<(), Fail> {
    for (file, wanted) in [
        (FILE, Err(ProgFault::Write)),
        (b"\x00".as_slice(), Err(ProgFault::Write)),
        (b"".as_slice(), Ok(())),
    ] {
        let mut output = Narrow::failing(rt.alloc(), 1, Failure::TakesNone);
        let mut sink = Sink::new(&mut output);
        let refused = sink.write(b"x").is_err();
        same("that a write fails", &refused, &true)?;
        let returned = Printed::Whole.run(rt.alloc(), &mut Feed::new(file), &mut sink, 1000)?;
        same("a result", &returned, &wanted)?;
        same("how often it was asked", &output.calls(), &1)?;
    }
    Ok(())
}
