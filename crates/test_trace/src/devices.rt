//! Devices that fail.
use crate::traced::{ALL, BOTH, Traced, stops};
use binaryfile::{Feed, Sink};
use engine_rules::ProgFault;
use std::alloc::Allocator;
use std::io::ErrorKind;
use std::test::Fail;
use test_support::{FILE, Failure, Narrow, Pieces, same, same_bytes};

// The first bytes of a trace.
fn first(text: &[u8], count: usize) -> &[u8] {
    text.get(..count).unwrap_or(b"no such part")
}

// A run whose reader gives one byte a call and fails at one call. The lines of the segments before were written.
fn try_read<A: Allocator + Copy>(
    alloc: A,
    traced: Traced,
    text: &[u8],
    segment: u32,
    failing: u64,
) -> Result<usize, Fail> {
    let mut pieces = Pieces::failing(FILE, 1, failing, ErrorKind::Interrupted);
    let mut feed = Feed::new(&mut pieces);
    let mut output = Vec::new(alloc);
    let mut sink = Sink::new(&mut output);
    let returned = traced.run(alloc, &mut feed, &mut sink, segment, ALL)?;
    let case = (traced, segment, failing);
    let found = (returned, feed.failed());
    same(
        "a failed read",
        &(case, found),
        &(case, (stops(ProgFault::Read), true)),
    )?;
    same(
        "how often it was asked",
        &(case, pieces.calls()),
        &(case, failing),
    )?;
    same_bytes("what was written", &output, first(text, output.len()))?;
    Ok(output.len())
}

// The first line is written with the first segment of all messages, and with the directory message, an entry of 41 bytes, of
// its stock.
#[test]
fn a_beginning_was_written_where_a_read_fails(rt: HostRuntime) -> Result<(), Fail> {
    for (traced, text) in BOTH {
        for segment in [41, 1000] {
            for failing in 1..=(FILE.len() as u64).saturating_add(1) {
                let written = try_read(rt.alloc(), traced, text, segment, failing)?;
                let read = failing.saturating_sub(1);
                let whole = read / u64::from(segment) * u64::from(segment);
                let begins = match traced {
                    Traced::All => whole > 0,
                    Traced::Stock(_) => whole >= 41,
                };
                let case = (traced, segment, failing);
                same(
                    "whether it is written",
                    &(case, written > 0),
                    &(case, begins),
                )?;
            }
        }
    }
    Ok(())
}

// A run whose writer takes one byte a call, and fails when it has taken this many.
fn try_write<A: Allocator + Copy>(
    alloc: A,
    traced: Traced,
    text: &[u8],
    segment: u32,
    taken: usize,
    failure: Failure,
) -> Result<(), Fail> {
    let failing = (taken as u64).saturating_add(1);
    let mut output = Narrow::failing(alloc, failing, failure);
    let mut sink = Sink::new(&mut output);
    let returned = traced.run(alloc, &mut Feed::new(FILE), &mut sink, segment, ALL)?;
    let case = (traced, segment, taken);
    let found = (returned, sink.failed());
    same(
        "a failed write",
        &(case, found),
        &(case, (stops(ProgFault::Write), true)),
    )?;
    same(
        "how often it was asked",
        &(case, output.calls()),
        &(case, failing),
    )?;
    same_bytes("what was taken", output.taken(), first(text, taken))
}

#[test]
fn a_beginning_was_taken_where_a_write_fails(rt: HostRuntime) -> Result<(), Fail> {
    for (traced, text) in BOTH {
        for taken in 0..text.len() {
            let error = Failure::Error(ErrorKind::Interrupted);
            try_write(rt.alloc(), traced, text, 41, taken, error)?;
            try_write(rt.alloc(), traced, text, 1000, taken, Failure::TakesNone)?;
        }
    }
    Ok(())
}

// A feed that had failed isn't asked, and nothing is written.
#[test]
fn a_failed_feed_is_a_fault_at_once(rt: HostRuntime) -> Result<(), Fail> {
    for (traced, _) in BOTH {
        let mut pieces = Pieces::failing(FILE, 1, 1, ErrorKind::Other);
        let mut feed = Feed::new(&mut pieces);
        let refused = feed.read(&mut [0]).is_err();
        same("that a read fails", &refused, &true)?;
        let mut output = Vec::new(rt.alloc());
        let mut sink = Sink::new(&mut output);
        let returned = traced.run(rt.alloc(), &mut feed, &mut sink, 1000, ALL)?;
        let found = (returned, output.len());
        same(
            "a run",
            &(traced, found),
            &(traced, (stops(ProgFault::Read), 0)),
        )?;
        same("how often it was asked", &pieces.calls(), &1)?;
    }
    Ok(())
}
