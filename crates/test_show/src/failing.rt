//! Runs with devices that fail.
use crate::worked::{MSFT_AT_7, file, symbol};
use binaryfile::{Feed, Sink};
use engine_rules::ProgFault;
use itch_readings::StockFault;
use itch_show::{Place, show_run};
use std::alloc::Allocator;
use std::io::{ErrorKind, Read, Write};
use std::test::Fail;
use test_support::{Failure, MSFT, Narrow, Pieces, same, same_bytes};

// A run that shows a stock after a message of another one.
fn run<A: Allocator + Copy, R: Read + Drop, S: Read + Drop, W: Write>(
    alloc: A,
    reader: R,
    again: S,
    writer: &mut W,
) -> Result<(), StockFault> {
    let (mut feed, mut second, mut sink) = (Feed::new(reader), Feed::new(again), Sink::new(writer));
    show_run(
        alloc,
        &mut feed,
        &mut second,
        &mut sink,
        symbol(MSFT),
        Place::After(7),
    )
}

// A run of which one reader fails at a call, and gives 30 bytes at each.
fn try_read<A: Allocator + Copy>(
    alloc: A,
    file: &[u8],
    failing: (u64, u64),
    kind: ErrorKind,
) -> Result<(), Fail> {
    let mut output = Vec::new(alloc);
    let reader = Pieces::failing(file, 30, failing.0, kind);
    let again = Pieces::failing(file, 30, failing.1, kind);
    let returned = run(alloc, reader, again, &mut output);
    let wanted = Err(StockFault::Engine(ProgFault::Read));
    same(
        "a failed read",
        &(failing, returned, output.len()),
        &(failing, wanted, 0),
    )
}

// Each call gives 30 bytes, and one more the end.
#[test]
fn nothing_is_sent_after_a_failed_read(rt: HostRuntime) -> Result<(), Fail> {
    let alloc = rt.alloc();
    let file = file(alloc)?;
    for failing in 1..=(file.len() as u64).div_ceil(30).saturating_add(1) {
        for kind in [ErrorKind::Interrupted, ErrorKind::Other] {
            try_read(alloc, &file, (failing, 0), kind)?;
            try_read(alloc, &file, (0, failing), kind)?;
        }
    }
    Ok(())
}

// A run whose writer takes one byte a call, and fails when it has taken this many.
fn try_write<A: Allocator + Copy>(
    alloc: A,
    file: &[u8],
    taken: usize,
    failure: Failure,
) -> Result<(), Fail> {
    let failing = (taken as u64).saturating_add(1);
    let mut output = Narrow::failing(alloc, failing, failure);
    let returned = run(alloc, file, file, &mut output);
    let wanted = Err(StockFault::Engine(ProgFault::Write));
    same(
        "a failed write",
        &(returned, output.calls()),
        &(wanted, failing),
    )?;
    let prefix = MSFT_AT_7.get(..taken).unwrap_or(b"no prefix");
    same_bytes("what was taken", output.taken(), prefix)
}

#[test]
fn a_prefix_is_sent_before_a_failed_write(rt: HostRuntime) -> Result<(), Fail> {
    let alloc = rt.alloc();
    let file = file(alloc)?;
    for taken in [0, 1, 15, 16, MSFT_AT_7.len().saturating_sub(1)] {
        try_write(alloc, &file, taken, Failure::Error(ErrorKind::Interrupted))?;
        try_write(alloc, &file, taken, Failure::Error(ErrorKind::Other))?;
        try_write(alloc, &file, taken, Failure::TakesNone)?;
    }
    Ok(())
}

#[test]
fn all_is_sent_where_nothing_fails(rt: HostRuntime) -> Result<(), Fail> {
    let alloc = rt.alloc();
    let file = file(alloc)?;
    let mut output = Vec::new(alloc);
    let returned = run(alloc, file.as_slice(), file.as_slice(), &mut output);
    same("a run", &returned, &Ok(()))?;
    same_bytes("what was sent", &output, MSFT_AT_7)
}
