//! Runs with devices that fail, and where memory is refused.
use crate::day::{file, why};
use crate::texts::text_of;
use binaryfile::{Feed, Sink};
use engine_rules::ProgFault;
use itch_readings::StockFault;
use itch_why::why_run;
use std::alloc::Allocator;
use std::io::{ErrorKind, Read, Write};
use std::test::Fail;
use test_refusing::{Refusal, Refusing, Tried, refuse_each};
use test_support::{AMPLE, Failure, Narrow, Pieces, same, same_bytes};

// A replacement that is refused, of two orders, of which one lives, to which messages led.
const MESSAGE: u32 = 21;

// A run that says what became of a message, and why.
fn run<A: Allocator + Copy, R: Read + Drop, S: Read + Drop, W: Write>(
    alloc: A,
    reader: R,
    again: S,
    writer: &mut W,
    number: u32,
) -> Result<(), StockFault> {
    let (mut feed, mut second, mut sink) = (Feed::new(reader), Feed::new(again), Sink::new(writer));
    why_run(alloc, &mut feed, &mut second, &mut sink, number)
}

// A run of which one reader fails at a call, and gives 30 bytes at each.
fn try_read<A: Allocator + Copy>(
    alloc: A,
    file: &[u8],
    failing: (u64, u64),
    kind: ErrorKind,
) -> Result<(), Fail> {
    let mut output = Vec::new(alloc);
    let reader = Pieces::failing(file, 30, failing.0, kind);
    let again = Pieces::failing(file, 30, failing.1, kind);
    let returned = run(alloc, reader, again, &mut output, MESSAGE);
    let wanted = Err(StockFault::Engine(ProgFault::Read));
    same(
        "a failed read",
        &(failing, returned, output.len()),
        &(failing, wanted, 0),
    )
}

// Each call gives 30 bytes, and one more the end.
#[test]
fn nothing_is_sent_after_a_failed_read(rt: HostRuntime) -> Result<(), Fail> {
    let alloc = rt.alloc();
    let file = file(alloc)?;
    for failing in 1..=(file.len() as u64).div_ceil(30).saturating_add(1) {
        for kind in [ErrorKind::Interrupted, ErrorKind::Other] {
            try_read(alloc, &file, (failing, 0), kind)?;
            try_read(alloc, &file, (0, failing), kind)?;
        }
    }
    Ok(())
}

// What is sent where nothing of the second reader fails, or nothing is read of it.
fn try_sent<A: Allocator + Copy>(
    alloc: A,
    file: &[u8],
    failing: u64,
    number: u32,
) -> Result<(), Fail> {
    let mut output = Vec::new(alloc);
    let again = Pieces::failing(file, 30, failing, ErrorKind::Other);
    let returned = run(alloc, file, again, &mut output, number);
    same("a run", &returned, &Ok(()))?;
    same_bytes("what was sent", &output, &text_of(alloc, number)?)
}

// Message 1 is of no stock, and known by the first reading alone.
#[test]
fn all_is_sent_where_nothing_fails(rt: HostRuntime) -> Result<(), Fail> {
    let alloc = rt.alloc();
    let file = file(alloc)?;
    try_sent(alloc, &file, 0, MESSAGE)?;
    try_sent(alloc, &file, 1, 1)
}

// A run whose writer takes one byte a call, and fails when it has taken this many.
fn try_write<A: Allocator + Copy>(
    alloc: A,
    file: &[u8],
    text: &[u8],
    taken: usize,
    failure: Failure,
) -> Result<(), Fail> {
    let failing = (taken as u64).saturating_add(1);
    let mut output = Narrow::failing(alloc, failing, failure);
    let returned = run(alloc, file, file, &mut output, MESSAGE);
    let wanted = Err(StockFault::Engine(ProgFault::Write));
    same(
        "a failed write",
        &(returned, output.calls()),
        &(wanted, failing),
    )?;
    let prefix = text.get(..taken).unwrap_or(b"no prefix");
    same_bytes("what was taken", output.taken(), prefix)
}

#[test]
fn a_prefix_is_sent_before_a_failed_write(rt: HostRuntime) -> Result<(), Fail> {
    let alloc = rt.alloc();
    let file = file(alloc)?;
    let text = text_of(alloc, MESSAGE)?;
    for taken in [0, 1, 17, 18, text.len().saturating_sub(1)] {
        let other = Failure::Error(ErrorKind::Other);
        let interrupted = Failure::Error(ErrorKind::Interrupted);
        for failure in [interrupted, other, Failure::TakesNone] {
            try_write(alloc, &file, &text, taken, failure)?;
        }
    }
    Ok(())
}

// Whether memory is refused to what is said of a message. Otherwise it is what is wanted.
fn is_refused<A: Allocator + Copy>(alloc: A, file: &[u8], wanted: &[u8]) -> Result<bool, Fail> {
    let (mut feed, mut again) = (Feed::new(file), Feed::new(file));
    match why(alloc, &mut feed, &mut again, AMPLE, 100, MESSAGE)? {
        Ok(text) => {
            same_bytes("what is said", &text, wanted)?;
            Ok(false)
        }
        Err(fault) => {
            let refused = StockFault::Engine(ProgFault::Memory);
            same(
                "without memory",
                &(fault, feed.failed(), again.failed()),
                &(refused, false, false),
            )?;
            Ok(true)
        }
    }
}

#[test]
fn nothing_is_said_without_memory(rt: HostRuntime) -> Result<(), Fail> {
    let file = file(rt.alloc())?;
    let wanted = text_of(rt.alloc(), MESSAGE)?;
    let growths = refuse_each(|refusal: Refusal| -> Result<Tried, Fail> {
        let heap = Refusing::new(rt.alloc(), refusal);
        let refused = is_refused(&heap, &file, &wanted)?;
        Ok(heap.tried(refused))
    })?;
    same("that there are growths", &(growths > 8), &true)
}
