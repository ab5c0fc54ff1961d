//! Sessions between a reader and a writer: pieces of lines, their end, and devices that fail.
use crate::worked::{TRADED, add_line, day_in};
use binaryfile::{Feed, Sink};
use itch_debug::debug_run;
use itch_engine::ProgFault;
use std::alloc::Allocator;
use std::io::ErrorKind;
use std::test::Fail;
use test_support::{Failure, Narrow, Pieces, same, same_bytes};

// Lines, the last of which no line feed ends, and their answers.
const LINES: &str = "goto 0\nback\ngoto 5";

const ANSWERS: &str = "at 0 start\n? before start\nat 5 applied\n";

// Runs a session whose writer fails at a call, at none where that is 0, and compares how it ended, and what was
// written, with these.
fn run<A: Allocator + Copy>(
    alloc: A,
    mut reader: Pieces<'_>,
    failing: u64,
    ends: Option<ProgFault>,
    wanted: &[u8],
) -> Result<(), Fail> {
    let day = day_in(alloc, TRADED)?;
    let mut writer = Narrow::failing(alloc, failing, Failure::TakesNone);
    let mut feed = Feed::new(&mut reader);
    let mut sink = Sink::new(&mut writer);
    let fault = debug_run(alloc, &day, &mut feed, &mut sink).err();
    same("how the session ended", &fault, &ends)?;
    same_bytes("the answers", writer.taken(), wanted)
}

#[test]
fn lines_are_answered_however_the_reader_gives_them(rt: HostRuntime) -> Result<(), Fail> {
    for most in [1, 2, 3, 7, 100] {
        run(
            rt.alloc(),
            Pieces::new(LINES.as_bytes(), most),
            0,
            None,
            ANSWERS.as_bytes(),
        )?;
    }
    Ok(())
}

// The first two lines have 12 bytes. The reader fails at its first call after the one that gives the last of them.
#[test]
fn nothing_is_read_or_answered_after_quit(rt: HostRuntime) -> Result<(), Fail> {
    for (most, failing) in [(1, 13), (2, 7), (100, 2)] {
        run(
            rt.alloc(),
            Pieces::failing(b"goto 0\nquit\nback\n", most, failing, ErrorKind::Other),
            0,
            None,
            b"at 0 start\n",
        )?;
    }
    Ok(())
}

// What is answered before the call with a number, where each call gives one byte: the first line has 7 bytes, and the
// second 5.
fn answered_before(call: u64) -> &'static [u8] {
    match call {
        0..=7 => b"",
        8..=12 => b"at 0 start\n",
        _ => b"at 0 start\n? before start\n",
    }
}

// A reader that fails at a call finds the lines answered that ended before. The last of 19 calls gives the end.
#[test]
fn a_line_is_answered_before_the_reader_is_asked_for_more(rt: HostRuntime) -> Result<(), Fail> {
    for failing in 1..=19 {
        let reader = Pieces::failing(LINES.as_bytes(), 1, failing, ErrorKind::Other);
        run(
            rt.alloc(),
            reader,
            0,
            Some(ProgFault::Read),
            answered_before(failing),
        )?;
    }
    Ok(())
}

// A writer that takes one byte a call, and none at one call.
#[test]
fn a_writer_that_fails_has_taken_a_prefix_of_the_answers(rt: HostRuntime) -> Result<(), Fail> {
    for failing in 1..=ANSWERS.len() {
        let reader = Pieces::new(LINES.as_bytes(), 2);
        let wanted = ANSWERS.as_bytes().get(..failing.saturating_sub(1));
        run(
            rt.alloc(),
            reader,
            failing as u64,
            Some(ProgFault::Write),
            wanted.unwrap_or(b"no prefix"),
        )?;
    }
    Ok(())
}

// Runs a session with a line of 1,000 bytes, one of 1,001 and, at its end without a line feed, one of this many, in
// pieces of several sizes.
fn run_long_lines<A: Allocator + Copy>(alloc: A, last: usize, wanted: &str) -> Result<(), Fail> {
    let mut lines = Vec::new(alloc);
    add_line(&mut lines, 1_000, b"goto 5\n")?;
    add_line(&mut lines, 1_001, b"quit\n")?;
    add_line(&mut lines, last, b"step")?;
    for most in [1, 1_000, 1_001, 4_096] {
        run(alloc, Pieces::new(&lines, most), 0, None, wanted.as_bytes())?;
    }
    Ok(())
}

#[test]
fn a_line_of_a_session_has_at_most_a_thousand_bytes(rt: HostRuntime) -> Result<(), Fail> {
    let alloc = rt.alloc();
    run_long_lines(alloc, 1_000, "at 5 applied\n? command\nat 6 applied\n")?;
    run_long_lines(alloc, 1_001, "at 5 applied\n? command\n? command\n")
}

// Runs a session with a line of this many bytes that has `quit` at its end, one of as many that has `back` at its start,
// and a command after them, in pieces of several sizes.
fn run_longer_lines<A: Allocator + Copy>(alloc: A, length: usize) -> Result<(), Fail> {
    let mut lines = Vec::new(alloc);
    add_line(&mut lines, length, b"quit\n")?;
    lines.extend_from_slice(b"back")?;
    add_line(&mut lines, length.saturating_sub(4), b"\n")?;
    lines.extend_from_slice(b"goto 5\n")?;
    let wanted = b"? command\n? command\nat 5 applied\n";
    for most in [1, 1_000, 1_001, 1_002, 4_096] {
        run(alloc, Pieces::new(&lines, most), 0, None, wanted)?;
    }
    Ok(())
}

#[test]
fn a_longer_line_is_skipped_whole(rt: HostRuntime) -> Result<(), Fail> {
    for length in [1_002, 1_003, 2_000, 2_001, 2_002, 2_003, 9_000] {
        run_longer_lines(rt.alloc(), length)?;
    }
    Ok(())
}
