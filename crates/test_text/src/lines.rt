//! A good text with one line made faulty, each in turn.
use itch_text::AsmFault::{self, AfterEnd, Field, Mnemonic};
use itch_text::assemble;
use std::alloc::{AllocError, Allocator};
use std::test::Fail;
use test_support::{same, same_bytes};

// The lines of a good text. The fifth is that of the end marker.
const LINES: [&[u8]; 7] = [
    b"# a system event, and a payload of one byte",
    b"system locate=0 tracking=0 time=0 event=\"O\"",
    b"",
    b"raw 4f",
    b"end",
    b"# the end",
    b"rest ff",
];

// The file of that text.
const LINES_FILE: &[u8] =
    b"\x00\x0cS\x00\x00\x00\x00\x00\x00\x00\x00\x00\x00O\x00\x01O\x00\x00\xff";

// Lines that are faulty in place of the line of this number, each with its fault: a word that is no name, a word that
// may stand there but not alone, and a line that may not stand there.
const fn faulty_lines(number: u64) -> [(&'static [u8], AsmFault); 3] {
    let (alone, misplaced): (&'static [u8], &'static [u8]) = if number <= 5 {
        (b"raw", b"rest ff")
    } else {
        (b"rest", b"end")
    };
    [
        (b"sistem", Mnemonic(number)),
        (alone, Field(number)),
        (misplaced, AfterEnd(number)),
    ]
}

// The good text with another line in place of the one of this number, counted from 1.
fn text_with<A: Allocator>(alloc: A, number: u64, line: &[u8]) -> Result<Vec<u8, A>, AllocError> {
    let mut text = Vec::new(alloc);
    for (at, good) in (1..).zip(LINES) {
        text.extend_from_slice(if at == number { line } else { good })?;
        text.push(b'\n')?;
    }
    Ok(text)
}

#[test]
fn the_line_that_was_changed_is_named(rt: HostRuntime) -> Result<(), Fail> {
    let alloc = rt.alloc();
    let good = assemble(alloc, &text_with(alloc, 0, b"")?)?;
    same_bytes("the file of the good text", &good, LINES_FILE)?;
    for number in 1..=7 {
        for (line, fault) in faulty_lines(number) {
            let found = assemble(alloc, &text_with(alloc, number, line)?).err();
            same("a changed line", &found, &Some(fault))?;
        }
    }
    Ok(())
}
