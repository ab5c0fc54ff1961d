//! Whole texts.
use crate::printing::{Printed, SEGMENTS};
use crate::random::random_file;
use binaryfile::{Feed, Sink};
use itch_engine::dis_run;
use std::alloc::Allocator;
use std::test::Fail;
use test_support::{FILE, Pieces, STORED_RUN, TEXT, same, same_bytes};

// How many files at random there are.
const FILES: u64 = 60;

// Files and their texts.
const TEXTS: [(&[u8], &[u8]); 13] = [
    (b"", b""),
    (b"\x00\x00", b"end\n"),
    (b"\x00", b"cut 00\n"),
    (b"\x00\x05", b"cut 0005\n"),
    (b"\x00\x05ABC", b"cut 0005414243\n"),
    (b"\x00\x00\x00", b"end\nrest 00\n"),
    (b"\x00\x00\x00\x01A", b"end\nrest 000141\n"),
    (b"\x00\x01A", b"raw 41\n"),
    (b"\x00\x01A\x00\x02B", b"raw 41\ncut 000242\n"),
    (b"\x00\x01A\x00\x02OK\x00\x00", b"raw 41\nraw 4f4b\nend\n"),
    (
        b"\x00\x01A\x00\x00\x00\x00\x00\x00",
        b"raw 41\nend\nrest 00000000\n",
    ),
    (
        b"\x00\x01A\x00\x00\x00\x01B\x00\x02OK\xab",
        b"raw 41\nend\nrest 00014200024f4bab\n",
    ),
    (FILE, TEXT),
];

// Writes the text of a file in segments of so many bytes, and compares it.
fn compare<A: Allocator + Copy>(
    alloc: A,
    file: &[u8],
    segment: u32,
    wanted: &[u8],
) -> Result<(), Fail> {
    let mut feed = Feed::new(Pieces::new(file, 7));
    let mut output = Vec::new(alloc);
    let returned = Printed::Whole.run(alloc, &mut feed, &mut Sink::new(&mut output), segment)?;
    same("a result", &(segment, returned), &(segment, Ok(())))?;
    same_bytes("a text", &output, wanted)
}

#[test]
fn texts_are_the_same_in_segments_of_any_size(rt: HostRuntime) -> Result<(), Fail> {
    for (file, text) in TEXTS {
        for segment in SEGMENTS {
            compare(rt.alloc(), file, segment, text)?;
        }
    }
    Ok(())
}

// The text of a file that is read as a whole.
fn text_of<A: Allocator + Copy>(alloc: A, file: &[u8]) -> Result<Vec<u8, A>, Fail> {
    let mut text = Vec::new(alloc);
    let returned = dis_run(alloc, &mut Feed::new(file), &mut Sink::new(&mut text));
    same("a whole text", &returned, &Ok(()))?;
    Ok(text)
}

// Each first part of a file is a file.
#[test]
fn each_beginning_of_a_file_has_its_text(rt: HostRuntime) -> Result<(), Fail> {
    let alloc = rt.alloc();
    for file in [FILE, STORED_RUN] {
        for length in 0..=file.len() {
            let beginning = &file[..length];
            let text = text_of(alloc, beginning)?;
            for segment in SEGMENTS {
                compare(alloc, beginning, segment, &text)?;
            }
        }
    }
    Ok(())
}

#[test]
fn files_at_random_have_their_texts(rt: HostRuntime) -> Result<(), Fail> {
    let alloc = rt.alloc();
    for seed in 0..FILES {
        let file = random_file(alloc, seed)?;
        let text = text_of(alloc, &file)?;
        for segment in SEGMENTS {
            compare(alloc, &file, segment, &text)?;
        }
    }
    Ok(())
}

// A file of more than two segments of 2^20 bytes, whose tail is longer than one: three messages, the end marker, and
// bytes that are all 0xab.
#[test]
fn the_bytes_after_a_marker_are_one_line(rt: HostRuntime) -> Result<(), Fail> {
    let alloc = rt.alloc();
    let mut file = STORED_RUN.to_vec(alloc)?;
    file.resize(2_500_000, 0xab)?;
    let mut text = text_of(alloc, STORED_RUN)?;
    text.extend_from_slice(b"rest ")?;
    for _ in STORED_RUN.len()..2_500_000 {
        text.extend_from_slice(b"ab")?;
    }
    text.push(b'\n')?;
    compare(alloc, &file, 1 << 20, &text)
}
