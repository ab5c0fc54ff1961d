//! Texts and the files that they denote.
use binaryfile::{Day, Feed};
use itch_print::{disassemble, quote, reassembled};
use itch_text::{AsmFault, assemble};
use std::alloc::Allocator;
use std::test::Fail;
use test_support::{AMPLE, FILE, STORED_RUN, TEXT, same, same_bytes};

// The file of one system event.
const EVENT: &[u8] = b"\x00\x0cS\x00\x00\x00\x00\x00\x00\x00\x00\x00\x00O";

// Texts that a person may write, and the files that they denote.
const TEXTS: [(&[u8], &[u8]); 15] = [
    // one system event
    (b"system locate=0 tracking=0 time=0 event=\"O\"", EVENT),
    (
        b"  system   locate=00 tracking=0 time=0 event=\"\\x4F\"\n",
        EVENT,
    ),
    (
        b"system locate=0 tracking=0 time=0 event=\"\\x4f\"   \n",
        EVENT,
    ),
    (
        b"system locate=00000000000000000000 tracking=0 time=0 event=\"O\"\n",
        EVENT,
    ),
    (b"raw 53000000000000000000004f", EVENT),
    (b"  raw  53000000000000000000004F  \n", EVENT),
    (
        b"\n \n# a comment, raw zz\n  # one more\nsystem locate=0 tracking=0 time=0 event=\"O\"\n\n#",
        EVENT,
    ),
    (b"#\x00\xff\nraw 53000000000000000000004f\n   ", EVENT),
    // fields at their limits, and padded
    (
        b"system locate=0 tracking=0 time=281474976710655 event=\"O\"",
        b"\x00\x0cS\x00\x00\x00\x00\xff\xff\xff\xff\xff\xffO",
    ),
    (
        b"system locate=65535 tracking=65535 time=281474976710655 event=\"\"",
        b"\x00\x0cS\xff\xff\xff\xff\xff\xff\xff\xff\xff\xff ",
    ),
    (
        b"breach locate=1 tracking=2 time=3 level=\"=\"",
        b"\x00\x0cW\x00\x01\x00\x02\x00\x00\x00\x00\x00\x03=",
    ),
    (
        b"broken locate=1 tracking=2 time=3 match_no=18446744073709551615",
        b"\x00\x13B\x00\x01\x00\x02\x00\x00\x00\x00\x00\x03\xff\xff\xff\xff\xff\xff\xff\xff",
    ),
    (
        b"retail locate=1 tracking=2 time=3 stock=\"A B\" interest=\" \"",
        b"\x00\x14N\x00\x01\x00\x02\x00\x00\x00\x00\x00\x03A B      ",
    ),
    // ends
    (
        b"end\n\n# more\nrest FFff\n# the end\n",
        b"\x00\x00\xff\xff",
    ),
    (b"cut 0002ff\n\n# the end", b"\x00\x02\xff"),
];

#[test]
fn texts_denote_files(rt: HostRuntime) -> Result<(), Fail> {
    for (text, file) in TEXTS {
        same_bytes("the file of a text", &assemble(rt.alloc(), text)?, file)?;
    }
    Ok(())
}

// Files of no message, and the texts that are written for them, which denote them.
const FILES: [(&[u8], &[u8]); 9] = [
    (b"", b""),
    (b"\x00\x00", b"end\n"),
    (b"\x00", b"cut 00\n"),
    (b"\x00\x05A\x00", b"cut 00054100\n"),
    (b"\x00\x01A\x00\x02B", b"raw 41\ncut 000242\n"),
    (b"\x00\x00\xff", b"end\nrest ff\n"),
    (b"\x00\x00\x00\x00", b"end\nrest 0000\n"),
    (b"\x00\x01O\x00\x01A", b"raw 4f\nraw 41\n"),
    (FILE, TEXT),
];

#[test]
fn files_have_texts_that_denote_them(rt: HostRuntime) -> Result<(), Fail> {
    for (file, text) in FILES {
        let day = Day::from_bytes(rt.alloc(), file.to_vec(rt.alloc())?, u32::MAX)?;
        same_bytes("the text of a file", &disassemble(rt.alloc(), &day)?, text)?;
        same_bytes("the file of its text", &assemble(rt.alloc(), text)?, file)?;
        same_bytes("both ways", &reassembled(rt.alloc(), &day)?, file)?;
    }
    Ok(())
}

// How many entries of the stored run are whole in its first bytes, and where the last of these ends.
fn entries_within(bytes: usize) -> (u32, usize) {
    match bytes {
        0..=40 => (0, 0),
        41..=78 => (1, 41),
        79..=111 => (2, 79),
        _ => (3, 112),
    }
}

// The first bytes of the stored run as a file, and the text of this file, which gives them back.
fn try_cut<A: Allocator + Copy>(alloc: A, file: &[u8]) -> Result<(), Fail> {
    let day = Day::load(alloc, &mut Feed::new(file), AMPLE)?;
    let (payloads, end) = entries_within(file.len());
    let found = (file.len(), day.len(), day.marked());
    same("a cut file", &found, &(file.len(), payloads, false))?;
    let tail = file.get(end..).unwrap_or(b"no tail");
    same_bytes("the tail of a cut file", day.tail(), tail)?;
    let text = disassemble(alloc, &day)?;
    same_bytes("the file of its text", &assemble(alloc, &text)?, file)?;
    same_bytes("both ways", &reassembled(alloc, &day)?, file)
}

#[test]
fn cut_files_have_texts_that_denote_them(rt: HostRuntime) -> Result<(), Fail> {
    for bytes in 0..=113 {
        let Some(file) = STORED_RUN.get(..bytes) else {
            return Err(Fail::new("the stored run is too short"));
        };
        try_cut(rt.alloc(), file)?;
    }
    Ok(())
}

const FIELDS: [(&[u8], &[u8]); 9] = [
    (b"", b"\"\""),
    (b"        ", b"\"\""),
    (b"AAPL    ", b"\"AAPL\""),
    (b" A  B   ", b"\" A  B\""),
    (b"A\"B\\C   ", b"\"A\\x22B\\x5cC\""),
    (b"AAPL   \x00", b"\"AAPL   \\x00\""),
    (b"A\x00    ", b"\"A\\x00\""),
    (b"\x1f !~\x7f\x80\xff", b"\"\\x1f !~\\x7f\\x80\\xff\""),
    (b"\t\n\r #=", b"\"\\x09\\x0a\\x0d #=\""),
];

#[test]
fn fields_are_quoted(rt: HostRuntime) -> Result<(), Fail> {
    for (field, quoted) in FIELDS {
        same_bytes("a quoted field", &quote(rt.alloc(), field)?, quoted)?;
    }
    Ok(())
}

#[test]
fn a_payload_has_65535_bytes_at_most(rt: HostRuntime) -> Result<(), Fail> {
    let mut text = b"raw ".to_vec(rt.alloc())?;
    let mut file = b"\xff\xff".to_vec(rt.alloc())?;
    for _ in 0..65_535 {
        text.extend_from_slice(b"aB")?;
        file.push(0xab)?;
    }
    same_bytes("the greatest payload", &assemble(rt.alloc(), &text)?, &file)?;
    text.extend_from_slice(b"00")?;
    let found = assemble(rt.alloc(), &text).err();
    same("one byte more", &found, &Some(AsmFault::Field(1)))
}
