//! Texts that denote nothing, and the line and the kind of the first fault.
use itch_text::AsmFault::{self, AfterEnd, Field, Mnemonic};
use itch_text::assemble;
use std::test::Fail;
use test_support::same;

const FAULTS: [(&[u8], AsmFault); 59] = [
    // a first word that is no name
    (b"sistem", Mnemonic(1)),
    (
        b"System locate=0 tracking=0 time=0 event=\"O\"",
        Mnemonic(1),
    ),
    (b"end\nsistem", Mnemonic(2)),
    (b"cut 00\nsistem\n", Mnemonic(2)),
    (b"\tend", Mnemonic(1)),
    (b"end\r\n", Mnemonic(1)),
    (b"\"end\"", Mnemonic(1)),
    (b"raw\t41", Mnemonic(1)),
    (b"# a comment\nsistem", Mnemonic(2)),
    (b"\n\n# a comment\n=\n", Mnemonic(4)),
    // a line that may not stand there
    (b"rest ff", AfterEnd(1)),
    (b"rest", AfterEnd(1)),
    (b"end\nend", AfterEnd(2)),
    (b"end\n\nend", AfterEnd(3)),
    (b"end\nsystem", AfterEnd(2)),
    (b"end\nraw 41", AfterEnd(2)),
    (b"end\ncut 00", AfterEnd(2)),
    (b"end\nrest ff\nrest ff", AfterEnd(3)),
    (b"cut 00\nraw 41", AfterEnd(2)),
    (b"cut 00\ncut 00", AfterEnd(2)),
    (b"cut 00\nrest 00", AfterEnd(2)),
    (b"cut 00\n\n# a comment\nend\n", AfterEnd(4)),
    // fields of a message
    (
        b"system locate=65536 tracking=0 time=0 event=\"O\"",
        Field(1),
    ),
    (
        b"system locate=0 tracking=65536 time=0 event=\"O\"",
        Field(1),
    ),
    (
        b"system locate=0 tracking=0 time=281474976710656 event=\"O\"",
        Field(1),
    ),
    (
        b"system locate=000000000000000000000 tracking=0 time=0 event=\"O\"",
        Field(1),
    ),
    (b"system locate= tracking=0 time=0 event=\"O\"", Field(1)),
    (b"system locate=+1 tracking=0 time=0 event=\"O\"", Field(1)),
    (b"system locate=0x1 tracking=0 time=0 event=\"O\"", Field(1)),
    (b"system locate =0 tracking=0 time=0 event=\"O\"", Field(1)),
    (b"system locate=0 tracking=0 time=0", Field(1)),
    (
        b"system locate=0 tracking=0 time=0 event=\"O\" event=\"O\"",
        Field(1),
    ),
    (b"system tracking=0 locate=0 time=0 event=\"O\"", Field(1)),
    (b"system locate=0 tracking=0 time=0 event=O", Field(1)),
    (b"system locate=0 tracking=0 time=0 event=\"OO\"", Field(1)),
    (b"system locate=0 tracking=0 time=0 event=\"O", Field(1)),
    (
        b"system locate=0 tracking=0 time=0 event=\"\\x4\"",
        Field(1),
    ),
    (b"system locate=0 tracking=0 time=0 event=\"\\\"", Field(1)),
    (
        b"system locate=0 tracking=0 time=0 event=\"\x7f\"",
        Field(1),
    ),
    (
        b"system locate=0 tracking=0 time=0 event=\"O\"# no comment",
        Field(1),
    ),
    (
        b"broken locate=0 tracking=0 time=0 match_no=18446744073709551616",
        Field(1),
    ),
    (
        b"raw 41\nretail locate=0 tracking=0 time=0 stock=\"AAPL     \" interest=\"N\"",
        Field(2),
    ),
    // digits
    (b"cut 000141", Field(1)),
    (b"cut 0000", Field(1)),
    (b"cut", Field(1)),
    (b"cut 0", Field(1)),
    (b"cut 00 02", Field(1)),
    (b"raw", Field(1)),
    (b"# a comment\nraw", Field(2)),
    (b"raw 4", Field(1)),
    (b"raw 4g", Field(1)),
    (b"raw 41 42", Field(1)),
    (b"raw \"41\"", Field(1)),
    (b"end 00", Field(1)),
    (b"end\nrest", Field(2)),
    (b"end\nrest f", Field(2)),
    (b"end\nrest 0x", Field(2)),
    // the first of two faulty lines
    (b"raw\nsistem", Field(1)),
    (b"sistem\nraw", Mnemonic(1)),
];

#[test]
fn faults_are_those_of_the_first_faulty_line(rt: HostRuntime) -> Result<(), Fail> {
    for (number, (text, fault)) in FAULTS.iter().enumerate() {
        let found = assemble(rt.alloc(), text).err();
        same(
            "a faulty text by its number",
            &(number, found),
            &(number, Some(*fault)),
        )?;
    }
    Ok(())
}
