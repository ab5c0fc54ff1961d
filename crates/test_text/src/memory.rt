//! Texts where memory is refused. A list that is refused more room than it needs may make do with less; where all
//! growths are refused from one on, there is no value, and what was lent is as it was.
use binaryfile::Day;
use itch_print::{disassemble, quote, reassembled};
use itch_text::{AsmFault, assemble};
use std::alloc::{AllocError, Allocator, Global};
use std::test::Fail;
use test_refusing::{Refusal, Refusing, Tried, refuse_each};
use test_support::{FILE, TEXT, same, same_bytes};
use text_fields::{put_number, put_quoted, put_quoted_byte};

const FIELD: &[u8] = b"A\x00B     ";

const QUOTED: &[u8] = b"\"A\\x00B\"";

// A call that makes a text, or the file of one.
#[derive(Debug, Clone, Copy, PartialEq, Eq)]
enum Call {
    Disassemble,
    Reassembled,
    Assemble,
    Quote,
}

impl Call {
    // What the call gives for the worked file, or for the field.
    fn output(self) -> &'static [u8] {
        match self {
            Call::Disassemble => TEXT,
            Call::Reassembled | Call::Assemble => FILE,
            Call::Quote => QUOTED,
        }
    }

    // Makes the call.
    fn make<A: Allocator + Copy>(self, alloc: A, day: &Day<A>) -> Result<Vec<u8, A>, AsmFault> {
        match self {
            Call::Disassemble => disassemble(alloc, day).map_err(|_| AsmFault::Memory),
            Call::Reassembled => reassembled(alloc, day).map_err(|_| AsmFault::Memory),
            Call::Assemble => assemble(alloc, TEXT),
            Call::Quote => quote(alloc, FIELD).map_err(|_| AsmFault::Memory),
        }
    }
}

// Makes a call under a refusal, which leaves the day as it is, and with memory where it is refused.
fn try_call(heap: &Refusing<Global>, call: Call, refusal: Refusal) -> Result<Tried, Fail> {
    let day = Day::from_bytes(heap, FILE.to_vec(heap)?, u32::MAX)?;
    heap.restart(refusal);
    let made = call.make(heap, &day);
    let tried = heap.tried(made.is_err());
    same_bytes("the day that was lent", day.bytes(), FILE)?;
    let output = match made {
        Ok(output) => output,
        Err(fault) => {
            same("out of memory", &(call, fault), &(call, AsmFault::Memory))?;
            call.make(heap, &day)?
        }
    };
    same_bytes("what is made", &output, call.output())?;
    Ok(tried)
}

#[test]
fn each_growth_of_a_text_may_be_refused(rt: HostRuntime) -> Result<(), Fail> {
    let heap = Refusing::new(rt.alloc(), Refusal::Never);
    for call in [
        Call::Disassemble,
        Call::Reassembled,
        Call::Assemble,
        Call::Quote,
    ] {
        refuse_each(|refusal: Refusal| -> Result<Tried, Fail> { try_call(&heap, call, refusal) })?;
    }
    Ok(())
}

// What is added to a text.
#[derive(Debug, Clone, Copy, PartialEq, Eq)]
enum Added {
    Field,
    Byte,
    NoByte,
    Number,
}

impl Added {
    // Its bytes: the field or the byte quoted, or the digits of the greatest number.
    fn bytes(self) -> &'static [u8] {
        match self {
            Added::Field => QUOTED,
            Added::Byte => b"\"O\"",
            Added::NoByte => b"none",
            Added::Number => b"18446744073709551615",
        }
    }

    // Adds it.
    fn add<A: Allocator>(self, text: &mut Vec<u8, A>) -> Result<(), AllocError> {
        match self {
            Added::Field => put_quoted(text, FIELD),
            Added::Byte => put_quoted_byte(text, Some(b'O')),
            Added::NoByte => put_quoted_byte(text, None),
            Added::Number => put_number(text, u64::MAX),
        }
    }
}

// Adds to a text under a refusal. Where it is refused, the text is as it was, and it is added to with memory.
fn try_add(heap: &Refusing<Global>, added: Added, refusal: Refusal) -> Result<Tried, Fail> {
    let mut text = b"stock ".to_vec(heap)?;
    heap.restart(refusal);
    let mut returned = added.add(&mut text);
    let tried = heap.tried(returned.is_err());
    if tried.refused {
        same_bytes("the text", &text, b"stock ")?;
        returned = added.add(&mut text);
    }
    same("what is returned", &(added, returned), &(added, Ok(())))?;
    same_bytes(
        "after the text",
        text.strip_prefix(b"stock ").unwrap_or(b"lost"),
        added.bytes(),
    )?;
    Ok(tried)
}

#[test]
fn a_field_or_a_number_is_added_whole_or_not_at_all(rt: HostRuntime) -> Result<(), Fail> {
    let heap = Refusing::new(rt.alloc(), Refusal::Never);
    for (added, wanted) in [
        (Added::Field, 2),
        (Added::Byte, 1),
        (Added::NoByte, 1),
        (Added::Number, 1),
    ] {
        let growths = refuse_each(|refusal: Refusal| -> Result<Tried, Fail> {
            try_add(&heap, added, refusal)
        })?;
        same("growths", &(added, growths), &(added, wanted))?;
    }
    Ok(())
}
