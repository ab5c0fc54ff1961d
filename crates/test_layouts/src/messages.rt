//! Messages, read and written.
use crate::table::SIZES;
use itch_layouts::{
    Head, Imbalance, Msg, Nanos, Replace, Shape, read_msg, size_of_kind, write_msg,
};
use std::alloc::{Allocator, Global};
use std::test::Fail;
use test_refusing::{Refusal, Refusing, Tried, refuse_each};
use test_support::{same, same_bytes};

/// A replace message at the greatest time, for 50 shares at 1,490,000.
const REPLACE: &[u8] =
    b"U\x00\x01\x00\x02\xff\xff\xff\xff\xff\xff\x00\x00\x00\x00\x00\x00\x00\x01\x00\x00\x00\x00\x00\x00\x00\x02\x00\x00\x00\x32\x00\x16\xbc\x50";

/// An imbalance message whose numbers count from 7.
pub(crate) const IMBALANCE: &[u8] =
    b"I\x00\x07\x00\x08\x00\x00\x00\x00\x00\x09\x00\x00\x00\x00\x00\x00\x00\x0a\x00\x00\x00\x00\x00\x00\x00\x0bSAAPL    \x00\x00\x00\x0c\x00\x00\x00\x0d\x00\x00\x00\x0eO1";

// A head of any fields; its time is one that six bytes carry.
fn head(locate: u16, tracking: u16, time: u64) -> Result<Head, Fail> {
    match Nanos::new(time) {
        Some(time) => Ok(Head {
            locate,
            tracking,
            time,
        }),
        None => Err(Fail::new("six bytes don't carry this time")),
    }
}

/// A payload is read as its message, and the message is written as the payload, after what was there.
pub(crate) fn try_both_ways<A: Allocator>(alloc: A, msg: &Msg, payload: &[u8]) -> Result<(), Fail> {
    same("a payload is read", &read_msg(payload), &Shape::Known(*msg))?;
    let mut out = b"before".to_vec(alloc)?;
    write_msg(msg, &mut out)?;
    same_bytes(
        "a message is written",
        out.strip_prefix(b"before").unwrap_or(b""),
        payload,
    )
}

#[test]
fn worked_messages_are_read_and_written(rt: HostRuntime) -> Result<(), Fail> {
    let replace = Replace {
        reference: 1,
        new_reference: 2,
        shares: 50,
        price: 1_490_000,
    };
    let greatest = 281_474_976_710_655;
    try_both_ways(
        rt.alloc(),
        &Msg::Replace(head(1, 2, greatest)?, replace),
        REPLACE,
    )?;
    let imbalance = Imbalance {
        paired: 10,
        imbalance: 11,
        direction: b'S',
        stock: *b"AAPL    ",
        far: 12,
        near: 13,
        reference_price: 14,
        cross_type: b'O',
        variation: b'1',
    };
    try_both_ways(
        rt.alloc(),
        &Msg::Imbalance(head(7, 8, 9)?, imbalance),
        IMBALANCE,
    )
}

// A message has this head, and of some references those that are wanted.
fn try_message(payload: &[u8], head: Head, references: &[(u64, bool)]) -> Result<(), Fail> {
    let Shape::Known(msg) = read_msg(payload) else {
        return Err(Fail::new("a worked message isn't read"));
    };
    same("a head", &msg.head(), &head)?;
    for (reference, wanted) in references {
        same(
            "a reference",
            &(*reference, msg.has_reference(*reference)),
            &(*reference, *wanted),
        )?;
    }
    Ok(())
}

#[test]
fn a_message_has_its_head_and_its_references(_rt: HostRuntime) -> Result<(), Fail> {
    let replaced = [(0, false), (1, true), (2, true), (50, false)];
    try_message(REPLACE, head(1, 2, 281_474_976_710_655)?, &replaced)?;
    // A reference price is no order reference.
    try_message(IMBALANCE, head(7, 8, 9)?, &[(0, false), (14, false)])
}

/// A type, and after it bytes that rise by a step, as many as the longest message needs and more.
pub(crate) fn filled(kind: u8, first: u8, step: u8) -> [u8; 60] {
    let mut bytes = [kind; 60];
    let mut next = first;
    for byte in &mut bytes[1..] {
        *byte = next;
        next = next.wrapping_add(step);
    }
    bytes
}

// A payload of its type's size is a message, which is written as that payload; any other is none.
fn try_payload<A: Allocator>(
    out: &mut Vec<u8, A>,
    kind: u8,
    size: Option<u16>,
    payload: &[u8],
) -> Result<(), Fail> {
    let found = read_msg(payload);
    if size.map(usize::from) == Some(payload.len()) {
        let Shape::Known(msg) = found else {
            return Err(Fail::new(format_args!("type {kind} isn't read at its size")));
        };
        out.clear();
        write_msg(&msg, out)?;
        return same_bytes("a message is written as it was read", out, payload);
    }
    let wanted = if payload.is_empty() || size.is_none() {
        Shape::Unknown
    } else {
        Shape::BadLength
    };
    same(
        "no message",
        &(kind, payload.len(), found),
        &(kind, payload.len(), wanted),
    )
}

// The size of a type's messages.
fn wanted_size(kind: u8) -> Option<u16> {
    for (known, size) in &SIZES {
        if *known == kind {
            return Some(*size);
        }
    }
    None
}

#[test]
fn every_type_is_read_at_its_size_alone(rt: HostRuntime) -> Result<(), Fail> {
    let mut out = Vec::new(rt.alloc());
    for kind in 0..=u8::MAX {
        let size = wanted_size(kind);
        same(
            "the size of a type",
            &(kind, size_of_kind(kind)),
            &(kind, size),
        )?;
        for (first, step) in [(0, 0), (0xff, 0), (17, 11)] {
            let bytes = filled(kind, first, step);
            for length in 0..=bytes.len() {
                try_payload(&mut out, kind, size, &bytes[..length])?;
            }
        }
    }
    Ok(())
}

// Writes a message after other bytes under a refusal. Where it is refused, these are as they were, and it is written
// with memory.
fn try_write(
    heap: &Refusing<Global>,
    msg: &Msg,
    payload: &[u8],
    refusal: Refusal,
) -> Result<Tried, Fail> {
    let mut out = b"before".to_vec(heap)?;
    heap.restart(refusal);
    let mut written = write_msg(msg, &mut out);
    let tried = heap.tried(written.is_err());
    if tried.refused {
        same_bytes("what was there", &out, b"before")?;
        written = write_msg(msg, &mut out);
    }
    same("a message is written", &written, &Ok(()))?;
    same_bytes(
        "after what was there",
        out.strip_prefix(b"before").unwrap_or(b""),
        payload,
    )?;
    Ok(tried)
}

#[test]
fn messages_are_written_whole_or_not_at_all(rt: HostRuntime) -> Result<(), Fail> {
    let heap = Refusing::new(rt.alloc(), Refusal::Never);
    for (kind, size) in SIZES {
        let bytes = filled(kind, 17, 11);
        let payload = &bytes[..usize::from(size.min(60))];
        let Shape::Known(msg) = read_msg(payload) else {
            return Err(Fail::new(format_args!("type {kind} isn't read at its size")));
        };
        let growths = refuse_each(|refusal: Refusal| -> Result<Tried, Fail> {
            try_write(&heap, &msg, payload, refusal)
        })?;
        same("one growth", &(kind, growths), &(kind, 1))?;
    }
    Ok(())
}

#[test]
fn times_are_of_six_bytes(_rt: HostRuntime) -> Result<(), Fail> {
    let greatest = 281_474_976_710_655;
    same("the limit", &Nanos::LIMIT, &281_474_976_710_656)?;
    same(
        "the greatest time",
        &Nanos::new(greatest).map(Nanos::get),
        &Some(greatest),
    )?;
    same("a time past it", &Nanos::new(281_474_976_710_656), &None)?;
    same("no time", &Nanos::new(0).map(Nanos::get), &Some(0))
}
