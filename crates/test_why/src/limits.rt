//! What is said within limits, and by a second reading that gave less.
use crate::day::{MESSAGES, file, why};
use crate::texts::text_of;
use binaryfile::{Feed, Limits};
use engine_rules::ProgFault;
use itch_readings::StockFault;
use std::alloc::Allocator;
use std::test::Fail;
use test_support::{AAPL, AMPLE, add_entry, same, same_bytes};

// The fault of a message, within limits.
fn try_limits<A: Allocator + Copy>(
    alloc: A,
    readings: (&[u8], &[u8]),
    (segment, number): (u32, u32),
    limits: Limits,
    wanted: Option<ProgFault>,
) -> Result<(), Fail> {
    let (mut feed, mut again) = (Feed::new(readings.0), Feed::new(readings.1));
    let found = why(alloc, &mut feed, &mut again, limits, segment, number)?.err();
    same(
        "a fault",
        &(segment, limits, found),
        &(segment, limits, wanted.map(StockFault::Engine)),
    )
}

#[test]
fn a_file_has_no_more_than_its_limits(rt: HostRuntime) -> Result<(), Fail> {
    let alloc = rt.alloc();
    let file = file(alloc)?;
    let readings = (file.as_slice(), file.as_slice());
    let bytes = file.len() as u64;
    let messages = MESSAGES;
    for segment in [1, 7, 1_000_000] {
        let last = (segment, MESSAGES);
        try_limits(alloc, readings, last, Limits { bytes, messages }, None)?;
        for messages in [0, 1, MESSAGES.saturating_sub(1)] {
            let limits = Limits { bytes, messages };
            let wanted = Some(ProgFault::TooManyMessages);
            try_limits(alloc, readings, last, limits, wanted)?;
        }
        for bytes in [0, 1, bytes.saturating_sub(1)] {
            let limits = Limits { bytes, messages };
            let wanted = Some(ProgFault::TooManyBytes);
            try_limits(alloc, readings, last, limits, wanted)?;
        }
    }
    Ok(())
}

// The first reading ends with message 7, at byte 242, and the second one goes on in the same segment.
#[test]
fn a_second_reading_has_no_more_than_the_limits(rt: HostRuntime) -> Result<(), Fail> {
    let alloc = rt.alloc();
    let file = file(alloc)?;
    let readings = (file.get(..242).unwrap_or(&file), file.as_slice());
    let bytes = file.len() as u64;
    let few = Limits { bytes, messages: 7 };
    let short = Limits {
        bytes: 242,
        messages: MESSAGES,
    };
    let (messages, bytes) = (ProgFault::TooManyMessages, ProgFault::TooManyBytes);
    try_limits(alloc, readings, (1_000_000, 7), few, Some(messages))?;
    try_limits(alloc, readings, (1_000_000, 7), short, Some(bytes))?;
    try_limits(alloc, readings, (1, 7), few, None)?;
    try_limits(alloc, readings, (1, 7), short, None)
}

// What becomes of message 7 by a second reading of so many bytes.
fn try_again<A: Allocator + Copy>(alloc: A, end: usize, is_said: bool) -> Result<(), Fail> {
    let file = file(alloc)?;
    let second = file.get(..end).unwrap_or(&file);
    let wanted = text_of(alloc, 7)?;
    for segment in [1, 100, 1_000_000] {
        let (mut feed, mut again) = (Feed::new(file.as_slice()), Feed::new(second));
        match why(alloc, &mut feed, &mut again, AMPLE, segment, 7)? {
            Ok(text) if is_said => same_bytes("what is said", &text, &wanted)?,
            Err(fault) if !is_said => same("a shorter file", &fault, &StockFault::Changed)?,
            _ => return Err(Fail::new(format_args!("another end by {end} bytes"))),
        }
    }
    Ok(())
}

// Message 6 ends at byte 209, and the fifth at byte 176.
#[test]
fn a_second_reading_of_too_few_messages_is_a_fault(rt: HostRuntime) -> Result<(), Fail> {
    let alloc = rt.alloc();
    for end in [0, 1, 176, 208] {
        try_again(alloc, end, false)?;
    }
    for end in [209, 210, 242, 1_000] {
        try_again(alloc, end, true)?;
    }
    Ok(())
}

// Messages of no stock, and the first message of a day.
#[test]
fn some_messages_need_no_second_reading(rt: HostRuntime) -> Result<(), Fail> {
    let alloc = rt.alloc();
    let day = file(alloc)?;
    for number in [1, 29, 30] {
        try_limits(alloc, (&day, b""), (100, number), AMPLE, None)?;
    }
    let mut file = Vec::new(alloc);
    add_entry(alloc, &mut file, &AAPL.directory())?;
    try_limits(alloc, (&file, b""), (100, 1), AMPLE, None)
}
