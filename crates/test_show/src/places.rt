//! What is shown of the stocks of a day, wherever its file is cut into segments, and within limits.
use crate::worked::{MESSAGES, MSFT_AT_7, Shown, after_messages, at_times, file, show, symbol};
use binaryfile::{Feed, Limits};
use engine_rules::ProgFault;
use itch_readings::StockFault;
use itch_show::Place;
use std::alloc::Allocator;
use std::test::Fail;
use test_support::{AMPLE, MSFT, Pieces, same, same_bytes};

// What is shown of a stock, by segments of so many bytes.
fn try_shown<A: Allocator + Copy>(
    alloc: A,
    file: &[u8],
    shown: &Shown,
    segment: u32,
) -> Result<(), Fail> {
    let (mut feed, mut again) = (Feed::new(Pieces::new(file, 7)), Feed::new(file));
    let found = show(
        alloc,
        &mut feed,
        &mut again,
        AMPLE,
        segment,
        shown.name,
        shown.place,
    )?;
    match (found, shown.wanted) {
        (Ok(text), Ok(wanted)) => same_bytes("what is shown", &text, wanted),
        (Ok(_), Err(wanted)) => Err(Fail::new(format_args!("no fault, and not {wanted:?}"))),
        (Err(fault), wanted) => same("a fault", &Some(fault), &wanted.err()),
    }
}

#[test]
fn a_stock_is_shown_after_any_message(rt: HostRuntime) -> Result<(), Fail> {
    let file = file(rt.alloc())?;
    for segment in [1, 7, 50, 1_000_000] {
        for shown in &after_messages() {
            try_shown(rt.alloc(), &file, shown, segment)?;
        }
    }
    Ok(())
}

#[test]
fn a_stock_is_shown_at_any_time(rt: HostRuntime) -> Result<(), Fail> {
    let file = file(rt.alloc())?;
    for segment in [1, 7, 50, 1_000_000] {
        for shown in &at_times() {
            try_shown(rt.alloc(), &file, shown, segment)?;
        }
    }
    Ok(())
}

// The fault of a stock after all messages, within limits.
fn try_limits<A: Allocator + Copy>(
    alloc: A,
    file: &[u8],
    limits: Limits,
    wanted: Option<ProgFault>,
) -> Result<(), Fail> {
    for segment in [1, 1_000] {
        let (mut feed, mut again) = (Feed::new(file), Feed::new(file));
        let found = show(
            alloc,
            &mut feed,
            &mut again,
            limits,
            segment,
            symbol(MSFT),
            Place::End,
        )?
        .err();
        same(
            "a fault",
            &(limits, found),
            &(limits, wanted.map(StockFault::Engine)),
        )?;
    }
    Ok(())
}

#[test]
fn a_file_has_no_more_than_its_limits(rt: HostRuntime) -> Result<(), Fail> {
    let alloc = rt.alloc();
    let file = file(alloc)?;
    let bytes = file.len() as u64;
    let short = bytes.saturating_sub(1);
    let messages = MESSAGES;
    try_limits(alloc, &file, Limits { bytes, messages }, None)?;
    for messages in 0..MESSAGES {
        let limits = Limits { bytes, messages };
        try_limits(alloc, &file, limits, Some(ProgFault::TooManyMessages))?;
    }
    for bytes in [0, short] {
        let limits = Limits { bytes, messages };
        try_limits(alloc, &file, limits, Some(ProgFault::TooManyBytes))?;
    }
    Ok(())
}

// What becomes of a second reading of so many bytes.
fn try_again<A: Allocator + Copy>(alloc: A, end: usize, is_shown: bool) -> Result<(), Fail> {
    let file = file(alloc)?;
    let second = file.get(..end).unwrap_or(&file);
    let (mut feed, mut again) = (Feed::new(file.as_slice()), Feed::new(second));
    let found = show(
        alloc,
        &mut feed,
        &mut again,
        AMPLE,
        100,
        symbol(MSFT),
        Place::After(7),
    )?;
    match found {
        Ok(text) if is_shown => same_bytes("what is shown", &text, MSFT_AT_7),
        Err(fault) if !is_shown => same("a shorter file", &fault, &StockFault::Changed),
        _ => Err(Fail::new(format_args!("another end by {end} bytes"))),
    }
}

// Message 7 is of another stock, so what became of it is known by the second reading alone. The sixth entry, which is the last
// one before it, ends at byte 183.
#[test]
fn a_second_reading_of_too_few_messages_is_a_fault(rt: HostRuntime) -> Result<(), Fail> {
    let alloc = rt.alloc();
    for end in [0, 162, 182] {
        try_again(alloc, end, false)?;
    }
    for end in [183, 204, 1_000] {
        try_again(alloc, end, true)?;
    }
    Ok(())
}
