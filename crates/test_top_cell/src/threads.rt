//! Screens that read a cell in threads of their own while it is published to.
ghost use Rattle.std.specs.Prelude.{◌≡◌};
ghost use Rattle.test_top_cell.specs.Showing.{AreInStep};
ghost use Rattle.top_cell.specs.Boards.{IsOn};

use crate::cells::only_cell;
use crate::showing::show_rest;
use binaryfile::Day;
use std::alloc::{AllocError, Allocator, Global};
use std::sync::Wait;
use std::test::Fail;
use std::thread::{Threads, join};
use test_support::{AAPL, add_entry, crossed_book, day_of, same};
use top_cell::{Board, Reading, Screen, TopWriter};

// What a screen reads before the first message.
const NOTHING: Reading = Reading {
    message: 0,
    bid_price: 0,
    bid_shares: 0,
    ask_price: 0,
    ask_shares: 0,
};

// How many messages the long day has.
const MESSAGES: u32 = 2_000;

// A stock whose message n, from the second on, adds a bid of n shares at 1,000 + n, above all others.
fn rising_bids<A: Allocator + Copy>(alloc: A) -> Result<Day<A>, Fail> {
    let mut file = Vec::new(alloc);
    add_entry(alloc, &mut file, &AAPL.directory())?;
    for message in 2..MESSAGES + 1 {
        let bid = AAPL.add(u64::from(message), b'B', message, 1_000 + message);
        add_entry(alloc, &mut file, &bid)?;
    }
    day_of(alloc, file)
}

// What a screen may read of that stock, before the first message and after each.
fn rising_readings<A: Allocator>(alloc: A) -> Result<Vec<Reading, A>, AllocError> {
    let mut readings = Vec::new(alloc);
    readings.push(NOTHING)?;
    readings.push(Reading {
        message: 1,
        ..NOTHING
    })?;
    for message in 2..MESSAGES + 1 {
        let reading = Reading {
            message,
            bid_price: 1_000 + message,
            bid_shares: u64::from(message),
            ..NOTHING
        };
        readings.push(reading)?;
    }
    Ok(readings)
}

// What a screen may read of the crossed book, before the first message and after each: 100 shares are bid at 101,
// then 50 are offered at 100.
fn crossed_readings() -> [Reading; 4] {
    let bid = Reading {
        message: 2,
        bid_price: 1_010_000,
        bid_shares: 100,
        ..NOTHING
    };
    let crossed = Reading {
        message: 3,
        ask_price: 1_000_000,
        ask_shares: 50,
        ..bid
    };
    [
        NOTHING,
        Reading {
            message: 1,
            ..NOTHING
        },
        bid,
        crossed,
    ]
}

// How a screen looks at its cell.
#[derive(Clone, Copy)]
enum Looking {
    Reads,
    Glances,
}

// What a screen sees, if it sees something.
fn look<R: Wait, A: Allocator>(
    rt: &R,
    board: &Board<A>,
    screen: &mut Screen,
    looking: Looking,
) -> Option<Reading>
    requires { IsOn board.now screen.old.place }
    ensures { screen.new.place ≡ screen.old.place }
{
    match looking {
        Looking::Reads => Some(screen.read(rt, board)),
        Looking::Glances => screen.glance(board, 2).ok(),
    }
}

// Looks until the last of these readings is there, which may come after each number of messages. Returns how many
// messages were seen, or the first reading that isn't one of them or that comes after a later one.
fn watch<R: Wait, A: Allocator>(
    rt: &R,
    board: &Board<A>,
    mut screen: Screen,
    looking: Looking,
    readings: &[Reading],
) -> Result<u32, Reading>
    requires { IsOn board.now screen.place }
{
    let mut seen = 0;
    for _ in 0..u32::MAX {
        let Some(reading) = look(rt, board, &mut screen, looking) else {
            continue;
        };
        if reading.message < seen || readings.get(reading.message as usize) != Some(&reading) {
            return Err(reading);
        }
        seen = reading.message;
        if seen as usize + 1 == readings.len() {
            break;
        }
    }
    Ok(seen)
}

// Two screens, each in a thread of its own.
fn watch_both<R: Threads + Wait + Sync>(
    rt: &R,
    board: &Board<Global>,
    first: Screen,
    second: Screen,
    looking: Looking,
    readings: &[Reading],
) -> (Result<u32, Reading>, Result<u32, Reading>)
    requires first { IsOn board.now first.place }
    requires second { IsOn board.now second.place }
{
    join(
        rt,
        || -> Result<u32, Reading>
            requires { IsOn board.now first.place }
        { watch(rt, board, first, looking, readings) },
        || -> Result<u32, Reading>
            requires { IsOn board.now second.place }
        { watch(rt, board, second, looking, readings) },
    )
}

// Compares where a writer and two screens have come, and what a third one reads, with the last message of a day.
fn same_ends(
    shown: Result<u32, AllocError>,
    first: Result<u32, Reading>,
    second: Result<u32, Reading>,
    last: Reading,
    readings: &[Reading],
    messages: u32,
) -> Result<(), Fail> {
    same("the writer", &shown, &Ok(messages))?;
    same(
        "both screens",
        &(first, second),
        &(Ok(messages), Ok(messages)),
    )?;
    same("the last reading", &readings.last(), &Some(&last))
}

// A writer and two screens of the only stock of a day, each in a thread of its own.
fn show_and_watch<R: Threads + Wait + Sync>(
    rt: &R,
    alloc: Global,
    day: &Day<Global>,
    looking: Looking,
    readings: &[Reading],
) -> Result<(), Fail> {
    let (board, mut writer, machine) = only_cell(alloc, day)?;
    let board = &board;
    let mut last = writer.screen(board);
    let first = writer.screen(board);
    let second = last.split(board);
    let (shown, (one, other)) = join(
        rt,
        || -> Result<TopWriter, AllocError>
            requires { AreInStep day.now.payloads board.now machine writer }
        { show_rest(day, machine, board, writer) },
        || -> (Result<u32, Reading>, Result<u32, Reading>)
            requires { IsOn board.now first.place × IsOn board.now second.place }
        { watch_both(rt, board, first, second, looking, readings) },
    );
    let shown = shown.map(|writer: TopWriter| -> u32 { writer.message() });
    let last = last.read(rt, board);
    same_ends(shown, one, other, last, readings, day.len())
}

#[test]
fn screens_glance_while_a_long_day_is_shown(rt: HostRuntime) -> Result<(), Fail> {
    let alloc = rt.alloc();
    let readings = rising_readings(alloc)?;
    show_and_watch(
        &rt,
        alloc,
        &rising_bids(alloc)?,
        Looking::Glances,
        &readings,
    )
}

#[test]
fn screens_read_while_a_long_day_is_shown(rt: HostRuntime) -> Result<(), Fail> {
    let alloc = rt.alloc();
    let readings = rising_readings(alloc)?;
    show_and_watch(&rt, alloc, &rising_bids(alloc)?, Looking::Reads, &readings)
}

#[test]
fn screens_read_while_the_crossed_book_is_shown(rt: HostRuntime) -> Result<(), Fail> {
    let alloc = rt.alloc();
    let day = crossed_book(alloc)?;
    show_and_watch(&rt, alloc, &day, Looking::Reads, &crossed_readings())
}
