//! Messages of no stock, of unknown types, and of the least and the greatest lengths.
use crate::comparing::{Wanted, follow, same_day};
use crate::cutting::{Cut, add_payload, segments_of};
use crate::days::threads_of;
use crate::replaying::replay_segments;
use binaryfile::Day;
use day_replay::{RefusedMessage, Summary};
use itch_table::{Fault, Outcome};
use std::alloc::Allocator;
use std::test::Fail;
use std::thread::Threads;
use test_support::{AAPL, day_of, payload_of, same, same_list, system};

// The greatest length of a payload.
const LONGEST: usize = 65_535;

// Messages of unknown types and of a wrong length, each of the least and of the greatest length, after the message of a
// stock and two of no stock, and before one more of the stock.
fn unusual_day<A: Allocator + Copy>(alloc: A) -> Result<Day<A>, Fail> {
    let mut file = Vec::new(alloc);
    add_payload(&mut file, &payload_of(alloc, &AAPL.directory())?)?;
    add_payload(&mut file, &payload_of(alloc, &system(0, b'O'))?)?;
    add_payload(&mut file, &payload_of(alloc, &system(1, b'S'))?)?;
    for kind in [b'z', b'A'] {
        add_payload(&mut file, &[kind])?;
        add_payload(&mut file, &vec![in alloc; kind; LONGEST]?)?;
    }
    add_payload(&mut file, &payload_of(alloc, &AAPL.add(7, b'B', 10, 100))?)?;
    day_of(alloc, file)
}

// A message that was refused, since its length isn't that of its type.
fn of_wrong_length(message: u32) -> RefusedMessage {
    RefusedMessage {
        message,
        locate: None,
        outcome: Outcome::Refused(Fault::WrongLength),
    }
}

// Compares what a replay has made of the unusual day.
fn same_unusual<A: Allocator + Copy>(
    alloc: A,
    found: &Summary<A>,
    wanted: &Wanted<A>,
) -> Result<(), Fail> {
    same_day(alloc, found, wanted)?;
    same(
        "messages, those passed over, and the last event",
        &(found.messages, found.passed, found.event),
        &(8, 2, Some(b'S')),
    )?;
    let refused = [of_wrong_length(6), of_wrong_length(7)];
    same_list("refused messages", &found.refused, &refused)?;
    same("how many stocks", &found.stocks.len(), &1)
}

// Replays the unusual day in two segments, of which the second begins after this message.
fn try_cut<R: Threads + Sync, A: Allocator + Copy + Send + Sync>(
    rt: &R,
    alloc: A,
    day: &Day<A>,
    wanted: &Wanted<A>,
    message: u32,
) -> Result<(), Fail> {
    let segments = segments_of(alloc, day, Cut::After(message))?;
    let found = replay_segments(rt, alloc, &segments, threads_of(1)?)?;
    same_unusual(alloc, &found, wanted)
}

#[test]
fn messages_of_no_stock_are_counted(rt: HostRuntime) -> Result<(), Fail> {
    let alloc = rt.alloc();
    let day = unusual_day(alloc)?;
    let wanted = follow(alloc, &day)?;
    for message in 0..=day.len() {
        try_cut(&rt, alloc, &day, &wanted, message)?;
    }
    Ok(())
}
