//! Where breakpoints stop, both ways.
use crate::calls::{Call, Line, Returned, follow_new};
use crate::days::{BIDS, time_break, timed, tour};
use binaryfile::Day;
use debugger::{Break, DebugFault, Stop};
use itch_table::{Fault, Outcome};
use std::alloc::Allocator;
use std::test::Fail;
use test_support::{AAPL, system};

// A stop of the first breakpoint.
const fn first(at: u32) -> Result<Returned, DebugFault> {
    Ok(Returned::Stopped(Stop { at, hit: Some(0) }))
}

// A stop of the breakpoint at an index, counted from 0.
const fn stop(at: u32, index: usize) -> Result<Returned, DebugFault> {
    Ok(Returned::Stopped(Stop {
        at,
        hit: Some(index),
    }))
}

// The end of the day or its start, where no breakpoint stops.
const fn none(at: u32) -> Result<Returned, DebugFault> {
    Ok(Returned::Stopped(Stop { at, hit: None }))
}

// A breakpoint that is there already keeps its place, and those after one that is removed close up.
const fn list_script(late: Break, again: Break) -> [Line; 15] {
    [
        (Call::AddBreak(BIDS), Ok(Returned::Added(0))),
        (Call::AddBreak(late), Ok(Returned::Added(1))),
        (Call::AddBreak(BIDS), Ok(Returned::Added(0))),
        (Call::RemoveBreak(0), Ok(Returned::Removed(Some(BIDS)))),
        (Call::RemoveBreak(1), Ok(Returned::Removed(None))),
        (Call::AddBreak(again), Ok(Returned::Added(0))),
        (Call::Onward, first(4)),
        (Call::Onward, none(7)),
        (Call::Onward, Err(DebugFault::PastEnd)),
        (Call::Rearward, first(4)),
        (Call::Rearward, none(0)),
        (Call::Rearward, Err(DebugFault::BeforeStart)),
        (Call::Step, Ok(Returned::Moved(1, Some(Outcome::Applied)))),
        (Call::Back, Ok(Returned::Moved(0, None))),
        (Call::Event, Ok(Returned::Event(None))),
    ]
}

#[test]
fn breakpoints_are_a_list(rt: HostRuntime) -> Result<(), Fail> {
    let script = list_script(time_break(3)?, time_break(3)?);
    follow_new(rt.alloc(), &tour(rt.alloc())?, 1_000, &script)
}

const fn level_script() -> [Line; 7] {
    [
        (Call::AddBreak(BIDS), Ok(Returned::Added(0))),
        (Call::Onward, first(2)),
        (Call::Onward, first(3)),
        (Call::Onward, first(5)),
        (Call::Onward, first(7)),
        (Call::Onward, Err(DebugFault::PastEnd)),
        (Call::Rearward, first(5)),
    ]
}

#[test]
fn a_level_stops_where_its_shares_change(rt: HostRuntime) -> Result<(), Fail> {
    follow_new(rt.alloc(), &tour(rt.alloc())?, 1_000, &level_script())
}

// Any message that names it stops there, whatever becomes of the message.
const NAMED: Break = Break::Reference {
    locate: 1,
    reference: 1,
};

const fn reference_script() -> [Line; 6] {
    [
        (Call::AddBreak(NAMED), Ok(Returned::Added(0))),
        (Call::Onward, first(2)),
        (Call::Onward, first(3)),
        (Call::Onward, first(4)),
        (Call::Rearward, first(3)),
        (
            Call::Goto(3),
            Ok(Returned::Moved(3, Some(Outcome::Refused(Fault::ReferenceInUse)))),
        ),
    ]
}

#[test]
fn a_reference_stops_where_it_is_named(rt: HostRuntime) -> Result<(), Fail> {
    let alloc = rt.alloc();
    let day = timed(
        alloc,
        &[
            (0, AAPL.directory()),
            (1, AAPL.add(1, b'B', 100, 1_500_000)),
            (2, AAPL.replace(1, 1, 50, 1_490_000)),
            (3, AAPL.replace(1, 2, 50, 1_490_000)),
        ],
    )?;
    follow_new(alloc, &day, 1_000, &reference_script())
}

const fn time_script(time: Break) -> [Line; 5] {
    [
        (Call::AddBreak(time), Ok(Returned::Added(0))),
        (Call::Onward, first(2)),
        (Call::Onward, none(4)),
        (Call::Rearward, first(2)),
        (Call::Event, Ok(Returned::Event(Some(b'O')))),
    ]
}

#[test]
fn a_time_stops_once(rt: HostRuntime) -> Result<(), Fail> {
    let script = time_script(time_break(25)?);
    let alloc = rt.alloc();
    let event = system(0, b'O');
    let day = timed(alloc, &[(10, event), (30, event), (20, event), (40, event)])?;
    follow_new(alloc, &day, 1_000, &script)
}

// Two bids at one price, of which the first is executed in part, a trading halt, a refused addition under the first
// one's reference, and the first one's deletion. Message n is at time n - 1.
fn two_bids<A: Allocator + Copy>(alloc: A) -> Result<Day<A>, Fail> {
    timed(
        alloc,
        &[
            (0, AAPL.directory()),
            (1, AAPL.add(1, b'B', 100, 1_500_000)),
            (2, AAPL.add(2, b'B', 50, 1_500_000)),
            (3, AAPL.execute(1, 40, 9)),
            (4, AAPL.trading(b'H', *b"T1  ")),
            (5, AAPL.add(1, b'B', 10, 1_500_000)),
            (6, AAPL.delete(1)),
        ],
    )
}

// Message 3 changes the level alone, message 6 names the reference alone, and messages 2, 4 and 7 do both.
const fn named_script(six: Break, four: Break) -> [Line; 20] {
    [
        (Call::AddBreak(six), Ok(Returned::Added(0))),
        (Call::AddBreak(NAMED), Ok(Returned::Added(1))),
        (Call::AddBreak(BIDS), Ok(Returned::Added(2))),
        (Call::AddBreak(four), Ok(Returned::Added(3))),
        (Call::Onward, stop(2, 1)),
        (Call::Onward, stop(3, 2)),
        (Call::Onward, stop(4, 1)),
        (Call::Onward, stop(5, 3)),
        (Call::Onward, stop(6, 1)),
        (Call::Onward, stop(7, 0)),
        (Call::Rearward, stop(6, 1)),
        (Call::Rearward, stop(5, 3)),
        (Call::RemoveBreak(1), Ok(Returned::Removed(Some(NAMED)))),
        (Call::Rearward, stop(4, 1)),
        (Call::AddBreak(NAMED), Ok(Returned::Added(3))),
        (Call::Rearward, stop(3, 1)),
        (Call::Onward, stop(4, 1)),
        (Call::Onward, stop(5, 2)),
        (Call::Onward, stop(6, 3)),
        (Call::Onward, stop(7, 0)),
    ]
}

#[test]
fn the_first_that_stops_is_named(rt: HostRuntime) -> Result<(), Fail> {
    let script = named_script(time_break(6)?, time_break(4)?);
    follow_new(rt.alloc(), &two_bids(rt.alloc())?, 1_000, &script)
}
