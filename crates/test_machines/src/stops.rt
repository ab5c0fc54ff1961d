//! Where breakpoints stop along a day, beside what the bytes of its messages and the plain machine say.
use crate::comparing::step;
use crate::places::same_place;
use binaryfile::Day;
use debugger::{Break, DebugFault, Debugger, Stop};
use itch_layouts::{Nanos, Shape, read_msg};
use itch_table::{Plain, Side};
use std::alloc::{AllocError, Allocator};
use std::test::Fail;
use test_support::{same, same_list};

// The number that these bytes of a payload make, the highest first.
fn number_in(payload: &[u8], from: usize, len: usize) -> u64 {
    payload
        .iter()
        .skip(from)
        .take(len)
        .fold(0u64, |number: u64, byte: &u8| -> u64 {
            number.wrapping_mul(256).wrapping_add(u64::from(*byte))
        })
}

// Whether a message names an order reference, by the bytes where Nasdaq TotalView-ITCH 5.0 has them.
fn names(payload: &[u8], locate: u16, reference: u64) -> bool {
    let own = number_in(payload, 1, 2) == u64::from(locate);
    let first = number_in(payload, 11, 8) == reference;
    let second = number_in(payload, 19, 8) == reference;
    own && match payload.first() {
        Some(b'A' | b'F' | b'E' | b'C' | b'X' | b'D' | b'P') => first,
        Some(b'U') => first || second,
        _ => false,
    }
}

// The shares of a level, by the list of levels.
fn shares_at<A: Allocator + Copy>(
    alloc: A,
    plain: &Plain<A>,
    locate: u16,
    side: Side,
    price: u32,
) -> Result<u64, AllocError> {
    for level in &plain.levels(alloc, locate, side)? {
        if level.price == price {
            return Ok(level.shares);
        }
    }
    Ok(0)
}

// What a breakpoint looks at before or after a message: the shares of its level.
fn level_of<A: Allocator + Copy>(
    alloc: A,
    plain: &Plain<A>,
    breakpoint: &Break,
) -> Result<u64, AllocError> {
    match *breakpoint {
        Break::Price {
            locate,
            side,
            price,
        } => shares_at(alloc, plain, locate, side, price),
        _ => Ok(0),
    }
}

// Whether a breakpoint that looks at messages alone may stop at one.
fn may_stop(payload: &[u8], breakpoint: &Break) -> bool {
    let known = matches!(read_msg(payload), Shape::Known(_));
    known
        && match *breakpoint {
            Break::Reference { locate, reference } => names(payload, locate, reference),
            Break::Time { time } => number_in(payload, 5, 6) >= time.get(),
            Break::Price { .. } => false,
        }
}

// Passes the next payload to the plain machine, and returns whether what the breakpoint looks at has changed.
fn changes<A: Allocator + Copy>(
    alloc: A,
    plain: &mut Plain<A>,
    payload: &[u8],
    breakpoint: &Break,
) -> Result<bool, Fail> {
    let before = level_of(alloc, plain, breakpoint)?;
    step(plain, payload)?;
    Ok(level_of(alloc, plain, breakpoint)? != before)
}

// The messages at which a breakpoint stops, by their numbers, where the plain machine has taken none of them.
fn stops_by<A: Allocator + Copy>(
    alloc: A,
    day: &Day<A>,
    plain: &mut Plain<A>,
    breakpoint: &Break,
) -> Result<Vec<u32, A>, Fail> {
    let mut stops = Vec::new(alloc);
    let once = matches!(breakpoint, Break::Time { .. });
    for payload in day.payloads() {
        let changed = changes(alloc, plain, payload, breakpoint)?;
        if changed || may_stop(payload, breakpoint) && !(once && !stops.is_empty()) {
            stops.push(plain.steps())?;
        }
    }
    Ok(stops)
}

// The messages at which a breakpoint stops, by a new plain machine.
fn stops_of<A: Allocator + Copy>(
    alloc: A,
    day: &Day<A>,
    breakpoint: &Break,
) -> Result<Vec<u32, A>, Fail> {
    stops_by(alloc, day, &mut Plain::new(alloc), breakpoint)
}

// Where a debugger with these breakpoints stops on its way to the end of a day: at each message at which one of them
// stops, with the index of the first that does, and at the last message.
fn stops_onward<A: Allocator + Copy>(
    alloc: A,
    day: &Day<A>,
    breaks: &[Break],
) -> Result<Vec<Stop, A>, Fail> {
    let mut lists = Vec::new(alloc);
    for breakpoint in breaks {
        lists.push(stops_of(alloc, day, breakpoint)?)?;
    }
    let mut stops = Vec::new(alloc);
    for at in 1..=day.len() {
        let hit = lists.iter().position(|list| list.contains(&at));
        if hit.is_some() || at == day.len() {
            stops.push(Stop { at, hit })?;
        }
    }
    Ok(stops)
}

// Where it stops on its way back from the last message, where the way onward ends: at the earlier ones of the same
// stops, the last of them first, and at position 0.
fn stops_rearward<A: Allocator>(mut stops: Vec<Stop, A>) -> Result<Vec<Stop, A>, AllocError> {
    if stops.pop().is_some() {
        stops.reverse();
        stops.push(Stop { at: 0, hit: None })?;
    }
    Ok(stops)
}

// Where the debugger stops on its way to the end of the day, or to its start. At each stop all that it shows is
// compared with the plain machine.
fn stops_along<A: Allocator + Copy>(
    alloc: A,
    day: &Day<A>,
    debugger: &mut Debugger<'_, A>,
    onward: bool,
    locates: &[u16],
) -> Result<Vec<Stop, A>, Fail> {
    let mut stops = Vec::new(alloc);
    for _ in 0..=day.len() {
        let moved = if onward {
            debugger.onward(alloc)
        } else {
            debugger.rearward(alloc)
        };
        let stop = match moved {
            Ok(stop) => stop,
            Err(DebugFault::PastEnd | DebugFault::BeforeStart) => return Ok(stops),
            Err(DebugFault::Memory) => return Err(Fail::new("memory was refused")),
        };
        same_place(alloc, day, debugger, stop.at, locates)?;
        stops.push(stop)?;
    }
    Ok(stops)
}

// Compares where the debugger stops on its way with where it is to stop.
fn compare_way<A: Allocator + Copy>(
    alloc: A,
    day: &Day<A>,
    debugger: &mut Debugger<'_, A>,
    onward: bool,
    locates: &[u16],
    wanted: &[Stop],
) -> Result<(), Fail> {
    let found = stops_along(alloc, day, debugger, onward, locates)?;
    let way = if onward {
        "stops onward"
    } else {
        "stops rearward"
    };
    same_list(way, &found, wanted)
}

// Compares where a debugger with these breakpoints stops, from the start of a day to its end and back.
fn compare_ways<A: Allocator + Copy>(
    alloc: A,
    day: &Day<A>,
    debugger: &mut Debugger<'_, A>,
    breaks: &[Break],
    locates: &[u16],
) -> Result<(), Fail> {
    let stops = stops_onward(alloc, day, breaks)?;
    compare_way(alloc, day, debugger, true, locates, &stops)?;
    let stops = stops_rearward(stops)?;
    compare_way(alloc, day, debugger, false, locates, &stops)
}

// Compares where a debugger stops by these breakpoints, and again each time that the first of them was removed.
fn compare_each<A: Allocator + Copy>(
    alloc: A,
    day: &Day<A>,
    debugger: &mut Debugger<'_, A>,
    breaks: &[Break],
    locates: &[u16],
) -> Result<(), Fail> {
    for breakpoint in breaks {
        debugger.add_break(alloc, *breakpoint)?;
    }
    for removed in 0..=breaks.len() {
        let left = breaks.get(removed..).unwrap_or(&[]);
        compare_ways(alloc, day, debugger, left, locates)?;
        let first = debugger.remove_break(0);
        same("a breakpoint removed", &first, &left.first().copied())?;
    }
    Ok(())
}

/// Compares where a debugger with several breakpoints stops, and which of them it names there, on the way to the end of
/// a day and on the way back, with what the bytes of the messages and the plain machine give, and what it shows there;
/// and so again each time that its first breakpoint was removed, so that in the end each of them was the first.
pub fn compare_stops<A: Allocator + Copy>(
    alloc: A,
    day: &Day<A>,
    breaks: &[Break],
    locates: &[u16],
) -> Result<(), Fail> {
    compare_each(
        alloc,
        day,
        &mut Debugger::new(alloc, day, 7)?,
        breaks,
        locates,
    )
}
