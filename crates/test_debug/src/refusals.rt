//! Sessions that run out of memory.
use crate::worked::{TRADED, day_in};
use binaryfile::{Day, Feed, Sink};
use itch_debug::debug_run;
use itch_engine::ProgFault;
use std::alloc::{Allocator, Global};
use std::test::Fail;
use test_refusing::{Refusal, Refusing, Tried, refuse_each};
use test_support::{Failure, Narrow, Pieces, same, same_bytes};

// Lines, and the answer of each.
const LINES: &str =
    "goto 5\nbreak price 1 B 1500000\nshow 1\nrearward\nbreaks\nfoo\nremove 1\nstep";

const ANSWERS: [&str; 8] = [
    "at 5 applied\n",
    "break 1\n",
    "stock 1 \"AAPL\" state \"H\" reason \"T1\" regsho none\n\
     bid 1500000 50\n\
     order 1 B 50 1500000 none\n\
     trades 2 shares 50 notional 75000000 unprinted 0\n",
    "at 3 applied break 1\n",
    "1 price 1 B 1500000\n",
    "? command\n",
    "removed\n",
    "at 4 applied\n",
];

// How many whole answers these bytes are, which are no part of another one.
fn answered(bytes: &[u8]) -> Result<usize, Fail> {
    let mut left = bytes;
    let mut count = 0usize;
    for answer in ANSWERS {
        let Some(rest) = left.strip_prefix(answer.as_bytes()) else {
            break;
        };
        left = rest;
        count = count.wrapping_add(1);
    }
    same_bytes("a part of an answer", left, b"")?;
    Ok(count)
}

// Runs a session of these lines whose growths are refused so, and returns how it ended, and how many answers were sent.
fn run<'h, A: Allocator + Copy>(
    alloc: A,
    heap: &'h Refusing<A>,
    day: &Day<&'h Refusing<A>>,
    lines: &str,
    refusal: Refusal,
) -> Result<(Result<(), ProgFault>, usize), Fail> {
    let mut reader = Pieces::new(lines.as_bytes(), 7);
    let mut writer = Narrow::failing(alloc, 0, Failure::TakesNone);
    let mut feed = Feed::new(&mut reader);
    let mut sink = Sink::new(&mut writer);
    heap.restart(refusal);
    let ended = debug_run(heap, day, &mut feed, &mut sink);
    Ok((ended, answered(writer.taken())?))
}

// The first lines, this many of them, with their line feeds.
fn first_lines(count: usize) -> &'static str {
    let mut left = count;
    for (index, byte) in LINES.bytes().enumerate() {
        if left == 0 {
            return LINES.get(..index).unwrap_or("");
        }
        if byte == b'\n' {
            left = left.saturating_sub(1);
        }
    }
    LINES
}

// How many growths a session of the first lines has, for each number of lines.
fn growths_of_lines(alloc: Global, heap: &Refusing<Global>) -> Result<Vec<u64, Global>, Fail> {
    let mut growths = Vec::new(alloc);
    let day = day_in(heap, TRADED)?;
    for count in 0..=ANSWERS.len() {
        let ended = run(alloc, heap, &day, first_lines(count), Refusal::Never)?;
        same("the first lines", &ended, &(Ok(()), count))?;
        growths.push(heap.asked())?;
    }
    Ok(growths)
}

// A session under a refusal, where sessions of its first lines have these growths. A growth that is refused with all
// after it ends the session, when exactly the lines before the one that asks for it were answered; one that is refused
// alone ends it there, or is done without.
fn try_session(
    alloc: Global,
    heap: &Refusing<Global>,
    growths: &[u64],
    refusal: Refusal,
) -> Result<Tried, Fail> {
    heap.restart(Refusal::Never);
    let day = day_in(heap, TRADED)?;
    let whole = (Ok(()), ANSWERS.len());
    let ended = run(alloc, heap, &day, LINES, refusal)?;
    let tried = heap.tried(ended.0.is_err());
    match refusal {
        Refusal::Never => same("with memory", &ended, &whole)?,
        Refusal::Only(growth) | Refusal::From(growth) => {
            let sessions = growths
                .iter()
                .filter(|less: &&u64| -> bool { **less < growth });
            let answered = sessions.count().saturating_sub(1);
            let stopped = (Err(ProgFault::Memory), answered);
            let wanted = if tried.refused { stopped } else { whole };
            same("without memory", &(growth, ended), &(growth, wanted))?;
        }
    }
    Ok(tried)
}

#[test]
fn a_session_without_memory_has_sent_the_answers_before(rt: HostRuntime) -> Result<(), Fail> {
    let alloc = rt.alloc();
    let heap = Refusing::new(alloc, Refusal::Never);
    let lines = growths_of_lines(alloc, &heap)?;
    let growths = refuse_each(|refusal: Refusal| -> Result<Tried, Fail> {
        try_session(alloc, &heap, &lines, refusal)
    })?;
    same("all growths", &lines.last(), &Some(&growths))
}
