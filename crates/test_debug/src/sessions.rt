//! Lines and their answers.
use crate::worked::{EVENTS, REPLACED, SPENT, TRADED, add_line, day_in, follow};
use debugger::Debugger;
use itch_debug::{Next, answer_line};
use std::alloc::Allocator;
use std::test::Fail;
use test_support::{same, same_bytes};

// Lines, and their answers.
const TOUR: &str = "goto 5\n\
     show 1\n\
     goto 0\n\
     show 1\n\
     back\n\
     goto 6\n\
     show 1\n\
     goto 7\n\
     step\n\
     goto 5\n\
     show 1\n";

const TOUR_ANSWERS: &str = "at 5 applied\n\
     stock 1 \"AAPL\" state \"H\" reason \"T1\" regsho none\n\
     bid 1500000 50\n\
     order 1 B 50 1500000 none\n\
     trades 2 shares 50 notional 75000000 unprinted 0\n\
     at 0 start\n\
     no stock 1\n\
     ? before start\n\
     at 6 applied\n\
     stock 1 \"AAPL\" state \"H\" reason \"T1\" regsho none\n\
     bid 1500000 50\n\
     order 1 B 50 1500000 none\n\
     trades 1 shares 10 notional 15000000 unprinted 0\n\
     at 7 applied\n\
     ? past end\n\
     at 5 applied\n\
     stock 1 \"AAPL\" state \"H\" reason \"T1\" regsho none\n\
     bid 1500000 50\n\
     order 1 B 50 1500000 none\n\
     trades 2 shares 50 notional 75000000 unprinted 0\n";

#[test]
fn a_session_shows_the_stock_at_each_position(rt: HostRuntime) -> Result<(), Fail> {
    for every in [1, 2, 3, 7, 1000] {
        follow(rt.alloc(), TRADED, every, TOUR, TOUR_ANSWERS)?;
    }
    Ok(())
}

#[test]
fn a_session_refuses_spent_references(rt: HostRuntime) -> Result<(), Fail> {
    for every in [1, 3, 1000] {
        follow(
            rt.alloc(),
            SPENT,
            every,
            "goto 15\ngoto 5\ngoto 11\n",
            "at 15 applied\nat 5 refused F12\nat 11 refused F12\n",
        )?;
    }
    Ok(())
}

// Lines, and their answers.
const BREAKS: &str = "breaks\n\
     break price 1 B 1500000\n\
     break time 3\n\
     break price 1 B 1500000\n\
     breaks\n\
     remove 1\n\
     breaks\n\
     remove 2\n\
     event\n\
     show 1\n\
     foo\n\
     onward\n\
     onward\n\
     rearward\n\
     rearward\n\
     step\n\
     back\n";

const BREAKS_ANSWERS: &str = "no breaks\n\
     break 1\n\
     break 2\n\
     break 1\n\
     1 price 1 B 1500000\n\
     2 time 3\n\
     removed\n\
     1 time 3\n\
     ? no such break\n\
     event none\n\
     no stock 1\n\
     ? command\n\
     at 4 applied break 1\n\
     at 7 applied no break\n\
     at 4 applied break 1\n\
     at 0 start no break\n\
     at 1 applied\n\
     at 0 start\n";

#[test]
fn a_session_stops_at_breakpoints_both_ways(rt: HostRuntime) -> Result<(), Fail> {
    for every in [1, 2, 3, 7, 1000] {
        follow(rt.alloc(), TRADED, every, BREAKS, BREAKS_ANSWERS)?;
    }
    Ok(())
}

// Lines, and their answers.
const CLOSED: &str = "break time 3\n\
     break time 5\n\
     break reference 1 1\n\
     breaks\n\
     remove 1\n\
     breaks\n\
     onward\n\
     onward\n\
     onward\n\
     onward\n\
     onward\n\
     onward\n\
     rearward\n\
     rearward\n\
     rearward\n\
     rearward\n\
     rearward\n\
     rearward\n";

// The breakpoint that is removed is the only one that stops at message 4.
const CLOSED_ANSWERS: &str = "break 1\n\
     break 2\n\
     break 3\n\
     1 time 3\n\
     2 time 5\n\
     3 reference 1 1\n\
     removed\n\
     1 time 5\n\
     2 reference 1 1\n\
     at 2 applied break 2\n\
     at 3 applied break 2\n\
     at 5 applied break 2\n\
     at 6 applied break 1\n\
     at 7 applied break 2\n\
     ? past end\n\
     at 6 applied break 1\n\
     at 5 applied break 2\n\
     at 3 applied break 2\n\
     at 2 applied break 2\n\
     at 0 start no break\n\
     ? before start\n";

#[test]
fn later_breakpoints_close_up(rt: HostRuntime) -> Result<(), Fail> {
    for every in [1, 3, 1000] {
        follow(rt.alloc(), TRADED, every, CLOSED, CLOSED_ANSWERS)?;
    }
    Ok(())
}

// Lines, and their answers.
const ORDER: &str = "break reference 1 1\n\
     onward\n\
     onward\n\
     onward\n\
     onward\n\
     breaks\n";

const ORDER_ANSWERS: &str = "break 1\n\
     at 2 applied break 1\n\
     at 3 refused F5 break 1\n\
     at 4 applied break 1\n\
     ? past end\n\
     1 reference 1 1\n";

#[test]
fn a_breakpoint_stops_at_every_message_of_an_order(rt: HostRuntime) -> Result<(), Fail> {
    follow(rt.alloc(), REPLACED, 1000, ORDER, ORDER_ANSWERS)
}

// Lines, and their answers.
const TIME: &str = "break time 25\n\
     onward\n\
     event\n\
     onward\n\
     rearward\n";

const TIME_ANSWERS: &str = "break 1\n\
     at 2 applied break 1\n\
     event \"S\"\n\
     at 4 applied no break\n\
     at 2 applied break 1\n";

#[test]
fn a_time_stops_once(rt: HostRuntime) -> Result<(), Fail> {
    follow(rt.alloc(), EVENTS, 1000, TIME, TIME_ANSWERS)
}

// Lines, and their answers.
const NUMBERS: &str = "goto 00000000000000000005\n\
     goto 000000000000000000005\n\
     goto 4294967296\n\
     goto 18446744073709551615\n\
     goto 18446744073709551616\n\
     break price 65536 B 1\n\
     break price 65535 B 4294967296\n\
     break time 281474976710656\n\
     break time 281474976710655\n\
     break price 01 B 0100\n\
     break price 1 B 100\n\
     break price 1 S 100\n\
     remove 0\n\
     remove 18446744073709551615\n\
     show 65536\n\
     show 65535\n";

const NUMBERS_ANSWERS: &str = "at 5 applied\n\
     ? command\n\
     ? past end\n\
     ? past end\n\
     ? command\n\
     ? command\n\
     ? command\n\
     ? command\n\
     break 1\n\
     break 2\n\
     break 2\n\
     break 3\n\
     ? no such break\n\
     ? no such break\n\
     ? command\n\
     no stock 65535\n";

#[test]
fn a_number_has_at_most_twenty_digits_and_a_limit(rt: HostRuntime) -> Result<(), Fail> {
    follow(rt.alloc(), TRADED, 1000, NUMBERS, NUMBERS_ANSWERS)
}

// Lines, and their answers.
const OTHER: &str = "\n\
     \x20\x20\x20\n\
     \x20\x20goto   2 \n\
     GOTO 2\n\
     goto\n\
     goto 2 3\n\
     goto -1\n\
     step 1\n\
     step\r\n\
     step\t\n\
     quit now\n\
     \"step\"\n\
     step \" \n\
     break\n\
     break time\n\
     break time 1 2\n\
     break price 1 B\n\
     break price 1 b 100\n\
     break price 1 B 100 2\n\
     break reference 1\n\
     remove\n\
     breaks 1\n\
     breaks\n\
     step\n";

const OTHER_ANSWERS: &str = "at 2 applied\n\
     ? command\n\
     ? command\n\
     ? command\n\
     ? command\n\
     ? command\n\
     ? command\n\
     ? command\n\
     ? command\n\
     ? command\n\
     ? command\n\
     ? command\n\
     ? command\n\
     ? command\n\
     ? command\n\
     ? command\n\
     ? command\n\
     ? command\n\
     ? command\n\
     ? command\n\
     no breaks\n\
     at 3 applied\n";

#[test]
fn other_lines_are_no_command(rt: HostRuntime) -> Result<(), Fail> {
    follow(rt.alloc(), TRADED, 1000, OTHER, OTHER_ANSWERS)
}

// Passes to a session a line of spaces and a command that has this many bytes, and compares what it answers.
fn answer_long<A: Allocator + Copy>(
    alloc: A,
    debugger: &mut Debugger<'_, A>,
    length: usize,
    command: &[u8],
    wanted: (Next, &[u8]),
) -> Result<(), Fail> {
    let mut line = Vec::new(alloc);
    add_line(&mut line, length, command)?;
    let mut answer = Vec::new(alloc);
    let next = answer_line(alloc, &mut answer, debugger, &line)?;
    same("whether it goes on", &(length, next), &(length, wanted.0))?;
    same_bytes("the answer", &answer, wanted.1)
}

// Passes lines of about a thousand bytes to a session.
fn answer_all_long<A: Allocator + Copy>(
    alloc: A,
    debugger: &mut Debugger<'_, A>,
) -> Result<(), Fail> {
    let refused = (Next::Going, b"? command\n".as_slice());
    for (length, command, wanted) in [
        (1000, b"".as_slice(), (Next::Going, b"".as_slice())),
        (1001, b"", refused),
        (1000, b"quit", (Next::Over, b"")),
        (1001, b"quit", refused),
    ] {
        answer_long(alloc, debugger, length, command, wanted)?;
    }
    Ok(())
}

#[test]
fn a_line_has_at_most_a_thousand_bytes(rt: HostRuntime) -> Result<(), Fail> {
    let alloc = rt.alloc();
    let day = day_in(alloc, TRADED)?;
    answer_all_long(alloc, &mut Debugger::new(alloc, &day, 1000)?)
}
