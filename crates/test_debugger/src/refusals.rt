//! A debugger whose memory is refused.
use crate::calls::{Call, Returned, follow};
use crate::days::{BIDS, time_break, tour};
use binaryfile::Day;
use debugger::{Break, DebugFault, Debugger};
use itch_table::{Outcome, Top, Totals};
use std::alloc::{Allocator, Global};
use std::test::Fail;
use test_refusing::{Refusal, Refusing, Tried, refuse_each};
use test_support::{same, same_bytes};

// What a debugger says of itself: its position, the outcome and the event there, and its breakpoints.
#[derive(Debug, Clone, Copy, PartialEq, Eq)]
struct Seen {
    position: u32,
    outcome: Option<Outcome>,
    event: Option<u8>,
    breaks: [Option<Break>; 3],
}

fn seen_of<A: Allocator>(debugger: &Debugger<'_, A>) -> Seen {
    Seen {
        position: debugger.position(),
        outcome: debugger.outcome(),
        event: debugger.event(),
        breaks: [
            debugger.break_at(0),
            debugger.break_at(1),
            debugger.break_at(2),
        ],
    }
}

// What a call returns, and what the debugger is then.
#[derive(Debug, Clone, Copy, PartialEq, Eq)]
struct Done {
    result: Result<Returned, DebugFault>,
    seen: Seen,
}

// Makes a call.
fn done_by<A: Allocator + Copy>(alloc: A, debugger: &mut Debugger<'_, A>, call: &Call) -> Done {
    let result = call.make(alloc, debugger);
    Done {
        result,
        seen: seen_of(debugger),
    }
}

// Moves a new debugger of the tour after message 3, with a breakpoint.
fn set_at_3<A: Allocator + Copy>(
    alloc: A,
    debugger: &mut Debugger<'_, A>,
) -> Result<(), DebugFault> {
    debugger.add_break(alloc, BIDS)?;
    debugger.goto(alloc, 3)
}

// The stock at that place: a bid of which a part was executed.
const AT_3: Returned = Returned::Shown(
    Top {
        bid_price: 1_500_000,
        bid_shares: 60,
        ask_price: 0,
        ask_shares: 0,
    },
    Totals {
        trades: 1,
        shares: 40,
        notional: 60_000_000,
        unprinted: 0,
    },
    None,
    true,
);

// Makes a call of a new debugger under a refusal. Where it is refused, it leaves the debugger as it was, its stock too,
// and is made with memory: after the stock was asked for where all later growths were refused as well, and else at
// once. In the end the result and the debugger are those of a twin whose call was never refused.
fn call_under<A: Allocator + Copy>(
    heap: &Refusing<Global>,
    alloc: A,
    debugger: &mut Debugger<'_, A>,
    twin: &mut Debugger<'_, A>,
    call: Call,
    refusal: Refusal,
) -> Result<Tried, Fail> {
    set_at_3(alloc, debugger)?;
    set_at_3(alloc, twin)?;
    heap.restart(refusal);
    let mut done = done_by(alloc, debugger, &call);
    let tried = heap.tried(done.result == Err(DebugFault::Memory));
    if tried.refused {
        same("after a refusal", &done.seen, &seen_of(twin))?;
        if let Refusal::From(_) = refusal {
            follow(alloc, debugger, &[(Call::Stock(1), Ok(AT_3))])?;
        }
        done = done_by(alloc, debugger, &call);
    }
    same("a call", &done, &done_by(alloc, twin, &call))?;
    Ok(tried)
}

// Makes a call of a debugger under a refusal, beside a new twin.
fn call_beside<A: Allocator + Copy>(
    heap: &Refusing<Global>,
    alloc: A,
    day: &Day<A>,
    debugger: &mut Debugger<'_, A>,
    call: Call,
    refusal: Refusal,
) -> Result<Tried, Fail> {
    call_under(
        heap,
        alloc,
        debugger,
        &mut Debugger::new(alloc, day, 2)?,
        call,
        refusal,
    )
}

// Makes a call of a new debugger of a day under a refusal.
fn call_anew<A: Allocator + Copy>(
    heap: &Refusing<Global>,
    alloc: A,
    day: &Day<A>,
    call: Call,
    refusal: Refusal,
) -> Result<Tried, Fail> {
    call_beside(
        heap,
        alloc,
        day,
        &mut Debugger::new(alloc, day, 2)?,
        call,
        refusal,
    )
}

#[test]
fn a_refused_call_leaves_the_debugger(rt: HostRuntime) -> Result<(), Fail> {
    let heap = Refusing::new(rt.alloc(), Refusal::Never);
    let late = time_break(3)?;
    for call in [
        Call::Goto(6),
        Call::Step,
        Call::Back,
        Call::Onward,
        Call::Rearward,
        Call::AddBreak(late),
        Call::Stock(1),
    ] {
        let growths = refuse_each(|refusal: Refusal| -> Result<Tried, Fail> {
            call_anew(&heap, &heap, &tour(&heap)?, call, refusal)
        })?;
        same("some growths", &(call, growths <= 60), &(call, true))?;
    }
    Ok(())
}

// A new debugger stands at 0, and shows the stock after message 3.
fn stands_new<A: Allocator + Copy>(
    heap: &Refusing<Global>,
    alloc: A,
    debugger: &mut Debugger<'_, A>,
) -> Result<Tried, Fail> {
    let tried = heap.tried(false);
    same("the position", &debugger.position(), &0)?;
    set_at_3(alloc, debugger)?;
    follow(alloc, debugger, &[(Call::Stock(1), Ok(AT_3))])?;
    Ok(tried)
}

// Makes a debugger of the tour under a refusal.
fn new_under<A: Allocator + Copy>(
    heap: &Refusing<Global>,
    alloc: A,
    day: &Day<A>,
    refusal: Refusal,
) -> Result<Tried, Fail> {
    heap.restart(refusal);
    match Debugger::new(alloc, day, 2) {
        Ok(mut debugger) => stands_new(heap, alloc, &mut debugger),
        Err(_) => Ok(heap.tried(true)),
    }
}

// Makes a debugger of the tour under a refusal. Where it is refused, the day is as it was, and one is made with memory.
fn try_new<A: Allocator + Copy>(
    heap: &Refusing<Global>,
    alloc: A,
    refusal: Refusal,
) -> Result<Tried, Fail> {
    let day = tour(alloc)?;
    let tried = new_under(heap, alloc, &day, refusal)?;
    if tried.refused {
        same_bytes("the day", day.bytes(), tour(alloc)?.bytes())?;
        let again = new_under(heap, alloc, &day, Refusal::Never)?;
        same("a debugger with memory", &again.refused, &false)?;
    }
    Ok(tried)
}

#[test]
fn a_debugger_without_memory_is_none(rt: HostRuntime) -> Result<(), Fail> {
    let heap = Refusing::new(rt.alloc(), Refusal::Never);
    refuse_each(|refusal: Refusal| -> Result<Tried, Fail> { try_new(&heap, &heap, refusal) })?;
    Ok(())
}

// A move past an end is refused before any growth, and breakpoints are looked at and removed without any.
fn call_without_memory<A: Allocator + Copy>(
    heap: &Refusing<Global>,
    alloc: A,
    debugger: &mut Debugger<'_, A>,
) -> Result<(), Fail> {
    set_at_3(alloc, debugger)?;
    let before = seen_of(debugger);
    heap.restart(Refusal::From(1));
    same("with no memory", &seen_of(debugger), &before)?;
    let script = [
        (Call::Goto(8), Err(DebugFault::PastEnd)),
        (Call::RemoveBreak(1), Ok(Returned::Removed(None))),
        (Call::RemoveBreak(0), Ok(Returned::Removed(Some(BIDS)))),
    ];
    follow(alloc, debugger, &script)?;
    let after = (debugger.position(), debugger.break_len(), heap.asked());
    same(
        "the position, the breakpoints and the growths",
        &after,
        &(3, 0, 0),
    )
}

// Makes these calls of a new debugger.
fn new_without_memory<A: Allocator + Copy>(
    heap: &Refusing<Global>,
    alloc: A,
    day: &Day<A>,
) -> Result<(), Fail> {
    call_without_memory(heap, alloc, &mut Debugger::new(alloc, day, 2)?)
}

#[test]
fn some_calls_take_no_memory(rt: HostRuntime) -> Result<(), Fail> {
    let heap = Refusing::new(rt.alloc(), Refusal::Never);
    new_without_memory(&heap, &heap, &tour(&heap)?)
}
