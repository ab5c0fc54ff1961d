//! Growths that are refused in turn: a step that is refused memory changes nothing.
use crate::comparing::{apply, same_machines, same_references};
use itch_layouts::Msg;
use itch_table::{Outcome, Plain};
use std::alloc::{AllocError, Allocator, Global};
use std::sync::atomic::{AtomicU64, Ordering};
use std::test::Fail;
use test_refusing::{Refusal, Refusing, Tried, refuse_any, refuse_each};
use test_support::{AAPL, GROWING, Growing, MSFT, Ticker, payload_of, same, take};

// Messages by numbers from 2 on.
#[derive(Debug, Clone, Copy, PartialEq, Eq)]
enum Series {
    // Those of a kind, on the stock of locate code 1.
    Kind(Growing),
    // The directory messages of the locate codes.
    Directories,
}

impl Series {
    // The message of a number.
    fn message(self, number: u8) -> Msg {
        match self {
            Series::Kind(kind) => kind.message(number),
            Series::Directories => {
                let locate = u16::from(number);
                Ticker { locate, ..AAPL }.directory()
            }
        }
    }
}

// Leads a new machine to a message of a series, with order 1 and after the earlier messages: each replacement comes after
// its original.
fn lead_before<A: Allocator + Copy>(
    alloc: A,
    machine: &mut Plain<A>,
    series: Series,
    number: u8,
) -> Result<(), Fail> {
    apply(alloc, machine, &AAPL.directory())?;
    apply(alloc, machine, &AAPL.add(1, b'B', 10, 100))?;
    for earlier in 2..=number {
        if series == Series::Kind(Growing::Replace) {
            let original = AAPL.add(u64::from(earlier), b'B', 10, 100);
            apply(alloc, machine, &original)?;
        }
        if earlier < number {
            apply(alloc, machine, &series.message(earlier))?;
        }
    }
    Ok(())
}

// A machine that stands there.
fn machine_before<A: Allocator + Copy>(
    alloc: A,
    series: Series,
    number: u8,
) -> Result<Plain<A>, Fail> {
    let mut machine = Plain::new(alloc);
    lead_before(alloc, &mut machine, series, number)?;
    Ok(machine)
}

// Passes a message to a machine over a heap, and then to its twin, which is never refused memory. Where the machine is
// refused memory, it says what its twin says before the message, and takes the message with memory. Both say the same
// after it. Returns what became of the step where it was refused.
fn step_both<A: Allocator + Copy>(
    heap: &Refusing<Global>,
    alloc: A,
    machine: &mut Plain<A>,
    twin: &mut Plain<A>,
    msg: &Msg,
) -> Result<Option<Tried>, Fail> {
    let payload = payload_of(alloc, msg)?;
    if machine.steps() == u32::MAX {
        return Err(Fail::new("a machine takes no more messages"));
    }
    let refused = match machine.step(&payload) {
        Ok(outcome) => {
            same("a step", &outcome, &Outcome::Applied)?;
            None
        }
        Err(AllocError) => {
            let tried = heap.tried(true);
            same_machines(alloc, machine, twin)?;
            same_references(machine, twin)?;
            take("the step with memory", machine, &payload, Outcome::Applied)?;
            Some(tried)
        }
    };
    take("the step of the twin", twin, &payload, Outcome::Applied)?;
    same_machines(alloc, machine, twin)?;
    Ok(refused)
}

/// Passes messages to a machine over a heap, and to its twin, under a refusal.
pub fn step_all<A: Allocator + Copy>(
    heap: &Refusing<Global>,
    alloc: A,
    machine: &mut Plain<A>,
    twin: &mut Plain<A>,
    messages: &[Msg],
    refusal: Refusal,
) -> Result<Tried, Fail> {
    let mut refused = None;
    heap.restart(refusal);
    for msg in messages {
        if let Some(tried) = step_both(heap, alloc, machine, twin, msg)? {
            refused = Some(tried);
        }
    }
    match refused {
        Some(tried) => Ok(tried),
        None => Ok(heap.tried(false)),
    }
}

// Passes a message of a series to a machine under a refusal. Its twin is over another heap.
fn try_step<A: Allocator + Copy>(
    heap: &Refusing<Global>,
    alloc: A,
    other: A,
    series: Series,
    number: u8,
    refusal: Refusal,
) -> Result<Tried, Fail> {
    let mut machine = machine_before(alloc, series, number)?;
    let mut twin = machine_before(other, series, number)?;
    let messages = [series.message(number)];
    step_all(heap, other, &mut machine, &mut twin, &messages, refusal)
}

// Tries 99 messages of a series, some of which need memory, and some find room.
fn try_series<A: Allocator + Copy>(
    heap: &Refusing<Global>,
    alloc: A,
    other: A,
    series: Series,
) -> Result<(), Fail> {
    let mut growths = 0u64;
    for number in 2..=100u8 {
        let more = refuse_any(|refusal: Refusal| -> Result<Tried, Fail> {
            try_step(heap, alloc, other, series, number, refusal)
        })?;
        growths = growths.saturating_add(more);
    }
    same(
        "how many messages needed memory",
        &(series, growths > 0 && growths < 99),
        &(series, true),
    )
}

#[test]
fn a_step_without_memory_changes_nothing(rt: HostRuntime) -> Result<(), Fail> {
    let heap = Refusing::new(rt.alloc(), Refusal::Never);
    let other = Refusing::new(rt.alloc(), Refusal::Never);
    for kind in GROWING {
        try_series(&heap, &heap, &other, Series::Kind(kind))?;
    }
    try_series(&heap, &heap, &other, Series::Directories)
}

// How a call may end under each kind of refusal.
#[test]
fn a_call_ends_as_its_refusal_allows(_rt: HostRuntime) -> Result<(), Fail> {
    for (refusal, growths, refused, allowed) in [
        (Refusal::Never, 3, false, true),
        (Refusal::Never, 3, true, false),
        (Refusal::Only(2), 2, true, true),
        (Refusal::Only(2), 3, false, true),
        (Refusal::Only(2), 1, false, false),
        (Refusal::From(2), 2, true, true),
        (Refusal::From(2), 2, false, false),
        (Refusal::From(2), 1, true, false),
    ] {
        let tried = Tried { growths, refused };
        let found = (refusal, tried, tried.is_allowed(refusal));
        same("how a call ends", &found, &(refusal, tried, allowed))?;
    }
    Ok(())
}

// The digit of a refusal: 7 for none, k for growth k alone, and k + 3 for it and all after it.
fn digit(refusal: Refusal) -> u64 {
    match refusal {
        Refusal::Never => 7,
        Refusal::Only(growth) => growth,
        Refusal::From(growth) => growth.saturating_add(3),
    }
}

// A call of three growths is tried seven times.
#[test]
fn each_growth_is_refused_in_turn(_rt: HostRuntime) -> Result<(), Fail> {
    let seen = AtomicU64::new(0);
    let growths = refuse_each(|refusal: Refusal| -> Result<Tried, Fail> {
        let before = seen.load(Ordering::SeqCst);
        let digits = before.saturating_mul(10).saturating_add(digit(refusal));
        seen.store(digits, Ordering::SeqCst);
        let refused = matches!(refusal, Refusal::From(_));
        Ok(Tried {
            growths: 3,
            refused,
        })
    })?;
    let found = (growths, seen.load(Ordering::SeqCst));
    same("the growths and the refusals", &found, &(3, 7_142_536))
}
