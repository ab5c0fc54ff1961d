//! Growths that are refused in turn: a step that is refused memory changes nothing.
use crate::comparing::{after, same_machines, same_results, take, take_message};
use itch_layouts::Msg;
use itch_table::{Outcome, Part, part};
use std::alloc::{Allocator, Global};
use std::test::Fail;
use stock_machine::Stock;
use test_refusing::{Refusal, Refusing, Tried, refuse_any};
use test_support::{AAPL, GROWING, Growing, payload_of, same};

// The directory message, and one that adds a bid.
fn one_bid() -> [Msg; 2] {
    [AAPL.directory(), AAPL.add(1, b'B', 10, 100)]
}

// A machine with order 1 before message `number` of a kind, after the earlier ones from 2 on: each replacement comes
// after its original.
fn machine_before<A: Allocator + Copy>(
    alloc: A,
    kind: Growing,
    number: u8,
) -> Result<Stock<A>, Fail> {
    let mut stock = after(alloc, &one_bid())?;
    take_earlier(alloc, &mut stock, kind, number)?;
    Ok(stock)
}

fn take_earlier<A: Allocator + Copy>(
    alloc: A,
    stock: &mut Stock<A>,
    kind: Growing,
    number: u8,
) -> Result<(), Fail> {
    for earlier in 2..=number {
        if kind == Growing::Replace {
            let original = AAPL.add(u64::from(earlier), b'B', 10, 100);
            take_message(alloc, stock, &original, Outcome::Applied)?;
        }
        if earlier < number {
            take_message(alloc, stock, &kind.message(earlier), Outcome::Applied)?;
        }
    }
    Ok(())
}

// Steps a machine under a refusal through a payload that is applied with memory.
fn step_under<A: Allocator + Copy>(
    heap: &Refusing<Global>,
    stock: &mut Stock<A>,
    payload: &[u8],
    refusal: Refusal,
) -> Result<Tried, Fail> {
    if part(payload) != Part::Locate(stock.locate()) || stock.steps() == u32::MAX {
        return Err(Fail::new("the payload isn't the stock's next one"));
    }
    heap.restart(refusal);
    let returned = stock.step(payload);
    let tried = heap.tried(returned.is_err());
    if !tried.refused {
        same("a step", &returned, &Ok(Outcome::Applied))?;
    }
    Ok(tried)
}

// Passes a payload to a machine under a refusal. Where it is refused, the machine says what its twin says, and takes
// the payload with memory. In the end it says what the twin says, which took it and was never refused.
fn take_under<A: Allocator + Copy>(
    heap: &Refusing<Global>,
    alloc: A,
    stock: &mut Stock<A>,
    twin: &mut Stock<A>,
    payload: &[u8],
    refusal: Refusal,
) -> Result<Tried, Fail> {
    let tried = step_under(heap, stock, payload, refusal)?;
    if tried.refused {
        same_machines(alloc, stock, twin)?;
        same_results(stock, twin)?;
        take(stock, payload, Outcome::Applied)?;
    }
    take(twin, payload, Outcome::Applied)?;
    same_machines(alloc, stock, twin)?;
    Ok(tried)
}

fn twins_before<A: Allocator + Copy>(
    alloc: A,
    kind: Growing,
    number: u8,
) -> Result<(Stock<A>, Stock<A>), Fail> {
    Ok((
        machine_before(alloc, kind, number)?,
        machine_before(alloc, kind, number)?,
    ))
}

// Passes message `number` of a kind to a machine under a refusal.
fn try_step<A: Allocator + Copy>(
    heap: &Refusing<Global>,
    alloc: A,
    kind: Growing,
    number: u8,
    refusal: Refusal,
) -> Result<Tried, Fail> {
    let payload = payload_of(alloc, &kind.message(number))?;
    let (mut stock, mut twin) = twins_before(alloc, kind, number)?;
    take_under(heap, alloc, &mut stock, &mut twin, &payload, refusal)
}

// Some of 99 messages of a kind need memory, and some find room.
#[test]
fn a_step_without_memory_changes_nothing(rt: HostRuntime) -> Result<(), Fail> {
    let heap = Refusing::new(rt.alloc(), Refusal::Never);
    for kind in GROWING {
        let mut growths = 0u64;
        for number in 2..=100u8 {
            let more = refuse_any(|refusal: Refusal| -> Result<Tried, Fail> {
                try_step(&heap, &heap, kind, number, refusal)
            })?;
            growths = growths.saturating_add(more);
        }
        same(
            "how many messages needed memory",
            &(kind, growths > 0 && growths < 99),
            &(kind, true),
        )?;
    }
    Ok(())
}

// The message that takes a reference lower than all before it: a new order, or a replacement of the one before.
fn falling_message(kind: Growing, reference: u64) -> Msg {
    match kind {
        Growing::Replace => AAPL.replace(reference.saturating_add(1), reference, 10, 300),
        _ => AAPL.add(reference, b'B', 10, 100),
    }
}

// A machine that has taken references from 1,000 down to above this one.
fn fallen_to<A: Allocator + Copy>(
    alloc: A,
    kind: Growing,
    reference: u64,
) -> Result<Stock<A>, Fail> {
    let mut stock = after(alloc, &[AAPL.directory(), AAPL.add(1_000, b'B', 10, 100)])?;
    fall_to(alloc, &mut stock, kind, reference)?;
    Ok(stock)
}

fn fall_to<A: Allocator + Copy>(
    alloc: A,
    stock: &mut Stock<A>,
    kind: Growing,
    reference: u64,
) -> Result<(), Fail> {
    for earlier in (reference..1_000).rev() {
        if earlier > reference {
            take_message(
                alloc,
                stock,
                &falling_message(kind, earlier),
                Outcome::Applied,
            )?;
        }
    }
    Ok(())
}

fn fallen_twins<A: Allocator + Copy>(
    alloc: A,
    kind: Growing,
    reference: u64,
) -> Result<(Stock<A>, Stock<A>), Fail> {
    Ok((
        fallen_to(alloc, kind, reference)?,
        fallen_to(alloc, kind, reference)?,
    ))
}

// Passes a message with a falling reference to a machine under a refusal.
fn try_falling<A: Allocator + Copy>(
    heap: &Refusing<Global>,
    alloc: A,
    kind: Growing,
    reference: u64,
    refusal: Refusal,
) -> Result<Tried, Fail> {
    let payload = payload_of(alloc, &falling_message(kind, reference))?;
    let (mut stock, mut twin) = fallen_twins(alloc, kind, reference)?;
    take_under(heap, alloc, &mut stock, &mut twin, &payload, refusal)
}

// References that don't rise stand in trees, which grow by other steps than lists.
#[test]
fn a_falling_reference_without_memory_changes_nothing(rt: HostRuntime) -> Result<(), Fail> {
    let heap = Refusing::new(rt.alloc(), Refusal::Never);
    for kind in [Growing::Add, Growing::Replace] {
        let mut growths = 0u64;
        for reference in 970..1_000u64 {
            let more = refuse_any(|refusal: Refusal| -> Result<Tried, Fail> {
                try_falling(&heap, &heap, kind, reference, refusal)
            })?;
            growths = growths.saturating_add(more);
        }
        same(
            "that messages needed memory",
            &(kind, growths > 2),
            &(kind, true),
        )?;
    }
    Ok(())
}
