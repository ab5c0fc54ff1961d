//! Pieces that make a day, and pieces that don't.
use day_core::{MergeFault, Piece, merge};
use itch_table::{Fault, Outcome};
use std::alloc::{AllocError, Allocator, Global};
use std::test::Fail;
use test_refusing::{Refusal, Refusing, Tried, refuse_each};
use test_support::same;

// A piece for a message that was applied.
fn applied(message: u32) -> Piece {
    Piece {
        message,
        outcome: Outcome::Applied,
    }
}

// Two lists of pieces, as `merge` takes them.
fn lists_of<A: Allocator + Copy>(
    alloc: A,
    first: &[Piece],
    second: &[Piece],
) -> Result<Vec<Vec<Piece, A>, A>, AllocError> {
    let mut lists = Vec::with_capacity(alloc, 2)?;
    lists.push(first.to_vec(alloc)?)?;
    lists.push(second.to_vec(alloc)?)?;
    Ok(lists)
}

// The outcomes of the first two messages of a day of this many, put together of two lists.
fn merged<A: Allocator + Copy>(
    alloc: A,
    messages: u32,
    first: &[Piece],
    second: &[Piece],
) -> Result<Result<(usize, Option<Outcome>, Option<Outcome>), MergeFault>, AllocError> {
    let lists = lists_of(alloc, first, second)?;
    Ok(merge(alloc, messages, lists).map(|outcomes| {
        (
            outcomes.len(),
            outcomes.get(0).copied(),
            outcomes.get(1).copied(),
        )
    }))
}

#[test]
fn pieces_in_any_order_make_a_day(rt: HostRuntime) -> Result<(), Fail> {
    let refused = Outcome::Refused(Fault::ZeroShares);
    let second = Piece {
        message: 2,
        outcome: refused,
    };
    for (first, other) in [
        ([second].as_slice(), [applied(1)].as_slice()),
        ([applied(1), second].as_slice(), [].as_slice()),
        ([].as_slice(), [second, applied(1)].as_slice()),
    ] {
        same(
            "a day",
            &merged(rt.alloc(), 2, first, other)?,
            &Ok((2, Some(Outcome::Applied), Some(refused))),
        )?;
    }
    same(
        "a day without messages",
        &merged(rt.alloc(), 0, &[], &[])?,
        &Ok((0, None, None)),
    )
}

// Pieces for messages that were applied.
fn all_applied<A: Allocator>(alloc: A, messages: &[u32]) -> Result<Vec<Piece, A>, AllocError> {
    let mut pieces = Vec::new(alloc);
    for message in messages {
        pieces.push(applied(*message))?;
    }
    Ok(pieces)
}

// Two lists of pieces for these messages, as those of a day of two messages, have this fault.
fn have_fault<A: Allocator + Copy>(
    alloc: A,
    first: &[u32],
    second: &[u32],
    fault: MergeFault,
) -> Result<(), Fail> {
    let first = all_applied(alloc, first)?;
    let second = all_applied(alloc, second)?;
    let found = merged(alloc, 2, &first, &second)?;
    same("a fault", &found, &Err(fault))
}

#[test]
fn the_first_faulty_piece_is_the_fault(rt: HostRuntime) -> Result<(), Fail> {
    let alloc = rt.alloc();
    have_fault(alloc, &[1], &[1], MergeFault::Double(1))?;
    have_fault(alloc, &[1, 3], &[], MergeFault::Stranger(3))?;
    have_fault(alloc, &[2], &[], MergeFault::Missing(1))?;
    have_fault(alloc, &[], &[0, 3], MergeFault::Stranger(0))?;
    have_fault(alloc, &[2], &[2, 5], MergeFault::Double(2))?;
    have_fault(alloc, &[5, 2], &[2], MergeFault::Stranger(5))?;
    have_fault(alloc, &[1], &[], MergeFault::Missing(2))
}

// Merges two lists under a refusal. Where a growth is refused, the merge is, and one with memory makes the day.
fn try_merge<A: Allocator + Copy + Send + Sync>(
    heap: &Refusing<Global>,
    alloc: A,
    refusal: Refusal,
) -> Result<Tried, Fail> {
    let lists = lists_of(alloc, &[applied(1)], &[applied(2)])?;
    heap.restart(refusal);
    let returned = merge(alloc, 2, lists).map(|outcomes| outcomes.len());
    let tried = heap.tried(returned.is_err());
    let wanted = match refusal {
        Refusal::Never => Ok(2),
        Refusal::Only(_) | Refusal::From(_) => Err(MergeFault::Memory),
    };
    same("a merge", &(refusal, returned), &(refusal, wanted))?;
    let outcome = Some(Outcome::Applied);
    let again = merged(alloc, 2, &[applied(1)], &[applied(2)])?;
    same("with memory", &again, &Ok((2, outcome, outcome)))?;
    Ok(tried)
}

// Merges two pieces for one message under a refusal: memory is refused before the second piece is found to be faulty.
fn try_faulty_merge<A: Allocator + Copy + Send + Sync>(
    heap: &Refusing<Global>,
    alloc: A,
    refusal: Refusal,
) -> Result<(), Fail> {
    let lists = lists_of(alloc, &[applied(1)], &[applied(1)])?;
    heap.restart(refusal);
    let returned = merge(alloc, 2, lists).map(|outcomes| outcomes.len());
    heap.restart(Refusal::Never);
    let wanted = match refusal {
        Refusal::Never => MergeFault::Double(1),
        Refusal::Only(_) | Refusal::From(_) => MergeFault::Memory,
    };
    same(
        "a faulty merge",
        &(refusal, returned),
        &(refusal, Err(wanted)),
    )
}

#[test]
fn pieces_without_memory_make_no_day(rt: HostRuntime) -> Result<(), Fail> {
    let heap = Refusing::new(rt.alloc(), Refusal::Never);
    let growths = refuse_each(|refusal: Refusal| -> Result<Tried, Fail> {
        try_faulty_merge(&heap, &heap, refusal)?;
        try_merge(&heap, &heap, refusal)
    })?;
    same("all growths", &growths, &2)
}
