//! Replays that are refused memory.
use crate::comparing::{follow, same_day};
use crate::cutting::{Cut, segments_of};
use crate::days::threads_of;
use crate::replaying::{deal, replay_anew, replay_segments};
use binaryfile::Day;
use day_replay::{DealtMessages, Summary};
use std::alloc::{AllocError, Allocator, Global};
use std::test::Fail;
use std::thread::Threads;
use test_refusing::{Refusal, Refusing, Tried, refuse_each};
use test_support::{same, two_stocks};

// Compares a replay that wasn't refused memory with what the plain machine makes of its day.
fn same_tried<A: Allocator + Copy + Send + Sync>(
    heap: &Refusing<Global>,
    alloc: A,
    day: &Day<A>,
    found: &Summary<A>,
) -> Result<Tried, Fail> {
    let tried = heap.tried(false);
    same_day(alloc, found, &follow(alloc, day)?)?;
    Ok(tried)
}

// Replays the segments of a day under a refusal. A replay that isn't refused memory is that of the day.
fn try_replay<R: Threads + Sync, A: Allocator + Copy + Send + Sync>(
    rt: &R,
    heap: &Refusing<Global>,
    alloc: A,
    refusal: Refusal,
) -> Result<Tried, Fail> {
    let day = two_stocks(alloc)?;
    let segments = segments_of(alloc, &day, Cut::Every(3))?;
    let threads = threads_of(1)?;
    heap.restart(refusal);
    match replay_segments(rt, alloc, &segments, threads) {
        Ok(found) => same_tried(heap, alloc, &day, &found),
        Err(AllocError) => Ok(heap.tried(true)),
    }
}

// Deals a segment under a refusal, and then anew with memory.
fn deal_under<R: Threads + Sync, A: Allocator + Copy + Send + Sync>(
    rt: &R,
    heap: &Refusing<Global>,
    alloc: A,
    day: &Day<A>,
    dealt: &mut DealtMessages<A>,
    refusal: Refusal,
) -> Result<Tried, Fail> {
    heap.restart(refusal);
    let first = deal(dealt, day);
    let tried = heap.tried(first.is_err());
    same_tried(
        heap,
        alloc,
        day,
        &replay_anew(rt, alloc, dealt, day, threads_of(1)?)?,
    )?;
    Ok(tried)
}

// Deals the day of two stocks: what is dealt with memory makes the day, whatever was before.
fn try_deal<R: Threads + Sync, A: Allocator + Copy + Send + Sync>(
    rt: &R,
    heap: &Refusing<Global>,
    alloc: A,
    refusal: Refusal,
) -> Result<Tried, Fail> {
    let day = two_stocks(alloc)?;
    deal_under(
        rt,
        heap,
        alloc,
        &day,
        &mut DealtMessages::new(alloc)?,
        refusal,
    )
}

#[test]
fn a_segment_is_dealt_anew_after_an_error(rt: HostRuntime) -> Result<(), Fail> {
    let heap = Refusing::new(rt.alloc(), Refusal::Never);
    refuse_each(|refusal: Refusal| -> Result<Tried, Fail> {
        try_deal(&rt, &heap, &heap, refusal)
    })?;
    Ok(())
}

// The buffers are kept when what is dealt is removed, so the same messages need no memory again.
#[test]
fn a_segment_is_dealt_again_without_memory(rt: HostRuntime) -> Result<(), Fail> {
    let heap = Refusing::new(rt.alloc(), Refusal::Never);
    let day = two_stocks(&heap)?;
    let mut dealt = DealtMessages::new(&heap)?;
    deal(&mut dealt, &day)?;
    heap.restart(Refusal::From(1));
    same("dealt again", &deal(&mut dealt, &day), &Ok(()))
}

#[test]
fn a_replay_without_memory_makes_nothing(rt: HostRuntime) -> Result<(), Fail> {
    let heap = Refusing::new(rt.alloc(), Refusal::Never);
    refuse_each(|refusal: Refusal| -> Result<Tried, Fail> {
        try_replay(&rt, &heap, &heap, refusal)
    })?;
    Ok(())
}
