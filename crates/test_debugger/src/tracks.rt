//! Tracks by themselves: every place, and memory that is refused.
ghost use Rattle.std.specs.Prelude.{◌≡◌, ◌<◌, IfOk};

use crate::days::tour;
use binaryfile::Day;
use checkpoints::{StockIndex, Track};
use std::alloc::{AllocError, Allocator, Global};
use std::test::Fail;
use stock_machine::Stock;
use test_refusing::{Refusal, Refusing, Tried, refuse_any, refuse_each};
use test_support::{same, same_list};

// The shares at the tour's bid after each number of its messages, and whether the bid's reference is spent.
const BIDS: [(u64, bool); 8] = [
    (0, false),
    (0, false),
    (100, true),
    (60, true),
    (60, true),
    (50, true),
    (50, true),
    (0, true),
];

// The shares at the best bid of a stock, and whether the tour's reference is spent.
fn bid_of<A: Allocator + Copy>(stock: &Stock<A>) -> (u64, bool) {
    (stock.top().bid_shares, stock.spent(1))
}

// The bid after each number of messages, by a track.
fn bids_along<A: Allocator + Copy>(
    alloc: A,
    day: &Day<A>,
    track: &Track<'_, A>,
) -> Result<Vec<(u64, bool), A>, AllocError>
    requires { track.now.day ≡ day.now.payloads }
{
    let mut bids = Vec::new(alloc);
    for n in 0..=day.len() {
        bids.push(bid_of(&track.at(alloc, n)?))?;
    }
    Ok(bids)
}

// A way to make a track.
#[derive(Debug, Clone, Copy, PartialEq, Eq)]
enum Way {
    // By the day.
    Day,
    // By an index of the day.
    Index,
}

// The track of the only stock of a day.
fn track_by<A: Allocator + Copy>(
    alloc: A,
    day: &Day<A>,
    way: Way,
    every: u32,
) -> Result<Track<'_, A>, AllocError>
    requires { 0 < every }
    ensures { IfOk result (λ track. track.day ≡ day.now.payloads) }
{
    match way {
        Way::Day => Track::make(alloc, day, 1, every),
        Way::Index => {
            let index = StockIndex::new(alloc, day)?;
            Track::from_index(alloc, &index, 1, every as usize)
        }
    }
}

// A track of the tour shows every place.
fn same_places<A: Allocator + Copy>(
    alloc: A,
    day: &Day<A>,
    track: &Track<'_, A>,
) -> Result<(), Fail>
    requires { track.now.day ≡ day.now.payloads }
{
    let bids = bids_along(alloc, day, track)?;
    same_list("the places of a track", &bids, &BIDS)
}

// A new track shows every place.
fn same_anew<A: Allocator + Copy>(alloc: A, day: &Day<A>, way: Way, every: u32) -> Result<(), Fail>
    requires { 0 < every }
{
    same_places(alloc, day, &track_by(alloc, day, way, every)?)
}

#[test]
fn a_track_shows_every_place(rt: HostRuntime) -> Result<(), Fail> {
    let alloc = rt.alloc();
    let day = tour(alloc)?;
    for way in [Way::Day, Way::Index] {
        same_anew(alloc, &day, way, 1)?;
        same_anew(alloc, &day, way, 2)?;
        same_anew(alloc, &day, way, 1_000)?;
    }
    Ok(())
}

// A track of the tour that is made shows every place.
fn same_tried<A: Allocator + Copy>(
    alloc: A,
    day: &Day<A>,
    track: &Track<'_, A>,
    tried: Tried,
) -> Result<Tried, Fail>
    requires { track.now.day ≡ day.now.payloads }
{
    same_places(alloc, day, track)?;
    Ok(tried)
}

// After a refusal a track of the tour is made with memory.
fn tried_anew<A: Allocator + Copy>(
    heap: &Refusing<Global>,
    alloc: A,
    day: &Day<A>,
    way: Way,
) -> Result<Tried, Fail> {
    let tried = heap.tried(true);
    same_tried(alloc, day, &track_by(alloc, day, way, 2)?, tried)
}

// Makes a track of the tour under a refusal, and with memory where it is refused.
fn make_under<A: Allocator + Copy>(
    heap: &Refusing<Global>,
    alloc: A,
    day: &Day<A>,
    way: Way,
    refusal: Refusal,
) -> Result<Tried, Fail> {
    heap.restart(refusal);
    match track_by(alloc, day, way, 2) {
        Ok(track) => same_tried(alloc, day, &track, heap.tried(false)),
        Err(AllocError) => tried_anew(heap, alloc, day, way),
    }
}

// Asks a track of the tour for a place under a refusal, which leaves the track as it is.
fn place_under<A: Allocator + Copy>(
    heap: &Refusing<Global>,
    alloc: A,
    day: &Day<A>,
    track: &Track<'_, A>,
    n: u32,
    refusal: Refusal,
) -> Result<Tried, Fail>
    requires { track.now.day ≡ day.now.payloads }
{
    if n > day.len() {
        return Err(Fail::new("no such place"));
    }
    heap.restart(refusal);
    let found = match track.at(alloc, n) {
        Ok(stock) => Some(bid_of(&stock)),
        Err(AllocError) => None,
    };
    let tried = heap.tried(found.is_none());
    if !tried.refused {
        let wanted = BIDS.get(n as usize).copied();
        same("a place", &(n, found), &(n, wanted))?;
    }
    same_tried(alloc, day, track, tried)
}

// Asks a new track of the tour for a place under a refusal.
fn go_under<A: Allocator + Copy>(
    heap: &Refusing<Global>,
    alloc: A,
    day: &Day<A>,
    n: u32,
    refusal: Refusal,
) -> Result<Tried, Fail> {
    place_under(
        heap,
        alloc,
        day,
        &track_by(alloc, day, Way::Day, 2)?,
        n,
        refusal,
    )
}

#[test]
fn a_track_without_memory_is_none(rt: HostRuntime) -> Result<(), Fail> {
    let heap = Refusing::new(rt.alloc(), Refusal::Never);
    for way in [Way::Day, Way::Index] {
        refuse_each(|refusal: Refusal| -> Result<Tried, Fail> {
            make_under(&heap, &heap, &tour(&heap)?, way, refusal)
        })?;
    }
    let mut growths = 0u64;
    for n in 0..=7 {
        let more = refuse_any(|refusal: Refusal| -> Result<Tried, Fail> {
            go_under(&heap, &heap, &tour(&heap)?, n, refusal)
        })?;
        growths = growths.saturating_add(more);
    }
    same("growths of places", &(growths > 0), &true)
}
