//! A day's stocks at each place by their tracks, beside the plain machine.
ghost use Rattle.std.specs.Prelude.{◌≡◌, IfOk};

use crate::comparing::{same_steps, step};
use binaryfile::Day;
use checkpoints::{StockIndex, Track};
use day_core::locates;
use itch_table::{Part, Plain, part};
use std::alloc::{AllocError, Allocator};
use std::test::Fail;

// How many of a stock's messages lie from one copy of its machine to the next.
const EVERY: u32 = 3;

// The tracks of a stock, by the day and by an index of it.
fn tracks_of<'d, A: Allocator + Copy>(
    alloc: A,
    day: &'d Day<A>,
    index: &StockIndex<'d, A>,
    locate: u16,
) -> Result<(Track<'d, A>, Track<'d, A>), AllocError>
    requires { index.now ≡ day.now.payloads }
    ensures by_day { IfOk result (λ made. made.0.day ≡ day.now.payloads) }
    ensures by_index { IfOk result (λ made. made.1.day ≡ day.now.payloads) }
{
    let by_day = Track::make(alloc, day, locate, EVERY)?;
    let by_index = Track::from_index(alloc, index, locate, EVERY as usize)?;
    Ok((by_day, by_index))
}

// Compares all that a track says of its stock at a place with what the plain machine says there, and the stock's steps.
fn same_at<A: Allocator + Copy>(
    alloc: A,
    day: &Day<A>,
    track: &Track<'_, A>,
    plain: &Plain<A>,
    steps: u32,
) -> Result<(), Fail>
    requires { track.now.day ≡ day.now.payloads }
{
    let n = plain.steps();
    if n > day.len() {
        return Err(Fail::new("no such place"));
    }
    let wanted = (track.locate(), steps);
    same_steps(alloc, plain, &track.at(alloc, n)?, wanted)
}

// Compares two tracks of a stock with the plain machine before the first message of a day and after each of at most 100
// messages, and after every hundredth of a longer day.
fn compare_along<A: Allocator + Copy>(
    alloc: A,
    day: &Day<A>,
    tracks: &(Track<'_, A>, Track<'_, A>),
    plain: &mut Plain<A>,
) -> Result<(), Fail>
    requires by_day { tracks.now.0.day ≡ day.now.payloads }
    requires by_index { tracks.now.1.day ≡ day.now.payloads }
{
    let every = if day.len() <= 100 { 1 } else { 100 };
    let mut steps = 0u32;
    same_at(alloc, day, &tracks.0, plain, steps)?;
    same_at(alloc, day, &tracks.1, plain, steps)?;
    for payload in day.payloads() {
        step(plain, payload)?;
        if part(payload) == Part::Locate(tracks.0.locate()) {
            steps = steps.saturating_add(1);
        }
        if plain.steps() % every == 0 {
            same_at(alloc, day, &tracks.0, plain, steps)?;
            same_at(alloc, day, &tracks.1, plain, steps)?;
        }
    }
    Ok(())
}

// Compares new tracks of a stock with a new plain machine along a day.
fn compare_new<A: Allocator + Copy>(
    alloc: A,
    day: &Day<A>,
    index: &StockIndex<'_, A>,
    locate: u16,
) -> Result<(), Fail>
    requires { index.now ≡ day.now.payloads }
{
    let tracks = tracks_of(alloc, day, index, locate)?;
    compare_along(alloc, day, &tracks, &mut Plain::new(alloc))
}

/// Compares the tracks of all stocks of a day with the plain machine along the day.
pub fn compare_tracks<A: Allocator + Copy>(alloc: A, day: &Day<A>) -> Result<(), Fail> {
    let index = StockIndex::new(alloc, day)?;
    for locate in &locates(alloc, day)? {
        compare_new(alloc, day, &index, *locate)?;
    }
    Ok(())
}
