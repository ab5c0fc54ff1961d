//! The stocks that were asked for last, along the day, and those with the most messages.
ghost use Rattle.std.specs.Prelude.{◌≡◌, ◌<◌, ◌≤◌, ◌/◌, IfOk, IfSome, OnOk, length, slice_index_or};
ghost use Rattle.std.specs.List.{All};
ghost use Rattle.checkpoints.specs.Copies.{Tracked};
ghost use Rattle.debugger.specs.Sessions.{IsOf, distance_of};
ghost use Rattle.day_core.specs.Owners.{machine_of};

use binaryfile::Day;
use checkpoints::{StockIndex, Track};
use std::alloc::{AllocError, Allocator};
use std::marker::Model;
use stock_machine::Stock;

// The most tracks that are kept of the stocks that were asked for last.
const MOST_TRACKS: usize = 64;

// The most copies of a stock's machine, the first among them.
const MOST_COPIES: usize = 48;

// A stock is busy that has more messages than this.
const BUSY_MESSAGES: u32 = 60_000;

// And more than one in this many of the day's.
const BUSY_SHARE: u32 = 200;

/// Tracks of the busy stocks, and of the stocks that were asked for last, at most 64 of them, seen as the day that they
/// are of and the fewest messages of a stock from one copy to the next.
#[derive(Drop)]
pub struct Tracks<'d, A: Allocator> {
    index: StockIndex<'d, A>,
    every: u32,
    // Made at the start, since that takes a while, and kept.
    busy: Vec<Track<'d, A>, A>,
    // The one that was asked for last is the first.
    recent: Vec<Track<'d, A>, A>,
}

impl<'d, A: Allocator> Model for Tracks<'d, A> {
    ghost use Rattle.debugger.specs.Sessions.{AreTracks, Copied};

    ghost Value = { Copied };

    ghost view = { λ t. record { day = t.index; every = t.every } };

    ghost invariant = { λ t. AreTracks t.index t.every t.busy.items t.recent.items };
}

// The index of a stock's track.
fn index_of<A: Allocator>(tracks: &[Track<'_, A>], locate: u16) -> Option<usize>
    ensures within { IfSome result (λ index. index < length tracks.now) }
    ensures found { IfSome result (λ index. (track : Tracked) →
        (slice_index_or tracks.now index track).locate ≡ locate) }
{
    tracks.iter().position(|track| track.locate() == locate)
}

// How many messages of a stock that has this many lie from one copy of its machine to the next.
fn distance_of(every: u32, messages: usize) -> usize
    ensures distance { result ≡ distance_of every messages }
    ensures few { messages / result < 48 }
{
    (every as usize).max(messages / MOST_COPIES + 1)
}

// The track of a stock.
fn track_of<'d, A: Allocator + Copy>(
    alloc: A,
    index: &StockIndex<'d, A>,
    locate: u16,
    every: u32,
) -> Result<Track<'d, A>, AllocError>
    requires { 0 < every }
    ensures of { IfOk result (λ track. IsOf index.now every track) }
    ensures locate { IfOk result (λ track. track.locate ≡ locate) }
{
    let distance = distance_of(every, index.numbers(locate).len());
    Track::from_index(alloc, index, locate, distance)
}

// Adds the track of a stock that has more than this many messages.
fn add_busy<'d, A: Allocator + Copy>(
    alloc: A,
    index: &StockIndex<'d, A>,
    locate: u16,
    every: u32,
    messages: u32,
    busy: &mut Vec<Track<'d, A>, A>,
) -> Result<(), AllocError>
    requires some { 0 < every }
    requires tracks { All (IsOf index.now every) busy.old.items }
    ensures { OnOk result (All (IsOf index.now every) busy.new.items) }
{
    if index.numbers(locate).len() <= messages as usize {
        return Ok(());
    }
    busy.push(track_of(alloc, index, locate, every)?)?;
    Ok(())
}

// The tracks of the stocks that have more than this many messages.
fn busy_tracks<'d, A: Allocator + Copy>(
    alloc: A,
    index: &StockIndex<'d, A>,
    every: u32,
    messages: u32,
) -> Result<Vec<Track<'d, A>, A>, AllocError>
    requires { 0 < every }
    ensures { IfOk result (λ tracks. All (IsOf index.now every) tracks.items) }
{
    let mut busy = Vec::new(alloc);
    for locate in 0..=u16::MAX {
        add_busy(alloc, index, locate, every, messages, &mut busy)?;
    }
    Ok(busy)
}

impl<'d, A: Allocator + Copy> Tracks<'d, A> {
    /// The tracks of the busy stocks. Each track keeps copies of its stock's machine `every` of the stock's messages
    /// apart, or further apart where that would make more than 48.
    pub fn new(alloc: A, day: &'d Day<A>, every: u32) -> Result<Tracks<'d, A>, AllocError>
        requires { 0 < every }
        ensures { IfOk result (λ tracks. tracks ≡ record { day = day.now.payloads; every = every }) }
    {
        let index = StockIndex::new(alloc, day)?;
        let messages = (day.len() / BUSY_SHARE).max(BUSY_MESSAGES);
        let busy = busy_tracks(alloc, &index, every, messages)?;
        Ok(Tracks {
            index,
            every,
            busy,
            recent: Vec::new(alloc),
        })
    }

    // Takes out a stock's track, or makes one where there is none.
    fn take(&mut self, alloc: A, locate: u16) -> Result<Track<'d, A>, AllocError>
        ensures of { IfOk result (λ track. IsOf self.old.day self.old.every track) }
        ensures locate { IfOk result (λ track. track.locate ≡ locate) }
        ensures unchanged { self.new ≡ self.old }
    {
        match index_of(&self.recent, locate) {
            Some(at) => Ok(self.recent.remove(at)),
            None => track_of(alloc, &self.index, locate, self.every),
        }
    }

    // Keeps a track as the one that was asked for last. Where there are too many, the one that wasn't asked
    // for the longest is dropped.
    fn keep(&mut self, track: Track<'d, A>) -> Result<(), AllocError>
        requires { IsOf self.old.day self.old.every track }
        ensures { self.new ≡ self.old }
    {
        self.recent.truncate(MOST_TRACKS - 1);
        self.recent.insert(0, track)?;
        Ok(())
    }

    /// A stock's machine after the first `n` messages of the day, which has at least `n`, by its track, which is
    /// made where there is none.
    pub fn stock_at(&mut self, alloc: A, locate: u16, n: u32) -> Result<Stock<A>, AllocError>
        requires { n ≤ length self.old.day }
        ensures stock { IfOk result (λ stock. stock ≡ machine_of self.old.day locate n) }
        ensures unchanged { self.new ≡ self.old }
    {
        if let Some(at) = index_of(&self.busy, locate) {
            return self.busy[at].at(alloc, n);
        }
        let track = self.take(alloc, locate)?;
        let stock = track.at(alloc, n)?;
        self.keep(track)?;
        Ok(stock)
    }
}
