//! A day file that is read up to a place.
ghost use Rattle.std.specs.Prelude.{◌≡◌, ◌+◌, ◌<◌, ◌≤◌, ◌^◌, ◌++◌, ◌∷◌, ◌↔◌, IfErr, IfOk, IsErrOf, IsOk, List, OnOk, [], length, take, ℕ};
ghost use Rattle.binaryfile.specs.Devices.{GaveUpTo, HasFailed};
ghost use Rattle.itch_table.specs.Projection.{payload_at};
ghost use Rattle.engine_rules.specs.FaultOrigins.{fault_of_load};
ghost use Rattle.itch_show.specs.Parts.{Exceeds, GavePart, HasReadUpTo, StopsAt};
ghost use Rattle.itch_show.specs.Places.{ComesUpTo, TakesUpTo};

use crate::place::Place;
use binaryfile::{Day, Feed, Limits, LoadFault};
use day_segments::SegmentReader;
use std::alloc::{AllocError, Allocator};
use std::io::Read;

/// Takes the messages of a day, one by one.
pub trait TakesMessages<A: Allocator + Copy> {
    /// How one that has taken these messages comes from one that has taken none.
    ghost has_taken: { Self → Self → List (List ℕ) → Type 0 };

    /// Takes the next message. With those before it they are fewer than 2^32. After an error, which says that memory was
    /// refused, what was taken is of no use.
    fn take(&mut self, alloc: A, payload: &[u8]) -> Result<(), AllocError>
        requires { (first : Self) × (day : List (List ℕ)) × has_taken first self.old day
            × (length day + 1 < 2 ^ 32) }
        ensures { OnOk result ((first : Self) (day : List (List ℕ)) → has_taken first self.old day
            → has_taken first self.new (day ++ payload.now ∷ [])) };
}

/// The last message of a day before a place.
#[derive(Drop)]
pub struct LastMessage<A: Allocator> {
    /// Its number, counted from 1; 0 where there is none.
    pub number: u32,
    /// Its payload; empty where there is none.
    pub payload: Vec<u8, A>,
}

// How many messages of a segment were taken, and whether that was up to the place.
#[derive(Debug, Clone, Copy, PartialEq, Eq)]
struct PartTaken {
    messages: u32,
    reached: bool,
}

// Has the messages of a segment taken, which come after so many others, up to a place that doesn't lie before them.
fn take_part<A: Allocator + Copy, T: TakesMessages<A>>(
    alloc: A,
    taker: &mut T,
    place: &Place,
    before: u32,
    segment: &Day<A>,
) -> Result<PartTaken, AllocError>
    requires { (first : T) × (day : List (List ℕ)) × T.has_taken first taker.old day × (before ≡ length day)
        × ComesUpTo place.now day × (length day + length segment.now.payloads < 2 ^ 32) }
    ensures { IfOk result (λ part. (first : T) (day : List (List ℕ)) → T.has_taken first taker.old day
        → before ≡ length day → ComesUpTo place.now day
        → TakesUpTo place.now day segment.now.payloads part.messages part.reached
        (T.has_taken first taker.new)) }
{
    let mut messages = 0;
    for payload in segment.payloads() {
        if place.is_before(before + messages, payload) {
            return Ok(PartTaken {
                messages,
                reached: true,
            });
        }
        taker.take(alloc, payload)?;
        messages += 1;
    }
    Ok(PartTaken {
        messages,
        reached: place.is_reached(before + messages),
    })
}

impl<A: Allocator + Copy> LastMessage<A> {
    // Moves on to the last of so many messages that a segment begins with.
    fn move_on(&mut self, alloc: A, segment: &Day<A>, messages: u32) -> Result<(), AllocError>
        requires few { messages ≤ length segment.now.payloads }
        requires fits { self.old.number + messages < 2 ^ 32 }
        ensures number { OnOk result (self.new.number ≡ self.old.number + messages) }
        ensures payload { OnOk result ((day : List (List ℕ))
            → self.old.payload.items ≡ payload_at day (length day)
            → let taken = day ++ take messages segment.now.payloads in
            self.new.payload.items ≡ payload_at taken (length taken)) }
    {
        if messages > 0 {
            self.payload = Vec::from_slice(alloc, segment.payload(messages))?;
            self.number += messages;
        }
        Ok(())
    }
}

/// Reads a day file up to a place, and has its messages before the place taken by `taker`, which has taken none before. What is
/// returned is the last of these messages. `segment` is how many bytes a segment takes, 1 to 2^30; none is read after the one
/// that has the place. After an error what was taken is of no use.
///
/// In the course of reading the first of these is returned: [`LoadFault::Read`] where the feed fails (at once, and with no
/// memory, where it had failed before), [`LoadFault::Memory`] where memory is refused, [`LoadFault::TooManyBytes`] where
/// the reader gave more than `limits.bytes` bytes, which are no more than 2^40, and [`LoadFault::TooManyMessages`] as soon as
/// more than `limits.messages` messages were read. Whatever the result, at most `limits.bytes + 1` bytes are taken from the
/// reader, and no more of the file is in memory than a segment.
pub fn read_up_to<A: Allocator + Copy, R: Read, T: TakesMessages<A>>(
    alloc: A,
    feed: &mut Feed<R>,
    limits: Limits,
    segment: u32,
    place: &Place,
    taker: &mut T,
) -> Result<LastMessage<A>, LoadFault>
    requires none { T.has_taken taker.old taker.old [] }
    requires bytes { limits.bytes ≤ 2 ^ 40 }
    requires segment { (0 < segment) × (segment ≤ 2 ^ 30) }
    ensures read { IfOk result (λ last.
        HasReadUpTo (R.remaining feed.old.device) (R.remaining feed.new.device)
        limits place.now last.number last.payload.items (T.has_taken taker.old taker.new)) }
    ensures needed { IsOk result
        → StopsAt place.now segment (R.remaining feed.old.device) (R.remaining feed.new.device) }
    ensures fault { IfErr result (λ fault.
        GavePart (R.remaining feed.old.device) (R.remaining feed.new.device)
        (Exceeds limits (fault_of_load fault))) }
    ensures failed { IsErrOf result LoadFault.Read ↔ HasFailed feed.new }
    ensures for_good { HasFailed feed.old → feed.new ≡ feed.old }
    ensures taken { GaveUpTo (R.remaining feed.old.device) (R.remaining feed.new.device) (limits.bytes + 1) }
{
    if feed.failed() {
        return Err(LoadFault::Read);
    }
    let mut reader = SegmentReader::new(alloc, segment, limits.bytes);
    let mut last = LastMessage {
        number: 0,
        payload: Vec::new(alloc),
    };
    let mut reached = place.is_reached(0);
    'segments: while !reached {
        let Some(next) = reader.next(alloc, feed)? else {
            return Ok(last);
        };
        if reader.messages() > u64::from(limits.messages) {
            return Err(LoadFault::TooManyMessages);
        }
        let part = take_part(alloc, taker, place, last.number, &next)?;
        last.move_on(alloc, &next, part.messages)?;
        reached = part.reached;
    }
    Ok(last)
}
