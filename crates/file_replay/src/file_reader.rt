//! A file whose messages are dealt while it is read.
ghost use Rattle.std.specs.Prelude.{◌≡◌, ◌+◌, ◌<◌, ◌≤◌, ◌^◌, ◌↔◌, ℕ, IfErr, IfOk, IsErrOf, List, OnOk, Option, false, length};
ghost use Rattle.binaryfile.specs.Devices.{GaveUpTo, HasFailed};
ghost use Rattle.binaryfile.specs.Entries.{Contents};
ghost use Rattle.day_segments.specs.Reading.{HasRead, IsWholeFile, Stops, nothing_read};
ghost use Rattle.file_replay.specs.Files.{DealsNext, DealsSegment, IsFurther, IsSoFar, Next, ReadsOn};

use crate::file_end::FileEnd;
use binaryfile::{Feed, Limits, LoadFault};
use day_replay::DealtMessages;
use day_segments::SegmentReader;
use std::alloc::Allocator;
use std::io::Read;
use std::marker::Model;

// How many segments are dealt at a time: the first times fewer, so that who replays them begins early.
const SEGMENTS: u32 = 16;

// Reads a file to its end.
fn read_rest<R: Read, A: Allocator + Copy>(
    alloc: A,
    feed: &mut Feed<R>,
    reader: &mut SegmentReader<A>,
) -> Result<(), LoadFault>
    ensures whole { OnOk result ((start : Option (List ℕ)) (before : Contents)
        → HasRead start (R.remaining feed.old.device) before reader.old
        → (contents : Contents) × IsWholeFile start (R.remaining feed.new.device) reader.old.most contents
        × (length before.payloads ≤ length contents.payloads)) }
    ensures fault { IfErr result (λ fault. (start : Option (List ℕ)) (before : Contents)
        → HasRead start (R.remaining feed.old.device) before reader.old
        → (messages : ℕ) → Stops start (R.remaining feed.new.device) reader.old.most messages fault) }
    ensures most { reader.new.most ≡ reader.old.most }
    ensures failed { IsErrOf result LoadFault.Read ↔ HasFailed feed.new }
    ensures for_good { HasFailed feed.old → feed.new ≡ feed.old }
    ensures taken { (start : Option (List ℕ)) (before : Contents)
        → HasRead start (R.remaining feed.old.device) before reader.old
        → GaveUpTo start (R.remaining feed.new.device) (reader.old.most + 1) }
{
    while let Some(_segment) = reader.next(alloc, feed)? {}
    Ok(())
}

/// A day file, as far as it was read. It is seen as how far that is, how the file ends so far, and how many messages it may
/// have.
#[derive(Drop)]
pub(crate) struct FileReader<A: Allocator> {
    reader: SegmentReader<A>,
    end: FileEnd,
    limit: u32,
    // How many segments are dealt next.
    segments: u32,
}

impl<A: Allocator> Model for FileReader<A> {
    ghost use Rattle.std.specs.Prelude.{◌<◌, ◌≤◌, ◌^◌};
    ghost use Rattle.file_replay.specs.Files.{FileReading};

    ghost Value = { FileReading };

    ghost view = { λ f. record { reading = f.reader; end = f.end; limit = f.limit } };

    ghost invariant = { λ f. (f.reader.most ≤ 2 ^ 40) × (f.limit < 2 ^ 32) };
}

impl<A: Allocator + Copy> FileReader<A> {
    /// Before the first byte of a file that has no more than so many bytes, which are no more than 2^40, and messages. It is
    /// read in segments of so many bytes, 1 to 2^30.
    pub fn new(alloc: A, segment: u32, limits: Limits) -> FileReader<A>
        requires bytes { limits.bytes ≤ 2 ^ 40 }
        requires segment { (0 < segment) × (segment ≤ 2 ^ 30) }
        ensures so_far { (start : Option (List ℕ)) → IsSoFar start start nothing_read result }
        ensures most { result.reading.most ≡ limits.bytes }
        ensures limit { result.limit ≡ limits.messages }
    {
        FileReader {
            reader: SegmentReader::new(alloc, segment, limits.bytes),
            end: FileEnd::new(),
            limit: limits.messages,
            segments: 1,
        }
    }

    // Reads the next segment and deals it after the messages that are dealt, before which the file has `before` messages;
    // whether there was one. A file of too many messages is read to its end, and then refused.
    fn deal_segment<R: Read>(
        &mut self,
        alloc: A,
        feed: &mut Feed<R>,
        before: u32,
        dealt: &mut DealtMessages<A>,
    ) -> Result<bool, LoadFault>
        requires { (start : Option (List ℕ)) × (began : Contents)
            × IsFurther start (R.remaining feed.old.device) began self.old dealt.old
            × (before ≡ length began.payloads) }
        ensures deals { OnOk result (DealsSegment R.remaining before
            feed.old feed.new self.old self.new dealt.old dealt.new) }
        ensures whole { IfOk result (λ more. more ≡ false → (start : Option (List ℕ)) (contents : Contents)
            → IsSoFar start (R.remaining feed.old.device) contents self.old
            → Next start (R.remaining feed.new.device) contents self.new dealt.new false) }
        ensures reads { ReadsOn R.remaining feed.old feed.new self.old self.new result }
    {
        let Some(segment) = self.reader.next(alloc, feed)? else {
            return Ok(false);
        };
        if self.reader.messages() > u64::from(self.limit) {
            read_rest(alloc, feed, &mut self.reader)?;
            return Err(LoadFault::TooManyMessages);
        }
        dealt.deal(before, &segment)?;
        self.end = self.end.after(&segment);
        Ok(true)
    }

    /// Reads the next segments and deals them in place of what is dealt; whether there was one. These are 1 segment the
    /// first time, then 2, 4, 8 and from then on 16, unless the file ends before. A file of too many messages is read to its
    /// end, and then refused.
    pub fn deal_next<R: Read>(
        &mut self,
        alloc: A,
        feed: &mut Feed<R>,
        dealt: &mut DealtMessages<A>,
    ) -> Result<bool, LoadFault>
        requires { (start : Option (List ℕ)) × (before : Contents)
            × IsSoFar start (R.remaining feed.old.device) before self.old }
        ensures { DealsNext R.remaining feed.old feed.new self.old self.new dealt.new result }
    {
        let before = self.reader.messages() as u32;
        dealt.clear();
        if !self.deal_segment(alloc, feed, before, dealt)? {
            return Ok(false);
        }
        for _segment in 1..self.segments {
            if !self.deal_segment(alloc, feed, before, dealt)? {
                return Ok(true);
            }
        }
        self.segments = self.segments.saturating_mul(2).min(SEGMENTS);
        Ok(true)
    }
}

impl<A: Allocator> FileReader<A> {
    /// How many bytes the feed has given.
    pub fn bytes(&self) -> u64
        ensures { result ≡ self.now.reading.given }
    {
        self.reader.bytes()
    }

    /// How the file ends, as far as it was read.
    pub fn end(&self) -> FileEnd
        ensures { result ≡ self.now.end }
    {
        self.end
    }
}
