//! A file that is read segment by segment, from its first byte on.
ghost use Rattle.std.specs.Prelude.{◌≡◌, ◌≢◌, ◌≤◌, ◌<◌, ◌+◌, ◌-◌, ◌^◌, ◌↔◌, Err, IfOk, IfSome, IsErrOf, List, MatchOption, None, Ok, Option, ℕ};
ghost use Rattle.binaryfile.specs.Devices.{GaveMore, GaveUpTo, HasFailed};
ghost use Rattle.binaryfile.specs.Entries.{Contents};
ghost use Rattle.day_segments.specs.Reading.{HasRead, IsWholeFile, followed_by, nothing_read};
ghost use Rattle.day_segments.specs.Segments.{IsSegment};

use crate::reading::{carry_after, read_segment};
use binaryfile::{Day, Feed, LoadFault};
use std::alloc::Allocator;
use std::io::Read;
use std::marker::Model;

/// How many bytes a segment takes, for a caller who has no reason for another number.
pub const SEGMENT_BYTES: u32 = 1 << 20;

/// How far a day file was read, segment by segment. It is seen as what is carried over to the next segment, how many bytes
/// and messages were read, how many bytes a segment takes, and how many the file may have.
#[derive(Drop)]
pub struct SegmentReader<A: Allocator> {
    // The bytes of an entry that the last segment has only in part, or an end marker.
    carried: Vec<u8, A>,
    given: u64,
    messages: u64,
    // How many bytes a segment takes.
    size: u32,
    most: u64,
}

impl<A: Allocator> Model for SegmentReader<A> {
    ghost use Rattle.day_segments.specs.Reading.{IsReader, Reading};

    ghost Value = { Reading };

    ghost view = { λ r. record {
      carried = r.carried.items;
      given = r.given;
      messages = r.messages;
      size = r.size;
      most = r.most;
    } };

    ghost invariant = { λ r. IsReader r.carried.items r.given r.messages r.size r.most };
}

impl<A: Allocator + Copy> SegmentReader<A> {
    /// Before the first segment of a file of at most `most` bytes, which are no more than 2^40. Each segment takes `size`
    /// bytes, 1 to 2^30, and the last one what is left. It takes no memory.
    pub fn new(alloc: A, size: u32, most: u64) -> SegmentReader<A>
        requires size { (0 < size) × (size ≤ 2 ^ 30) }
        requires most { most ≤ 2 ^ 40 }
        ensures read { (start : Option (List ℕ)) → HasRead start start nothing_read result }
        ensures size { result.size ≡ size }
        ensures most { result.most ≡ most }
    {
        SegmentReader {
            carried: Vec::new(alloc),
            given: 0,
            messages: 0,
            size,
            most,
        }
    }

    /// The next segment, as a day of its entries, or `None` where the file was read whole. The memory is that of `alloc`.
    ///
    /// A segment's bytes begin with what was carried over from the one before: an entry that is cut between two segments is
    /// in the second. After a last segment that isn't full the feed is asked once more. In the course of reading the first
    /// of these is returned: [`LoadFault::Read`] where the feed fails (at once, and with no memory, where it had failed
    /// before), [`LoadFault::Memory`] where memory is refused, [`LoadFault::TooManyBytes`] where the reader gave more bytes
    /// than the file may have. At most one byte more than these is taken from the reader, whatever the result. After a fault
    /// the file can't be read on.
    pub fn next<R: Read>(
        &mut self,
        alloc: A,
        feed: &mut Feed<R>,
    ) -> Result<Option<Day<A>>, LoadFault>
        ensures read { IfOk result (λ found. (start : Option (List ℕ)) (before : Contents)
            → HasRead start (R.remaining feed.old.device) before self.old
            → MatchOption found
            (IsWholeFile start (R.remaining feed.new.device) self.old.most before)
            (λ segment. HasRead start (R.remaining feed.new.device) (followed_by before segment) self.new)) }
        // A file that was read whole is still read so far, so that it can be asked again.
        ensures ended { result ≡ Ok None → (start : Option (List ℕ)) (before : Contents)
            → HasRead start (R.remaining feed.old.device) before self.old
            → HasRead start (R.remaining feed.new.device) before self.new }
        ensures size { self.new.size ≡ self.old.size }
        ensures most { self.new.most ≡ self.old.most }
        ensures further { IfOk result (λ found. MatchOption found
            (self.new ≡ self.old)
            (λ _. (self.old.given < self.new.given) × (self.new.given ≤ self.new.most))) }
        // The fault is Read exactly where the feed has failed at return.
        ensures failed { IsErrOf result LoadFault.Read ↔ HasFailed feed.new }
        // A failed feed stays as it is, and its reader is not asked.
        ensures for_good { HasFailed feed.old → feed.new ≡ feed.old }
        ensures too_many_bytes { IsErrOf result LoadFault.TooManyBytes
            → (start : Option (List ℕ)) (before : Contents)
            → HasRead start (R.remaining feed.old.device) before self.old
            → GaveMore start (R.remaining feed.new.device) self.old.most }
        ensures not_messages { result ≢ Err LoadFault.TooManyMessages }
        // Whatever the result, no more is taken than the file may have, and one byte.
        ensures taken { (start : Option (List ℕ)) (before : Contents)
            → HasRead start (R.remaining feed.old.device) before self.old
            → GaveUpTo start (R.remaining feed.new.device) (self.old.most + 1) }
        // What this call alone takes: a segment is split from what was carried over and from it.
        ensures segment { IfOk result (λ found. IfSome found (IsSegment
            (R.remaining feed.old.device) (R.remaining feed.new.device)
            self.old.carried self.old.size (self.old.most - self.old.given))) }
        ensures took { GaveUpTo (R.remaining feed.old.device) (R.remaining feed.new.device)
            (self.old.most - self.old.given + 1) }
        ensures took_more { IsErrOf result LoadFault.TooManyBytes
            → GaveMore (R.remaining feed.old.device) (R.remaining feed.new.device)
            (self.old.most - self.old.given) }
    {
        let left = self.most - self.given;
        let Some(segment) = read_segment(alloc, feed, &self.carried, self.size, left)? else {
            return Ok(None);
        };
        let carried = carry_after(alloc, &segment)?;
        self.given += (segment.bytes().len() - self.carried.len()) as u64;
        self.messages += u64::from(segment.len());
        self.carried = carried;
        Ok(Some(segment))
    }
}

impl<A: Allocator> SegmentReader<A> {
    /// How many messages the segments so far have.
    pub fn messages(&self) -> u64
        ensures { result ≡ self.now.messages }
    {
        self.messages
    }

    /// What is carried over to the next segment: the bytes of an entry that the last segment has only in part, which are
    /// the tail of the file where it ends there, or an end marker.
    pub fn carried(&self) -> &[u8]
        ensures { result.now ≡ self.now.carried }
    {
        &self.carried
    }

    /// How many bytes the feed has given so far.
    pub fn bytes(&self) -> u64
        ensures { result ≡ self.now.given }
    {
        self.given
    }
}
