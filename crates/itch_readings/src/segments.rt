//! A day file whose messages are taken segment by segment.
ghost use Rattle.std.specs.Prelude.{◌≡◌, ◌+◌, ◌<◌, ◌≤◌, ◌^◌, ◌++◌, ◌↔◌, [], IfErr, IsErrOf, List, OnOk, length, ℕ};
ghost use Rattle.binaryfile.specs.Devices.{GaveUpTo, HasFailed};
ghost use Rattle.day_segments.specs.Reading.{Stops};
ghost use Rattle.itch_readings.specs.Files.{GaveFile};

use binaryfile::{Day, Feed, Limits, LoadFault};
use day_segments::SegmentReader;
use std::alloc::{AllocError, Allocator};
use std::io::Read;

/// Takes the messages of a day, segment by segment.
pub trait TakesSegments<A: Allocator + Copy> {
    /// How one that has taken these messages comes from one that has taken none.
    ghost has_taken: { Self → Self → List (List ℕ) → Type 0 };

    /// Takes the messages of the next segment. With those before they are fewer than 2^32. After an error, which says that
    /// memory was refused, what was taken is of no use.
    fn take_segment(&mut self, alloc: A, segment: &Day<A>) -> Result<(), AllocError>
        requires { (first : Self) × (day : List (List ℕ)) × has_taken first self.old day
            × (length day + length segment.now.payloads < 2 ^ 32) }
        ensures { OnOk result ((first : Self) (day : List (List ℕ)) → has_taken first self.old day
            → has_taken first self.new (day ++ segment.now.payloads)) };
}

/// Reads a day file to its end, and has its messages taken segment by segment by `taker`, which has taken none before.
/// `segment` is how many bytes a segment takes, 1 to 2^30. After an error what was taken is of no use.
///
/// In the course of reading the first of these is returned: [`LoadFault::Read`] where the feed fails (at once, and with no
/// memory, where it had failed before), [`LoadFault::Memory`] where memory is refused, [`LoadFault::TooManyBytes`] where
/// the reader gave more than `limits.bytes` bytes, which are no more than 2^40, and [`LoadFault::TooManyMessages`], once
/// the whole input was read, where it has more than `limits.messages` messages. Whatever the result, at most
/// `limits.bytes + 1` bytes are taken from the reader, and no more of the file is in memory than a segment.
pub(crate) fn read_segments<A: Allocator + Copy, R: Read, T: TakesSegments<A>>(
    alloc: A,
    feed: &mut Feed<R>,
    limits: Limits,
    segment: u32,
    taker: &mut T,
) -> Result<(), LoadFault>
    requires none { T.has_taken taker.old taker.old [] }
    requires bytes { limits.bytes ≤ 2 ^ 40 }
    requires segment { (0 < segment) × (segment ≤ 2 ^ 30) }
    ensures took { OnOk result (GaveFile (R.remaining feed.old.device) (R.remaining feed.new.device)
        limits (T.has_taken taker.old taker.new)) }
    ensures fault { IfErr result (
        Stops (R.remaining feed.old.device) (R.remaining feed.new.device) limits.bytes limits.messages) }
    ensures failed { IsErrOf result LoadFault.Read ↔ HasFailed feed.new }
    ensures for_good { HasFailed feed.old → feed.new ≡ feed.old }
    ensures taken { GaveUpTo (R.remaining feed.old.device) (R.remaining feed.new.device) (limits.bytes + 1) }
{
    let mut reader = SegmentReader::new(alloc, segment, limits.bytes);
    while let Some(next) = reader.next(alloc, feed)? {
        if reader.messages() <= u64::from(limits.messages) {
            taker.take_segment(alloc, &next)?;
        }
    }
    if reader.messages() > u64::from(limits.messages) {
        return Err(LoadFault::TooManyMessages);
    }
    Ok(())
}
