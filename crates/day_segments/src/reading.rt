//! Reading the next segment of a file.
ghost use Rattle.std.specs.Prelude.{◌≡◌, ◌≢◌, ◌≤◌, ◌<◌, ◌⊎◌, ◌+◌, ◌^◌, ◌↔◌, Err, IfErr, IfOk, IsErrOf, MatchOption, [], false, length};
ghost use Rattle.binaryfile.specs.Devices.{GaveAll, GaveMore, GaveUpTo, HasFailed};
ghost use Rattle.day_segments.specs.Segments.{Fills, Follows, IsSegment, carry_after};

use binaryfile::{Day, Feed, LoadFault};
use std::alloc::{AllocError, Allocator};
use std::io::Read;

// Fills a buffer with what the feed gives next, and returns how many bytes came: fewer than it has room for only at the
// end of the input.
fn fill<R: Read>(feed: &mut Feed<R>, buffer: &mut [u8]) -> Result<usize, LoadFault>
    requires { feed.old.failed ≡ false }
    ensures filled { Fills (R.remaining feed.old.device) (R.remaining feed.new.device)
        buffer.new (length buffer.old) result }
    ensures long { length buffer.new ≡ length buffer.old }
    ensures failed { IsErrOf result LoadFault.Read ↔ HasFailed feed.new }
    ensures only { IfErr result (λ fault. fault ≡ LoadFault.Read) }
{
    let mut at = 0;
    while at < buffer.len() {
        let count = feed.read(&mut buffer[at..])?;
        if count == 0 {
            return Ok(at);
        }
        at += count;
    }
    Ok(at)
}

// What is carried over to a segment, and after it what the feed gives next, as far as there is room for it.
fn next_bytes<R: Read, A: Allocator>(
    alloc: A,
    feed: &mut Feed<R>,
    carried: &[u8],
    room: usize,
) -> Result<Vec<u8, A>, LoadFault>
    requires few { length carried.now + room < 2 ^ 32 }
    requires working { feed.old.failed ≡ false }
    ensures bytes { IfOk result (λ bytes. Follows (R.remaining feed.old.device) (R.remaining feed.new.device)
        carried.now room bytes.items) }
    ensures taken { GaveUpTo (R.remaining feed.old.device) (R.remaining feed.new.device) room }
    ensures failed { IsErrOf result LoadFault.Read ↔ HasFailed feed.new }
    ensures only { IfErr result (λ fault. (fault ≡ LoadFault.Read) ⊎ (fault ≡ LoadFault.Memory)) }
{
    let mut bytes = Vec::with_capacity(alloc, carried.len() + room)?;
    bytes.extend_from_slice(carried)?;
    bytes.resize(carried.len() + room, 0)?;
    let came = fill(feed, &mut bytes[carried.len()..])?;
    bytes.truncate(carried.len() + came);
    Ok(bytes)
}

/// The next segment of a day file, as a day: the entries of what is carried over from the segment before and of what the
/// feed gives next: `size` bytes, 1 to 2^30, and fewer only where the file ends before. `carried` is empty for the first
/// segment, and then what [`carry_after`] says of the one before; `most` is how many bytes the feed may still give, no
/// more than 2^40. There is no segment where the feed gives nothing more: what was carried over is the file's tail, or its
/// end marker. So after a last segment that isn't full the feed is asked once more. The memory is that of `alloc`.
///
/// In the course of reading the first of these is returned: [`LoadFault::Read`] where the feed fails (at once, and with
/// no memory, where it had failed before), [`LoadFault::Memory`] where memory is refused, [`LoadFault::TooManyBytes`]
/// where the reader gave more than `most` bytes. At most `most + 1` bytes are taken from the reader, whatever the result.
/// There is no segment after a fault, and what was taken for it is lost, so the file can't be read on.
pub(crate) fn read_segment<R: Read, A: Allocator + Copy>(
    alloc: A,
    feed: &mut Feed<R>,
    carried: &[u8],
    size: u32,
    most: u64,
) -> Result<Option<Day<A>>, LoadFault>
    requires size { (0 < size) × (size ≤ 2 ^ 30) }
    requires most { most ≤ 2 ^ 40 }
    requires carried { length carried.now ≤ 2 ^ 16 }
    ensures segment { IfOk result (λ found. MatchOption found
        (GaveAll (R.remaining feed.old.device) (R.remaining feed.new.device) [])
        (IsSegment (R.remaining feed.old.device) (R.remaining feed.new.device) carried.now size most)) }
    // The fault is Read exactly where the feed has failed at return.
    ensures failed { IsErrOf result LoadFault.Read ↔ HasFailed feed.new }
    // A failed feed stays as it is, and its reader is not asked.
    ensures for_good { HasFailed feed.old → feed.new ≡ feed.old }
    ensures too_many_bytes { IsErrOf result LoadFault.TooManyBytes →
        GaveMore (R.remaining feed.old.device) (R.remaining feed.new.device) most }
    ensures not_messages { result ≢ Err LoadFault.TooManyMessages }
    // Whatever the result, no more is taken than these bytes and one.
    ensures taken { GaveUpTo (R.remaining feed.old.device) (R.remaining feed.new.device) (most + 1) }
{
    if feed.failed() {
        return Err(LoadFault::Read);
    }
    let room = most.saturating_add(1).min(u64::from(size)) as usize;
    let bytes = next_bytes(alloc, feed, carried, room)?;
    let came = (bytes.len() - carried.len()) as u64;
    if came == 0 {
        return Ok(None);
    }
    if came > most {
        return Err(LoadFault::TooManyBytes);
    }
    let day = Day::from_bytes(alloc, bytes, u32::MAX)?;
    // For the proof alone: it says that they are bytes.
    let _bytes = day.bytes();
    Ok(Some(day))
}

/// What is carried over to the segment after this one, in memory of `alloc`: the bytes of an entry that the segment has
/// only in part, or an end marker, after which nothing is an entry. These are 65,536 bytes at most, as many as
/// [`read_segment`] takes. An error says that memory was refused.
pub(crate) fn carry_after<A: Allocator + Copy>(
    alloc: A,
    segment: &Day<A>,
) -> Result<Vec<u8, A>, AllocError>
    ensures carried { IfOk result (λ carried. carried.items ≡ carry_after segment.now) }
    ensures long { IfOk result (λ carried. length carried.items ≤ 2 ^ 16) }
{
    // For the proof alone: it says what the tail is.
    let _bytes = segment.bytes();
    if segment.marked() {
        return Vec::from_slice(alloc, &[0, 0]);
    }
    Vec::from_slice(alloc, segment.tail())
}
