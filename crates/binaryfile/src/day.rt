//! A whole file in memory, with the places of its entries.
ghost use Rattle.std.specs.Prelude.{◌≡◌, ◌≢◌, ◌+◌, ◌-◌, ◌<◌, ◌≤◌, ◌^◌, ◌↔◌, length, slice_index_or, Err, IfOk, IfErr, IsOk, IsErr, IsErrOf};
ghost use Rattle.byte_strings.specs.Bytes.{AreBytes};
ghost use Rattle.binaryfile.specs.Devices.{HasFailed, GaveMore, GaveUpTo, Sends};
ghost use Rattle.binaryfile.specs.Entries.{bytes_of, Splits};
ghost use Rattle.binaryfile.specs.Loading.{Loads, ExceedsMessages, HasMoreMessages};

use crate::load::read_to_end;
use crate::scan::{IndexedEntries, begins_with_marker, bytes_after, entries_within, nth_payload};
use crate::{Feed, LoadFault, Payloads, Sink, WriteFault, send};
use std::alloc::Allocator;
use std::io::{Read, Write};
use std::marker::Model;

/// How much a file may hold.
#[derive(Debug, Clone, Copy, PartialEq, Eq)]
pub struct Limits {
    /// The most bytes in all; a caller allows no more than 2^40.
    pub bytes: u64,
    /// The most payloads.
    pub messages: u32,
}

/// A whole file in memory, seen as its payloads in order, whether an end marker follows them, and its tail: the bytes
/// after all that.
#[derive(Drop)]
pub struct Day<A: Allocator> {
    bytes: Vec<u8, A>,
    // The place of each entry whose number from 0 is a multiple of `STRIDE`.
    starts: Vec<u64, A>,
    count: u32,
    // Where the entries end.
    end: usize,
    marked: bool,
}

impl<A: Allocator> Model for Day<A> {
    ghost use Rattle.binaryfile.specs.Entries.{Contents};
    ghost use Rattle.binaryfile.specs.Scanned.{contents_of};
    ghost use Rattle.binaryfile.specs.Index.{IsDay};

    ghost Value = { Contents };

    ghost view = { λ day. contents_of day.bytes.items };

    ghost invariant = { λ day. IsDay day.bytes.items day.starts.items day.count day.end day.marked };
}

impl<A: Allocator + Copy> Day<A> {
    /// Reads a file to its end, of at most `limits.bytes` bytes, which are no more than 2^40. Its memory is that of
    /// `alloc`.
    ///
    /// No file is refused for its form. In the course of reading the first of these is returned: [`LoadFault::Read`]
    /// where the feed fails (at once, and with no memory, where it had failed before), [`LoadFault::Memory`] where
    /// memory is refused, [`LoadFault::TooManyBytes`] where the reader gave more than `limits.bytes` bytes.
    /// [`LoadFault::TooManyMessages`] is decided once the whole input was read, before any more memory is asked for
    /// ([`Day::from_bytes`]). Whatever the result, at most `limits.bytes + 1` bytes are taken from the reader; there is
    /// no day after a fault.
    ///
    /// ```rust
    /// let limits = Limits { bytes: 1 << 40, messages: u32::MAX };
    /// let file = fs::open(rt, "examples/two-stocks.itch")?;
    /// let day = Day::load(rt.alloc(), &mut Feed::new(file), limits)?;
    /// for payload in day.payloads() {
    ///     println!(rt; "{} bytes", payload.len())?;
    /// }
    /// ```
    pub fn load<R: Read>(alloc: A, feed: &mut Feed<R>, limits: Limits) -> Result<Day<A>, LoadFault>
        requires { limits.bytes ≤ 2 ^ 40 }
        // The day is the splitting of all that the feed gave to its end, within the limits.
        ensures loaded { IfOk result (
            Loads (R.remaining feed.old.device) (R.remaining feed.new.device) limits) }
        // The fault is Read exactly where the feed has failed at return.
        ensures failed { IsErrOf result LoadFault.Read ↔ HasFailed feed.new }
        ensures too_many_bytes { IsErrOf result LoadFault.TooManyBytes →
            GaveMore (R.remaining feed.old.device) (R.remaining feed.new.device) limits.bytes }
        ensures too_many_messages { IsErrOf result LoadFault.TooManyMessages →
            ExceedsMessages (R.remaining feed.old.device) (R.remaining feed.new.device) limits }
        // Whatever the result, no more is taken than the limit and one byte.
        ensures taken { GaveUpTo (R.remaining feed.old.device) (R.remaining feed.new.device)
            (limits.bytes + 1) }
        // A failed feed stays as it is, and its reader is not asked.
        ensures for_good { HasFailed feed.old → feed.new ≡ feed.old }
    {
        let bytes = read_to_end(alloc, feed, limits.bytes)?;
        Day::from_bytes(alloc, bytes, limits.messages)
    }

    /// The day of a file's bytes that are in memory already. The memory of its index is that of `alloc`.
    ///
    /// [`LoadFault::TooManyMessages`] where the bytes have more than `messages` payloads, which is decided before any
    /// memory is asked for; else [`LoadFault::Memory`] where memory is refused. There is no day after a fault.
    pub fn from_bytes(alloc: A, bytes: Vec<u8, A>, messages: u32) -> Result<Day<A>, LoadFault>
        ensures split { IfOk result (λ day. Splits bytes.items day) }
        ensures within { IfOk result (λ day. length day.payloads ≤ messages) }
        ensures too_many_messages { IsErrOf result LoadFault.TooManyMessages →
            HasMoreMessages bytes.items messages }
        ensures judged { HasMoreMessages bytes.items messages → result ≡ Err LoadFault.TooManyMessages }
        ensures not_read { result ≢ Err LoadFault.Read }
        ensures not_bytes { result ≢ Err LoadFault.TooManyBytes }
    {
        let whole = bytes.as_slice();
        let IndexedEntries { count, end, starts } = entries_within(alloc, whole, messages)?;
        let marked = begins_with_marker(&whole[end..]);
        Ok(Day {
            bytes,
            starts,
            count: count as u32,
            end,
            marked,
        })
    }
}

impl<A: Allocator> Day<A> {
    /// How many payloads there are.
    pub fn len(&self) -> u32
        ensures { result ≡ length self.now.payloads }
    {
        self.count
    }

    /// The payload of this number, counted from 1, borrowed and not copied.
    ///
    /// For all of them in order [`Day::payloads`] is faster.
    pub fn payload(&self, number: u32) -> &[u8]
        requires first { 1 ≤ number }
        requires last { number ≤ length self.now.payloads }
        ensures { result.now ≡ slice_index_or self.now.payloads (number - 1) result.now }
    {
        nth_payload(
            self.bytes.as_slice(),
            self.starts.as_slice(),
            number as usize - 1,
        )
    }

    /// All payloads in their order, borrowed and not copied.
    pub fn payloads(&self) -> Payloads<'_>
        ensures payloads { result ≡ self.now.payloads }
        // A count of them never wraps.
        ensures few { length self.now.payloads < 2 ^ 32 }
    {
        Payloads::new(self.bytes.as_slice())
    }

    /// Whether an end marker follows the payloads.
    pub fn marked(&self) -> bool
        ensures { result ≡ self.now.marked }
    {
        self.marked
    }

    /// The bytes after the marker, or where there is none those that are no whole entry.
    pub fn tail(&self) -> &[u8]
        ensures { result.now ≡ self.now.tail }
    {
        bytes_after(self.bytes.as_slice(), self.end, self.marked)
    }

    /// The bytes that were loaded.
    pub fn bytes(&self) -> &[u8]
        ensures bytes { result.now ≡ bytes_of self.now }
        ensures split { Splits result.now self.now }
        // Each is a byte, which the laws over byte strings ask for.
        ensures are { AreBytes result.now }
    {
        self.bytes.as_slice()
    }

    /// Sends the bytes that were loaded, or a prefix of them up to where the writer fails, as [`send`] does.
    pub fn write_to<W: Write>(&self, sink: &mut Sink<W>) -> Result<(), WriteFault>
        ensures sent { Sends (W.contents sink.old.device) (W.contents sink.new.device)
            (bytes_of self.now) result }
        // A fault comes only where the sink has failed, and Ok leaves it failed or working, as it was.
        ensures failed { IsErr result → HasFailed sink.new }
        ensures kept { IsOk result → sink.new.failed ≡ sink.old.failed }
        // A failed sink stays as it is: its writer is not asked, and takes nothing.
        ensures for_good { HasFailed sink.old → sink.new ≡ sink.old }
        ensures refused { HasFailed sink.old → 0 < length (bytes_of self.now) → IsErr result }
        ensures nothing { HasFailed sink.old → IfErr result (λ fault. fault.written ≡ 0) }
    {
        send(sink, self.bytes())
    }
}
