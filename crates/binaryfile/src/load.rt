//! Reading the whole of an input into memory.
ghost use Rattle.std.specs.Prelude.{◌≡◌, ◌≢◌, ◌+◌, ◌<◌, ◌≤◌, ◌^◌, ◌↔◌, length, vec_len, Ok, Err, IfOk, OnOk, IsErrOf, true, false};
ghost use Rattle.std.specs.Io.KnownBytes.{IsAtEnd};
ghost use Rattle.binaryfile.specs.FaultNumbers.{number_of};
ghost use Rattle.binaryfile.specs.Devices.{HasFailed, GaveAll, GaveMore, GaveUpTo};
ghost use Rattle.binaryfile.specs.Loading.{TookPiece};
ghost use Rattle.binaryfile.specs.declared.load.LoadFault.TheVariants.{Memory, Read as ReadFailed};

use crate::Feed;
use std::alloc::{AllocError, Allocator};
use std::io;
use std::io::Read;

/// A reader is asked for at most this number of bytes at once.
const PIECE: usize = 1 << 16;

/// Why a file was not loaded.
#[derive(Debug, Clone, Copy, PartialEq, Eq)]
pub enum LoadFault {
    /// Memory was refused.
    Memory,
    /// The feed has failed.
    Read,
    /// The reader gave more bytes than the limit.
    TooManyBytes,
    /// The bytes split into more payloads than the limit.
    TooManyMessages,
}

impl LoadFault {
    /// The fault's fixed number, from 1 to 4.
    pub fn number(self) -> u8
        ensures { result ≡ number_of self }
    {
        match self {
            LoadFault::Memory => 1,
            LoadFault::Read => 2,
            LoadFault::TooManyBytes => 3,
            LoadFault::TooManyMessages => 4,
        }
    }
}

impl From<AllocError> for LoadFault {
    ghost from_gives = { λ _ fault. fault ≡ Memory };

    fn from(_error: AllocError) -> LoadFault {
        LoadFault::Memory
    }
}

impl From<io::Error> for LoadFault {
    ghost from_gives = { λ _ fault. fault ≡ ReadFailed };

    fn from(_error: io::Error) -> LoadFault {
        LoadFault::Read
    }
}

// Room for the bytes of one read.
fn piece_room<A: Allocator>(alloc: A) -> Result<Vec<u8, A>, AllocError>
    ensures { IfOk result (λ piece. 0 < vec_len piece) }
{
    Vec::from_elem(alloc, 0, PIECE)
}

// Reads once, and adds what came to `bytes`. Returns false at the end of the input.
fn read_piece<R: Read, A: Allocator>(
    feed: &mut Feed<R>,
    piece: &mut [u8],
    bytes: &mut Vec<u8, A>,
    limit: u64,
) -> Result<bool, LoadFault>
    requires room { 0 < length piece.old }
    requires within { length bytes.old.items ≤ limit }
    requires limit { limit ≤ 2 ^ 40 }
    ensures took { TookPiece (R.remaining feed.old.device) (R.remaining feed.new.device)
        bytes.old.items bytes.new.items (limit + 1) result }
    ensures end { result ≡ Ok false → IsAtEnd (R.remaining feed.new.device) }
    ensures more { result ≡ Ok true → length bytes.old.items < length bytes.new.items }
    ensures same { result ≡ Ok false → bytes.new.items ≡ bytes.old.items }
    ensures failed { IsErrOf result LoadFault.Read ↔ HasFailed feed.new }
    ensures not_bytes { result ≢ Err LoadFault.TooManyBytes }
    ensures not_messages { result ≢ Err LoadFault.TooManyMessages }
{
    let room = (limit + 1 - bytes.len() as u64).min(piece.len() as u64) as usize;
    let count = feed.read(&mut piece[..room])?;
    bytes.extend_from_slice(&piece[..count])?;
    Ok(count > 0)
}

/// All that the feed gives to its end, where that is no more than `limit` bytes, which are no more than 2^40. Its
/// memory is that of `alloc`.
///
/// In the course of reading the first of these is returned: [`LoadFault::Read`] where the feed fails (at once where it
/// had failed before), [`LoadFault::Memory`] where memory is refused, [`LoadFault::TooManyBytes`] where the reader gave
/// more than `limit` bytes. At most `limit + 1` bytes are taken from the reader, whatever the result.
///
/// ```rust
/// let mut feed = Feed::new(rt.reader());
/// let bytes = read_to_end(rt.alloc(), &mut feed, 1 << 30)?;
/// ```
pub fn read_to_end<R: Read, A: Allocator + Copy>(
    alloc: A,
    feed: &mut Feed<R>,
    limit: u64,
) -> Result<Vec<u8, A>, LoadFault>
    requires { limit ≤ 2 ^ 40 }
    ensures all { IfOk result (λ bytes.
        GaveAll (R.remaining feed.old.device) (R.remaining feed.new.device) bytes.items) }
    ensures within { IfOk result (λ bytes. length bytes.items ≤ limit) }
    // The fault is Read exactly where the feed has failed at return.
    ensures failed { IsErrOf result LoadFault.Read ↔ HasFailed feed.new }
    // A failed feed stays as it is, and its reader is not asked.
    ensures for_good { HasFailed feed.old → feed.new ≡ feed.old }
    ensures too_many_bytes { IsErrOf result LoadFault.TooManyBytes →
        GaveMore (R.remaining feed.old.device) (R.remaining feed.new.device) limit }
    ensures not_messages { result ≢ Err LoadFault.TooManyMessages }
    // Whatever the result, no more is taken than the limit and one byte.
    ensures taken { GaveUpTo (R.remaining feed.old.device) (R.remaining feed.new.device) (limit + 1) }
{
    if feed.failed() {
        return Err(LoadFault::Read);
    }
    let mut piece = piece_room(alloc)?;
    let mut bytes = Vec::new(alloc);
    while (bytes.len() as u64) <= limit {
        if !read_piece(feed, &mut piece, &mut bytes, limit)? {
            return Ok(bytes);
        }
    }
    Err(LoadFault::TooManyBytes)
}
