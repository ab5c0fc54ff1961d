//! How a file ends.
ghost use Rattle.std.specs.Prelude.{◌≡◌, ◌+◌, ◌<◌, ◌^◌, length};
ghost use Rattle.file_replay.specs.FileEnds.{end_after, no_end};

use binaryfile::Day;
use std::alloc::Allocator;

/// How a file ends, as far as it was read: whether an end marker has come, and how many bytes come after that, or after
/// the last entry.
#[derive(Debug, Clone, Copy, PartialEq, Eq)]
pub(crate) struct FileEnd {
    pub marked: bool,
    pub tail: u64,
}

impl FileEnd {
    /// That of a file of which nothing was read.
    pub const fn new() -> FileEnd
        ensures { result ≡ no_end }
    {
        FileEnd {
            marked: false,
            tail: 0,
        }
    }

    /// That of the file with a segment more.
    pub fn after<A: Allocator>(self, segment: &Day<A>) -> FileEnd
        requires { self.tail + length segment.now.tail < 2 ^ 64 }
        ensures { result ≡ end_after self segment.now }
    {
        let tail = segment.tail().len() as u64;
        FileEnd {
            marked: segment.marked(),
            tail: if self.marked { self.tail + tail } else { tail },
        }
    }
}
