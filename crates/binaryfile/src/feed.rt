//! A reader that remembers its failure.
ghost use Rattle.std.specs.Prelude.{◌≡◌, ◌↔◌, IsErr, IfErr, false};
ghost use Rattle.std.specs.Io.{ReadsAtMost};
ghost use Rattle.std.specs.Io.KnownBytes.{ReadConsumes};
ghost use Rattle.std.specs.IoError.{error_kind};
ghost use Rattle.binaryfile.specs.Devices.{HasFailed};

use std::io;
use std::io::{ErrorKind, Read};
use std::marker::Model;

/// A feed: a reader, and whether it has failed. It has failed from the reader's first error on, of whatever
/// kind, [`ErrorKind::Interrupted`] too.
///
/// So what was read before a failure is never taken for a whole input. A failed feed stays as it is: each later read
/// returns an error without asking the reader.
///
/// ```rust
/// let mut feed = Feed::new(b"\x00\x01A".as_slice());
/// let mut buffer = [0; 2];
/// assert_eq!(rt; feed.read(&mut buffer)?, 2);
/// assert!(rt; !feed.failed());
/// ```
#[derive(Drop)]
pub struct Feed<R> {
    reader: R,
    failed: bool,
}

impl<R> Model for Feed<R> {
    ghost use Rattle.binaryfile.specs.Devices.{Device};

    ghost Value = { Device R };

    ghost view = { λ feed. record { device = feed.reader; failed = feed.failed } };
}

impl<R: Read> Feed<R> {
    /// A feed that has not failed.
    pub fn new(reader: R) -> Feed<R>
        ensures { result ≡ record { device = reader; failed = false } }
    {
        Feed {
            reader,
            failed: false,
        }
    }

    /// Whether the feed has failed.
    pub fn failed(&self) -> bool
        ensures { result ≡ self.now.failed }
    {
        self.failed
    }

    /// Reads into the beginning of `buffer`, and returns how many bytes came: none only at the end of the input or
    /// where `buffer` is empty.
    ///
    /// An error is the reader's own, or one of the kind [`ErrorKind::Other`] where the feed had failed; no byte was
    /// taken then. That a feed fails only where its reader returned an error, also for an empty buffer, and that it
    /// passes on that very error, no clause can say: tests show it.
    pub fn read(&mut self, buffer: &mut [u8]) -> io::Result<usize>
        ensures within { ReadsAtMost result buffer.new }
        ensures bytes { ReadConsumes (R.remaining self.old.device) (R.remaining self.new.device)
            result buffer.new }
        // The feed has failed exactly where this read returns an error.
        ensures failed { IsErr result ↔ HasFailed self.new }
        // A failed feed stays as it is, and its reader is not asked.
        ensures for_good { HasFailed self.old → self.new ≡ self.old }
        ensures other { HasFailed self.old → IfErr result (λ error. error_kind error ≡ ErrorKind.Other) }
    {
        if self.failed {
            return Err(io::Error::from(ErrorKind::Other));
        }
        let result = self.reader.read(buffer);
        self.failed = result.is_err();
        result
    }
}
