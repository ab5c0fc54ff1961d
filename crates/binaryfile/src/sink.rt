//! A writer that remembers its failure.
ghost use Rattle.std.specs.Prelude.{◌≡◌, ◌<◌, ◌↔◌, length, IsErr, IsOk, false, IfErr, IfOk};
ghost use Rattle.std.specs.Io.{WritesAtMost};
ghost use Rattle.std.specs.Io.KnownBytes.{WriteAppends};
ghost use Rattle.std.specs.IoError.{error_kind};
ghost use Rattle.binaryfile.specs.Devices.{HasFailed, Sends};

use std::io;
use std::io::{ErrorKind, Write};
use std::marker::Model;

/// A sink: a writer, and whether it has failed. It has failed from the writer's first error on, of whatever
/// kind, or from its first write of some bytes that takes none of them.
///
/// A failed sink stays as it is: its writer is not asked again. [`Sink::write`] writes to it once, and [`send`] until
/// all is taken.
#[derive(Drop)]
pub struct Sink<W> {
    writer: W,
    failed: bool,
}

/// The writer failed before it had taken all the bytes that were to be sent.
#[derive(Debug, Clone, Copy, PartialEq, Eq)]
pub struct WriteFault {
    /// How many bytes it had taken, which are the first of them.
    pub written: u64,
}

impl<W> Model for Sink<W> {
    ghost use Rattle.binaryfile.specs.Devices.{Device};

    ghost Value = { Device W };

    ghost view = { λ sink. record { device = sink.writer; failed = sink.failed } };
}

impl<W: Write> Sink<W> {
    /// A sink that has not failed.
    pub fn new(writer: W) -> Sink<W>
        ensures { result ≡ record { device = writer; failed = false } }
    {
        Sink {
            writer,
            failed: false,
        }
    }

    /// Whether the sink has failed.
    pub fn failed(&self) -> bool
        ensures { result ≡ self.now.failed }
    {
        self.failed
    }

    /// Writes a prefix of `bytes`, and returns how many were taken: at least one where there are some.
    ///
    /// An error is the writer's own, one of the kind [`ErrorKind::WriteZero`] where it took none of some bytes, or one of
    /// the kind [`ErrorKind::Other`] where the sink had failed; no byte was taken then. That a sink fails only where its
    /// writer did, also for no bytes, no clause can say: tests show it.
    pub fn write(&mut self, bytes: &[u8]) -> io::Result<usize>
        ensures within { WritesAtMost result bytes.now }
        ensures bytes { WriteAppends (W.contents self.old.device) (W.contents self.new.device)
            result bytes.now }
        ensures some { 0 < length bytes.now → IfOk result (λ count. 0 < count) }
        // The sink has failed exactly where this write returns an error.
        ensures failed { IsErr result ↔ HasFailed self.new }
        // A failed sink stays as it is, and its writer is not asked.
        ensures for_good { HasFailed self.old → self.new ≡ self.old }
        ensures other { HasFailed self.old → IfErr result (λ error. error_kind error ≡ ErrorKind.Other) }
    {
        if self.failed {
            return Err(io::Error::from(ErrorKind::Other));
        }
        let mut result = self.writer.write(bytes);
        if let Ok(0) = result
            && !bytes.is_empty()
        {
            result = Err(io::Error::from(ErrorKind::WriteZero));
        }
        self.failed = result.is_err();
        result
    }
}

/// Sends all the bytes, or a prefix of them up to where the writer fails.
///
/// The fault says exactly how many bytes were taken, and comes only where the sink has failed. To a sink that had
/// failed before, sending some bytes is a fault at once, and sending none is Ok. That a sink fails only where its
/// writer returned an error or took nothing, and that a write isn't tried again after an error, no clause can say:
/// tests show it, for fewer than 2^31 bytes.
///
/// ```rust
/// let mut taken = Vec::new(rt.alloc());
/// send(&mut Sink::new(&mut taken), b"some bytes")?;
/// ```
pub fn send<W: Write>(sink: &mut Sink<W>, bytes: &[u8]) -> Result<(), WriteFault>
    ensures sent { Sends (W.contents sink.old.device) (W.contents sink.new.device) bytes.now result }
    // A fault comes only where the sink has failed, and Ok leaves it failed or working, as it was.
    ensures failed { IsErr result → HasFailed sink.new }
    ensures kept { IsOk result → sink.new.failed ≡ sink.old.failed }
    // A failed sink stays as it is: its writer is not asked, and takes nothing.
    ensures for_good { HasFailed sink.old → sink.new ≡ sink.old }
    ensures refused { HasFailed sink.old → 0 < length bytes.now → IsErr result }
    ensures nothing { HasFailed sink.old → IfErr result (λ fault. fault.written ≡ 0) }
{
    let mut written = 0;
    while written < bytes.len() {
        match sink.write(&bytes[written..]) {
            Ok(count) => written += count,
            Err(_) => {
                return Err(WriteFault {
                    written: written as u64,
                });
            }
        }
    }
    Ok(())
}
