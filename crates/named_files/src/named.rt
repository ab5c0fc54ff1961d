//! A reader or a writer that can say why it failed.
ghost use Rattle.std.specs.Prelude.{◌≡◌, ◌↔◌, None, IsSome};
ghost use Rattle.std.specs.Io.{ReadsAtMost, WritesAtMost};
ghost use Rattle.std.specs.Io.KnownBytes.{ReadConsumes, WriteAppends};
ghost use Rattle.named_files.specs.NamedDevices.{NotesError};

use std::fmt;
use std::io::{self, Read, Write};
use std::marker::Model;

/// A reader or a writer by the name that a user knows it by, and the last error that it returned.
///
/// It passes on what it is asked and what it returns.
#[derive(Drop)]
pub struct Named<'a, D> {
    name: &'a str,
    device: D,
    error: Option<io::Error>,
}

impl<'a, D> Model for Named<'a, D> {
    ghost use Rattle.named_files.specs.NamedDevices.{NamedDevice};

    ghost Value = { NamedDevice D };

    ghost view = { λ named. record { device = named.device; error = named.error } };
}

/// Why a reader or a writer failed: its name, and the system's reason.
#[derive(Clone, Copy)]
pub struct Failure<'a> {
    name: &'a str,
    error: io::Error,
}

impl<'a> Failure<'a> {
    /// A failure of what has this name.
    pub fn new(name: &'a str, error: io::Error) -> Failure<'a> {
        Failure { name, error }
    }
}

impl fmt::Display for Failure<'_> {
    fn fmt<W: fmt::Write>(&self, f: &mut fmt::Formatter<W>) -> fmt::Result {
        let name = self.name;
        let error = self.error;
        write!(f, "{name}: {error}")
    }
}

impl<'a, D> Named<'a, D> {
    /// A reader or a writer that has returned no error yet.
    pub fn new(name: &'a str, device: D) -> Named<'a, D>
        ensures { result ≡ record { device = device; error = None } }
    {
        Named {
            name,
            device,
            error: None,
        }
    }

    /// Why it failed last, where it has failed.
    pub fn failure(&self) -> Option<Failure<'a>>
        ensures { IsSome result ↔ IsSome self.now.error }
    {
        let error = self.error?;
        Some(Failure::new(self.name, error))
    }

    /// The reader or writer itself.
    pub fn into_inner(self) -> D
        ensures { result ≡ self.entry.device }
    {
        self.device
    }
}

impl<D: Read> Read for Named<'_, D> {
    ghost remaining = { λ named. D.remaining named.device };

    fn read(&mut self, buffer: &mut [u8]) -> io::Result<usize>
        ensures bound { ReadsAtMost result buffer.new }
        ensures bytes { ReadConsumes (D.remaining self.old.device) (D.remaining self.new.device)
            result buffer.new }
        ensures noted { NotesError self.old.error self.new.error result }
    {
        let result = self.device.read(buffer);
        if let Err(error) = &result {
            self.error = Some(*error);
        }
        result
    }
}

impl<D: Write> Write for Named<'_, D> {
    ghost contents = { λ named. D.contents named.device };

    fn write(&mut self, bytes: &[u8]) -> io::Result<usize>
        ensures bound { WritesAtMost result bytes.now }
        ensures bytes { WriteAppends (D.contents self.old.device) (D.contents self.new.device)
            result bytes.now }
        ensures noted { NotesError self.old.error self.new.error result }
    {
        let result = self.device.write(bytes);
        if let Err(error) = &result {
            self.error = Some(*error);
        }
        result
    }

    fn flush(&mut self) -> io::Result<()> {
        self.device.flush()
    }
}
