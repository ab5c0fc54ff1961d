//! Readers and writers that give and take little at a time, and fail in mid-stream.
use std::alloc::Allocator;
use std::io::{self, ErrorKind, Read, Write};

/// A reader that gives at most a number of bytes a call, and fails at one call.
#[derive(Drop)]
pub struct Pieces<'a> {
    bytes: &'a [u8],
    most: usize,
    failing: u64,
    kind: ErrorKind,
    calls: u64,
}

impl<'a> Pieces<'a> {
    /// A reader of these bytes, at most `most` a call, that never fails.
    pub fn new(bytes: &'a [u8], most: usize) -> Pieces<'a> {
        Pieces::failing(bytes, most, 0, ErrorKind::Other)
    }

    /// A reader that fails at the call with the number `failing`, counted from 1, and would go on after it; never at 0.
    pub fn failing(bytes: &'a [u8], most: usize, failing: u64, kind: ErrorKind) -> Pieces<'a> {
        Pieces {
            bytes,
            most,
            failing,
            kind,
            calls: 0,
        }
    }

    /// How often it was asked.
    pub fn calls(&self) -> u64 {
        self.calls
    }
}

impl Read for Pieces<'_> {
    fn read(&mut self, buffer: &mut [u8]) -> io::Result<usize> {
        self.calls = self.calls.wrapping_add(1);
        if self.calls == self.failing {
            return Err(io::Error::from(self.kind));
        }
        let count = self.most.min(buffer.len()).min(self.bytes.len());
        let (given, left) = self.bytes.split_at(count);
        buffer[..count].copy_from_slice(given);
        self.bytes = left;
        Ok(count)
    }
}

/// How a writer fails.
#[derive(Debug, Clone, Copy, PartialEq)]
pub enum Failure {
    /// It returns an error of this kind.
    Error(ErrorKind),
    /// It takes no byte.
    TakesNone,
}

/// A writer that takes one byte a call, and fails at one call.
#[derive(Drop)]
pub struct Narrow<A: Allocator> {
    taken: Vec<u8, A>,
    failing: u64,
    failure: Failure,
    calls: u64,
}

impl<A: Allocator> Narrow<A> {
    /// A writer that fails at the call with the number `failing`, counted from 1, and would go on after it; never at 0.
    pub fn failing(alloc: A, failing: u64, failure: Failure) -> Narrow<A> {
        Narrow {
            taken: Vec::new(alloc),
            failing,
            failure,
            calls: 0,
        }
    }

    /// The bytes that it took.
    pub fn taken(&self) -> &[u8] {
        self.taken.as_slice()
    }

    /// How often it was asked.
    pub fn calls(&self) -> u64 {
        self.calls
    }
}

impl<A: Allocator> Write for Narrow<A> {
    fn write(&mut self, bytes: &[u8]) -> io::Result<usize> {
        self.calls = self.calls.wrapping_add(1);
        if self.calls == self.failing {
            return match self.failure {
                Failure::Error(kind) => Err(io::Error::from(kind)),
                Failure::TakesNone => Ok(0),
            };
        }
        match bytes.first() {
            Some(byte) => {
                self.taken.push(*byte)?;
                Ok(1)
            }
            None => Ok(0),
        }
    }

    fn flush(&mut self) -> io::Result<()> {
        Ok(())
    }
}
