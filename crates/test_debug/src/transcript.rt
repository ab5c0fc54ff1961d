//! A session whose reader and writer note their calls in one transcript.
use crate::worked::{TRADED, day_in};
use binaryfile::{Feed, Sink};
use itch_debug::debug_run;
use std::alloc::Allocator;
use std::cell::RefCell;
use std::io::{self, ErrorKind, Read, Write};
use std::test::Fail;
use test_support::same_bytes;

// What was read, after the mark of a read, and what was written, in the order of the calls.
#[derive(Drop)]
struct Transcript<A: Allocator> {
    bytes: RefCell<Vec<u8, A>>,
}

impl<A: Allocator> Transcript<A> {
    // Notes bytes.
    fn note(&self, bytes: &[u8]) -> io::Result<()> {
        match self.bytes.try_borrow_mut() {
            Ok(mut noted) => Ok(noted.extend_from_slice(bytes)?),
            Err(_) => Err(io::Error::from(ErrorKind::Other)),
        }
    }
}

// A reader that gives one line a call.
#[derive(Drop)]
struct Lines<'a, A: Allocator> {
    left: &'a [u8],
    transcript: &'a Transcript<A>,
}

impl<A: Allocator> Read for Lines<'_, A> {
    fn read(&mut self, buffer: &mut [u8]) -> io::Result<usize> {
        let line = match self.left.iter().position(|byte| *byte == b'\n') {
            Some(index) => index + 1,
            None => self.left.len(),
        };
        let count = line.min(buffer.len());
        let (given, left) = self.left.split_at(count);
        buffer[..count].copy_from_slice(given);
        self.left = left;
        self.transcript.note(b"> ")?;
        self.transcript.note(given)?;
        Ok(count)
    }
}

// A writer that takes all bytes.
#[derive(Drop)]
struct Answers<'a, A: Allocator> {
    transcript: &'a Transcript<A>,
}

impl<A: Allocator> Write for Answers<'_, A> {
    fn write(&mut self, bytes: &[u8]) -> io::Result<usize> {
        self.transcript.note(bytes)?;
        Ok(bytes.len())
    }

    fn flush(&mut self) -> io::Result<()> {
        Ok(())
    }
}

// Lines, the last of which no line feed ends.
const LINES: &str = "goto 5\n\nevent\nback\nfoo\nonward";

// Each is answered before the next is read, and the last one once there is nothing more to read.
const TRANSCRIPT: &str = "> goto 5\n\
     at 5 applied\n\
     > \n\
     > event\n\
     event none\n\
     > back\n\
     at 4 applied\n\
     > foo\n\
     ? command\n\
     > onward> at 7 applied no break\n";

#[test]
fn each_line_is_answered_before_the_next_is_read(rt: HostRuntime) -> Result<(), Fail> {
    let alloc = rt.alloc();
    let day = day_in(alloc, TRADED)?;
    let transcript = Transcript {
        bytes: RefCell::new(Vec::new(alloc)),
    };
    let mut reader = Lines {
        left: LINES.as_bytes(),
        transcript: &transcript,
    };
    let mut writer = Answers {
        transcript: &transcript,
    };
    let mut feed = Feed::new(&mut reader);
    let mut sink = Sink::new(&mut writer);
    let Ok(()) = debug_run(alloc, &day, &mut feed, &mut sink) else {
        return Err(Fail::new("the session ended with an error"));
    };
    match transcript.bytes.try_borrow() {
        Ok(noted) => same_bytes("the transcript", &noted, TRANSCRIPT.as_bytes()),
        Err(_) => Err(Fail::new("the transcript is in use")),
    }
}
