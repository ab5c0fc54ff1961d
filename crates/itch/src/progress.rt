//! How far a replay is, in lines on standard error.
use file_replay::Progress;
use std::cell::Cell;
use std::fs;
use std::rt::Runtime;
use std::time::Instant;

/// Between two lines passes this time at least, in seconds.
const PAUSE: u64 = 1;

/// Says on standard error how far the replay of a file is: how many messages are done, and which share of the file's
/// bytes was read, where its length is known. A line that can't be printed is left out.
#[derive(Drop)]
pub struct ProgressLines<'a, R: Runtime> {
    rt: &'a R,
    // How many bytes the file has, where that is known.
    length: Option<u64>,
    // When the replay began, or the last line was said.
    last: Cell<Option<Instant>>,
    messages: Cell<u32>,
    bytes: Cell<u64>,
}

// How many bytes the file at a path has, where it is a regular one.
fn length_of<R: Runtime>(rt: &R, path: &str) -> Option<u64> {
    let metadata = fs::metadata(rt, path).ok()?;
    if metadata.is_file() {
        Some(metadata.len())
    } else {
        None
    }
}

impl<'a, R: Runtime> ProgressLines<'a, R> {
    /// Of a replay that begins now.
    pub fn new(rt: &'a R, path: &str) -> ProgressLines<'a, R> {
        ProgressLines {
            rt,
            length: length_of(rt, path),
            last: Cell::new(Instant::now(rt).ok()),
            messages: Cell::new(0),
            bytes: Cell::new(0),
        }
    }

    // Which share of the file was read, in hundredths.
    fn share(&self) -> Option<u64> {
        let share = self
            .bytes
            .get()
            .saturating_mul(100)
            .checked_div(self.length?)?;
        Some(share.min(100))
    }

    /// Says how far the replay is.
    pub fn say(&self) {
        let messages = self.messages.get();
        let _ = match self.share() {
            Some(share) => eprintln!(self.rt; "itch: {messages} messages, {share}%"),
            None => eprintln!(self.rt; "itch: {messages} messages"),
        };
    }

    // Whether it is time for another line.
    fn is_due(&self) -> bool {
        match self.last.get() {
            Some(last) => last
                .elapsed(self.rt)
                .is_ok_and(|passed| passed.as_secs() >= PAUSE),
            None => false,
        }
    }
}

impl<R: Runtime> Progress for ProgressLines<'_, R> {
    fn at(&self, messages: u32, bytes: u64) {
        self.messages.set(messages);
        self.bytes.set(bytes);
        if self.is_due() {
            self.say();
            self.last.set(Instant::now(self.rt).ok());
        }
    }
}
