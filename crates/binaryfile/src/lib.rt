//! The container of a day file, Nasdaq BinaryFILE, and the devices that it is read from and written to.
//!
//! A file is a sequence of entries: a length of two bytes, the high one first, and then a payload of that length. A
//! length of zero is the end marker. [`Day::load`] reads a whole file and refuses none for its form: one without a
//! marker, one that stops inside an entry and one with bytes after the marker are loaded too. What it reads from is a
//! [`Feed`], which wraps any reader and remembers that it failed; what [`send`] writes to is a [`Sink`], which does so
//! with any writer.
//!
//! `fs::open(rt, path)?` opens a file, and `rt.alloc()` is the usual allocator, where `rt` is what `main` is given:
//!
//! ```rust
//! let limits = Limits { bytes: 1 << 30, messages: 10_000_000 };
//! let day = Day::load(rt.alloc(), &mut Feed::new(fs::open(rt, path)?), limits)?;
//! for payload in day.payloads() {
//!     take(payload);
//! }
//! ```
//!
//! [`Day::payload`] lends the payload with a number, counted from 1; [`Day::marked`] and [`Day::tail`] say how the file
//! ended. [`Day::from_bytes`] is a day of bytes that are in memory already.
//!
//! Entries are those of Nasdaq BinaryFILE. Limits, the end marker, what stands after it or in the place of a whole
//! entry, and what a failed device does are of this project.
#![tactic(auto)]

ghost use Rattle.binaryfile.specs.Entries.{EachHasOneSplitting};

mod day;
mod feed;
mod load;
mod payloads;
mod scan;
mod sink;

pub use crate::day::{Day, Limits};
pub use crate::feed::Feed;
pub use crate::load::{LoadFault, read_to_end};
pub use crate::payloads::Payloads;
pub use crate::scan::split_first_payload;
pub use crate::sink::{Sink, WriteFault, send};

/// One entry in every 8 has its place in the index of a day, so the index has a byte a message.
const STRIDE: usize = 8;

/// The law on which the view of a [`Day`] rests: every string of bytes has exactly one splitting into payloads, a
/// marker or none, and a tail. Calling it does nothing.
pub fn has_one_splitting()
    ensures { EachHasOneSplitting }
{}
