//! A day file that is replayed while it is read. Of the file one segment is in memory, and copies of the messages of the
//! segments that are dealt and of those that are replayed, 16 of each at most.
//!
//! [`replay_file`] reads the next segments and deals their messages to the batches of their stocks, while threads replay
//! those before. What it makes is a [`FileSummary`], the same for every number of threads and for segments of any size.
//!
//! ```rust
//! let limits = Limits { bytes: 1 << 40, messages: u32::MAX };
//! let segment = day_segments::SEGMENT_BYTES;
//! let made = replay_file(rt, alloc, &mut feed, limits, segment, threads, &Silent)?;
//! ```
//!
//! Entries are those of Nasdaq BinaryFILE, and the effects of messages those of Nasdaq TotalView-ITCH 5.0; segments and
//! batches are of this project.
#![tactic(auto)]

mod file_end;
mod file_reader;
mod progress;
mod replaying;

pub use progress::{Progress, Silent};
pub use replaying::{FileSummary, replay_file};
