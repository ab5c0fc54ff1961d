//! A day file that is read segment by segment, so that no more of it is in memory than one segment.
//!
//! A segment is a [`Day`] of some of the file's entries, in their order. [`SegmentReader::next`] reads the next one. An
//! entry that is cut between two segments is in the second, and after an end marker there are no entries.
//!
//! ```rust
//! let mut reader = SegmentReader::new(alloc, SEGMENT_BYTES, MOST);
//! while let Some(segment) = reader.next(alloc, &mut feed)? {
//!     for payload in segment.payloads() {
//!         take(payload);
//!     }
//! }
//! ```
//!
//! Entries are those of Nasdaq BinaryFILE; segments are of this project.
//!
//! [`Day`]: binaryfile::Day
#![tactic(auto)]

mod reading;
mod segment_reader;

pub use segment_reader::{SEGMENT_BYTES, SegmentReader};
