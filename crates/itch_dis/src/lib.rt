//! The disassembler over a file that is read segment by segment, so that no more of it is in memory than a segment and
//! the text of that segment.
//!
//! | call | output |
//! |---|---|
//! | [`dis_stream_run`] | the whole text of a day file |
//! | [`dis_part_run`] | the lines of some of its messages, after the last of which it stops reading |
//!
//! ```rust
//! let mut feed = Feed::new(reader);
//! let mut sink = Sink::new(writer);
//! dis_stream_run(rt.alloc(), &mut feed, &mut sink, day_segments::SEGMENT_BYTES)?;
//! ```
//!
//! The text is that of `dis_run` of `itch_engine`, which makes all of it before it sends any. Here the lines of a segment
//! are sent before the next one is read: so after a fault the beginning of a text may have been sent. Both calls meet the
//! contract `Prints` of `day_printing`, which says what was read, written and returned for each result.
//!
//! The text form, segments and limits are of this project.
#![tactic(auto)]

mod day_text;
mod engines;
mod extent;
mod text_end;

pub use engines::{dis_part_run, dis_stream_run};
