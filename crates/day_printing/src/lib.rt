//! Texts of a day file that are written while the file is read, so that no more of it is in memory than a segment, and no
//! more of its text than what is written of that segment.
//!
//! [`Printing`] is how a text is made, segment by segment, and [`print_day`] reads the file and writes the text. What was read,
//! written and returned is said by one contract, `Prints`.
//!
//! ```rust
//! let mut printing = DayText::new(Extent::Whole);
//! print_day(rt.alloc(), &mut feed, &mut sink, day_segments::SEGMENT_BYTES, &mut printing)?;
//! ```
//!
//! All is of this project.
#![tactic(auto)]

mod engine;
mod printing;

pub use engine::print_day;
pub use printing::Printing;
