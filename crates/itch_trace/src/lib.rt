//! Traces of days: a line for each message, with what became of it and its stock's best levels after it.
//!
//! | engine | output |
//! |---|---|
//! | [`trace_run`] | a line for each message of a day file |
//! | [`stock_trace_run`] | a line for each message of one of its stocks |
//!
//! [`Extent`] says which lines, and how many levels each has.
//!
//! ```rust
//! let extent = Extent { depth: 10, first: 1, last: u32::MAX };
//! trace_run(rt.alloc(), &mut feed, &mut sink, day_segments::SEGMENT_BYTES, extent)?;
//! ```
//!
//! The forms of lines and of names are of this project. `ProgFault::Memory` says that memory was refused.
#![tactic(auto)]

mod day_trace;
mod engines;
mod extent;
mod fields;
mod made;
mod stock_trace;

pub use engines::{stock_trace_run, trace_run};
pub use extent::Extent;
