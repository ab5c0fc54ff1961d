//! The summary of a day: its report as a table, with a line of comma-separated fields for each stock that has messages.
//!
//! [`summary_run`] reads a day file and writes its summary. [`summary_of_file`] makes the text alone, within limits and in
//! segments of any size.
//!
//! ```rust
//! let mut feed = Feed::new(file);
//! let mut sink = Sink::new(output);
//! summary_run(rt, rt.alloc(), &mut feed, &mut sink, WorkerCount::ONE)?;
//! ```
//!
//! The file is replayed while it is read (`file_replay`), so a summary takes as long as a report, and as much memory.
//! `limits` of `engine_rules` has the greatest inputs.
//!
//! The lines are of this project. `ProgFault::Memory` says that memory was refused.
#![tactic(auto)]

mod engine;
mod lines;
mod refusals;
mod summary;

pub use engine::{summary_of_file, summary_run};
