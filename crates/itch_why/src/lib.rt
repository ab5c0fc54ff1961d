//! What became of a message of a day, and why: an engine over any reader and writer.
//!
//! | call | output |
//! |---|---|
//! | [`why_run`] | a message's outcome, why it was refused, its orders before it, and the earlier messages about them |
//!
//! ```rust
//! why_run(alloc, &mut feed, &mut again, &mut sink, 4711)?;
//! ```
//!
//! [`why_of_file`] makes the text, within limits and by segments that a caller chooses.
//!
//! The lines are of this project. A `ProgFault::Memory`, `LoadFault::Memory` or `AllocError` says that memory was refused.
#![tactic(auto)]

mod before;
mod earlier;
mod engine;
mod laws;
mod lines;

pub use engine::{why_of_file, why_run};
pub use laws::fault_is_the_outcomes;
