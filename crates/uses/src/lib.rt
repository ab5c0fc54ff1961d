//! Callers of the libraries, each a page to copy from: the messages of one kind ([`messages_of_kind`]), a report to a
//! writer of one's own ([`report_lines`]), and a gate that counts ([`Counter`]) and a display ([`next_frame`]) for a
//! replay. docs/FEED_HANDLERS.md explains the last two.
//!
//! They stand on the libraries' public contracts alone. What each promises of its result is in its own contract, in the
//! libraries' words.
#![tactic(auto)]

mod kinds;
mod lines;
mod watching;

pub use kinds::messages_of_kind;
pub use lines::{LineCounter, report_lines};
pub use watching::{Counter, next_frame};
