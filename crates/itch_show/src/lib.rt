//! A stock at a place of a day: an engine over any reader and writer.
//!
//! | call | output |
//! |---|---|
//! | [`show_run`] | what a debugging session prints of a stock after some messages of a day file, or at a time |
//!
//! ```rust
//! if let Some(name) = StockName::of_word("AAPL")
//!     && let Some(time) = time_of_word(b"09:30:00")
//! {
//!     show_run(alloc, &mut feed, &mut again, &mut sink, name, Place::At(time))?;
//! }
//! ```
//!
//! [`show_of_file`] makes the text, within limits and by segments that a caller chooses. [`read_up_to`] reads a file up to a
//! [`Place`], for whoever takes its messages ([`TakesMessages`]).
//!
//! Places and lines are of this project. A `ProgFault::Memory`, `LoadFault::Memory` or `AllocError` says that memory was
//! refused.
#![tactic(auto)]

mod before;
mod engine;
mod last_outcome;
mod place;
mod reading;
mod sending;
mod stock_at_place;
mod taking;
mod time;

pub use before::stock_before;
pub use engine::{show_of_file, show_run};
pub use place::Place;
pub use reading::{LastMessage, TakesMessages, read_up_to};
pub use sending::send_made;
pub use time::time_of_word;
