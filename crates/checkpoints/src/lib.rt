//! A stock's machine after any number of messages of a day, by copies that are kept along the day.
//!
//! [`Track::make`] goes through the day once and keeps a copy of the machine each time that the stock has had `every`
//! more messages; [`Track::at`] is the machine after the first `n` messages of the day.
//!
//! ```rust
//! let track = Track::make(alloc, &day, locate, 1_000)?;
//! let stock = track.at(alloc, n)?;
//! ```
//!
//! A [`StockIndex`] has the numbers of every stock's messages, and [`Track::from_index`] makes a track by it without
//! another pass over the day. [`numbers_where`] has the numbers of a day's messages whose payloads a predicate keeps.
//!
//! All is of this project. An `AllocError` says that memory was refused.
#![tactic(auto)]

mod filtering;
mod index;
mod own;
mod track;

pub use filtering::numbers_where;
pub use index::StockIndex;
pub use track::Track;
