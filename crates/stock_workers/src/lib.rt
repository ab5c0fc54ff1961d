//! All workers of a day in threads of their own, whose stocks are shown on cells meanwhile.
//!
//! [`run`] replays a day by 1 to 64 workers, each in a thread of its own where one can be made, and publishes each
//! message on the day's board (`top_cell`) as it is done. It takes all writers of the board and gives them back.
//!
//! ```rust
//! let (board, writers) = Board::new(alloc, &day)?;
//! let replayed = run(rt, alloc, &day, &board, writers, workers, &FreeGate)?;
//! ```
//!
//! Each worker calls a [`Gate`] before each of its messages: with one of its own a program can hold a worker there, and
//! [`FreeGate`] lets all pass. [`Worker`] is one worker, whose turns the caller makes. `watch_stock` of `itch_watch` is a
//! caller of [`run`], whose screen reads meanwhile.
//!
//! The effects of messages are those of Nasdaq TotalView-ITCH 5.0; the rest is of this project. An `AllocError`
//! says that memory was refused.
#![tactic(auto)]

mod fork_join;
mod gate;
mod running;
mod worker;

pub use gate::{FreeGate, Gate};
pub use running::{Replayed, RunFault, run};
pub use worker::Worker;
