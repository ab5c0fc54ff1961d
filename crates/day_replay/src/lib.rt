//! A day that is replayed segment by segment, by batches of its stocks, so that no more of it is in memory than the
//! segments at hand and what its stocks are.
//!
//! [`DealtMessages::deal`] copies the messages of a segment to the batches of their stocks, and [`Replay::go_on`] replays
//! what was dealt, of one segment or several: each batch does its messages in their order, by itself, and threads share the
//! batches.
//! [`Replay::end`] says what all segments together make ([`Summary`]), wherever the day was cut.
//!
//! ```rust
//! let mut replay = Replay::new(alloc)?;
//! let mut dealt = DealtMessages::new(alloc)?;
//! for segment in segments {
//!     dealt.clear();
//!     dealt.deal(replay.len(), segment)?;
//!     replay.go_on(rt, alloc, &dealt, threads)?;
//! }
//! let summary = replay.end(alloc)?;
//! ```
//!
//! Dealing is apart from replaying, so that a caller may deal the next segments into a second [`DealtMessages`] while those
//! before them are replayed, by `std::thread::join_mut`.
//!
//! The effects of messages are those of Nasdaq TotalView-ITCH 5.0; segments and batches are of this project. An
//! `AllocError` says that memory was refused.
#![tactic(auto)]

mod batch;
mod batch_messages;
mod dealt_messages;
mod ending;
mod laws;
mod no_stock;
mod refusals;
mod replay;

pub use dealt_messages::DealtMessages;
use itch_table::LOCATES;
pub use laws::{others_are_applied, refused_are_counted};
pub use refusals::RefusedMessage;
pub use replay::{Replay, Summary};

/// How many batches the stocks of a day are in: a stock belongs to the batch whose number is the remainder of its locate
/// code by this.
pub const BATCHES: usize = 128;

/// How many stocks a batch has at most.
pub(crate) const STOCKS: usize = LOCATES / BATCHES;
