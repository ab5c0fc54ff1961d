//! A day in parts, one for each of its workers, and what they make of it in any order.
//!
//! [`split`] says which messages each of 1 to 64 workers does: a stock belongs to one worker, and its messages change
//! nothing of another. [`Turns`] has all workers of a day without threads, whose turns the caller chooses; [`play`] runs
//! a whole schedule of turns and looks. `stock_workers` has them in threads.
//!
//! ```rust
//! let mut turns = Turns::new(rt, alloc, &day, workers)?;
//! while let Some(piece) = turns.turn(0)? {
//!     println!(rt; "{}", piece.message)?;
//! }
//! ```
//!
//! [`merge`] puts outcomes together that come in any order. [`new_stocks`] makes machines, and [`do_message`] does a
//! message on one. [`by_worker`] and [`in_order`] deal what there is for each stock to the workers, and put it together
//! again. [`event_after`] is the last event code after one more payload, and [`locates`] has the stocks of a day.
//!
//! The effects of messages are those of Nasdaq TotalView-ITCH 5.0; the rest is of this project. An `AllocError` says
//! that memory was refused.
#![tactic(auto)]

mod dealing;
mod laws;
mod machines;
mod merging;
mod ordering;
mod parts;
mod playing;
mod seeing;
mod splitting;
mod turns;

pub use dealing::event_after;
pub use laws::{days_come_to_their_end, looks_never_go_back, looks_show_their_stock};
pub use machines::{do_message, new_stocks};
pub use merging::{MergeFault, Piece, merge};
pub use ordering::{by_worker, in_order};
pub use parts::{Next, Parts};
pub use playing::{Event, Seen, play};
pub use seeing::locates;
pub use splitting::{SplitFault, split};
pub use turns::Turns;
