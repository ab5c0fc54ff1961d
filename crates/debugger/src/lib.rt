//! A debugger of a day: positions in it, both ways, and breakpoints.
//!
//! [`Debugger::new`] is at position 0, before the first message. `goto`, `step` and `back`, and with `add_break` also
//! `onward` and `rearward`, move it; `outcome`, `event` and `stock` show what is at its position.
//!
//! ```rust
//! let mut debugger = Debugger::new(alloc, &day, 1_000)?;
//! debugger.add_break(alloc, Break::Time { time })?;
//! let stop = debugger.onward(alloc)?;
//! let stock = debugger.stock(alloc, locate)?;
//! ```
//!
//! Of a stock that is asked for, copies of its machine are kept, here 1,000 of its messages apart, or further apart
//! where that would make more than 48: with fewer messages between two copies moves are faster, and more memory is
//! used.
//!
//! All is of this project. An `AllocError` says that memory was refused.
#![tactic(auto)]

mod breakpoint;
mod breakpoints;
mod debugging;
mod events;
mod finding;
mod outcomes;
mod scanning;
mod tracks;

pub use breakpoint::Break;
pub use debugging::{DebugFault, Debugger, Stop};
