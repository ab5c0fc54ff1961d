//! The commands of the program `itch` that one thread does, over the files that their arguments name, and what all commands
//! share: how a run ends, the files, and which streams are terminals.
//!
//! | call | output |
//! |---|---|
//! | [`read`] | what one pass over a file writes, a [`Reading`]: its text, its stocks, a stock's best bid and ask .. |
//! | [`show`] | a stock at a place of a file |
//! | [`why`] | what became of a message of a file, and why |
//!
//! Each writes on standard output, and returns how it [`Ended`]. The engines that they call say what is written, and why none
//! is. A compressed file is told at a terminal.
#![tactic(auto)]

mod files;
mod kept;
mod questions;
mod readings;
mod showing;
mod stop;
mod terminals;

pub use files::{Ended, ended, open, open_day, replayed, standard_output};
pub use itch_trace::Extent;
pub use questions::why;
pub use readings::{Reading, named_stock, read};
pub use showing::show;
pub use stop::Stop;
pub use terminals::Terminals;
