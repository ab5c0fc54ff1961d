//! A debugging session over a day: a line asks for something, and its answer is lines of text.
//!
//! [`answer_line`] does what one line such as `goto 5` or `show 1` asks for, and adds its answer to a text.
//! [`debug_run`] answers the lines that a reader gives, to its end or to `quit`. docs/FORMATS.md has all lines.
//!
//! ```rust
//! let mut debugger = Debugger::new(alloc, &day, 1_000)?;
//! let mut text = Vec::new(alloc);
//! answer_line(alloc, &mut text, &mut debugger, b"goto 5")?;
//!
//! debug_run(alloc, &day, &mut commands, &mut sink)?;
//! ```
//!
//! All is of this project. An `AllocError` and `ProgFault::Memory` say that memory was refused.
#![tactic(auto)]

mod answer;
mod command;
mod console;
mod laws;
mod lines;
mod run;
mod session;
mod stock;

pub use laws::{quotes_are_in_no_command, shown_is_answered};
pub use run::debug_run;
pub use session::{Next, answer_line};
