//! The engines of the program, over any reader and writer.
//!
//! An engine reads its input to the end, makes its whole output in memory, and then writes it:
//!
//! | engine | input | output |
//! |---|---|---|
//! | [`report_run`] | a day file, which is replayed while it is read | its report |
//! | [`replay_run`] | a day file | its report |
//! | [`hex_run`] | a day file in hexadecimal digits | its report |
//! | [`dis_run`] | a day file | its text |
//! | [`asm_run`] | a text | the file that the text denotes |
//!
//! ```rust
//! let mut feed = Feed::new(reader);
//! let mut sink = Sink::new(writer);
//! let segment = day_segments::SEGMENT_BYTES;
//! let refused = report_run(rt, rt.alloc(), &mut feed, &mut sink, segment, threads, &Silent)?;
//! ```
//!
//! The program `itch` calls these but [`replay_run`], which is for callers with a gate of their own, and [`dis_run`], in
//! place of which it writes a text while it reads the file. Those that replay take `rt` as well, which makes their threads;
//! how many is a number from 1 to 64 of [`replay_run`], and a `WorkerCount` of `worker_count` of [`report_run`].
//!
//! All meet one contract, `Runs` of `engine_rules`, which says what was read, written and returned for each result. Its
//! `limits` are the greatest inputs that they take, and [`status`] is the exit status for what an engine returned.
//!
//! Reports, texts and their lines are of this project. `ProgFault::Memory` says that memory was refused.
#![tactic(auto)]

mod engines;
mod hex_input;
mod report;

pub use engine_rules::{ProgFault, status};
pub use engines::asm::asm_run;
pub use engines::digits::hex_run;
pub use engines::dis::dis_run;
pub use engines::replay::replay_run;
pub use engines::report::report_run;
