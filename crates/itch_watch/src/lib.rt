//! A screen of one stock, which looks at its best bid and ask while workers replay the day.
//!
//! [`watch_stock`] gives what the screen has seen, and [`watch_run`] writes it: the engine reads a day file, and meets
//! the contract of engines of one stock of `itch_readings`. What a screen sees depends on how the threads run. That each
//! reading is the stock's best bid and ask after its message, that their numbers rise and that the last is the stock's
//! last doesn't.
//!
//! ```rust
//! let stock = StockName::Locate(1);
//! watch_run(rt, rt.alloc(), &mut feed, &mut sink, stock, workers)?;
//! ```
//!
//! Both take `rt`, in whose threads the workers replay and the screen looks; `workers` is a `WorkerCount` of
//! `worker_count`. [`watch_stock`] is a caller to copy from: it calls `run` of `stock_workers`, and its screen reads the board
//! meanwhile. [`look`] is for a display that looks at moments of its own.
//!
//! All is of this project. An `AllocError` and `StockFault::Engine(ProgFault::Memory)` say that memory was refused.
#![tactic(auto)]

mod engine;
mod lines;
mod watching;

pub use engine::watch_run;
pub use watching::{look, watch_stock};
