//! What all engines of the program keep to: what a run reads, writes and returns, the faults that end it, and the greatest
//! inputs.
//!
//! An engine reads a [`Feed`](binaryfile::Feed), writes a [`Sink`](binaryfile::Sink) and meets the contract `Runs`. Engines
//! differ in what they make of an input. [`ProgFault`] says why one stopped, [`limits`] has the greatest inputs, and
//! [`status`] is the exit status for what an engine returned.
//!
//! Limits and exit statuses are of this project. `ProgFault::Memory` says that memory was refused.
#![tactic(auto)]

mod exit_status;
mod fault;
pub mod limits;

pub use exit_status::status;
pub use fault::ProgFault;
