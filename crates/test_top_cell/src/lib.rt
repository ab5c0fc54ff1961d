//! Tests of the cells that screens read, and how a day is shown on them while it is replayed.
#![tactic(auto)]

mod showing;

pub use showing::{show_next, show_rest};

#[cfg(test)]
mod boards;
#[cfg(test)]
mod cells;
#[cfg(test)]
mod changes;
#[cfg(test)]
mod threads;
