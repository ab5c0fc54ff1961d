//! How many workers share a day.
//!
//! ```rust
//! let workers = WorkerCount::new(4).unwrap_or(WorkerCount::ONE);
//! ```
//!
//! It is of this project.
#![tactic(auto)]

ghost use Rattle.std.specs.Prelude.{◌≡◌, ◌<◌, ◌≤◌, ◌⊎◌, ◌↔◌, ℕ, IsNone, IfSome};

use std::marker::Model;

/// A number of workers that share a day, from 1 to 64.
#[derive(Debug, Clone, Copy, PartialEq, Eq)]
pub struct WorkerCount {
    count: u32,
}

impl Model for WorkerCount {
    ghost Value = { ℕ };

    ghost view = { λ w. w.count };

    ghost invariant = { λ w. (1 ≤ w.count) × (w.count ≤ 64) };

    ghost inverse = { λ n. record { count = n } };
}

impl WorkerCount {
    /// One worker, which does the whole day.
    pub const ONE: WorkerCount = WorkerCount { count: 1 };

    /// The most workers that share a day.
    pub const MOST: u32 = 64;

    /// This number of workers, or `None` where it isn't from 1 to [`WorkerCount::MOST`].
    pub fn new(count: u32) -> Option<WorkerCount>
        ensures none { IsNone result ↔ ((count ≡ 0) ⊎ (64 < count)) }
        ensures value { IfSome result (λ workers. workers ≡ count) }
    {
        if count == 0 || count > WorkerCount::MOST {
            return None;
        }
        Some(WorkerCount { count })
    }

    /// The number, from 1 to [`WorkerCount::MOST`].
    pub fn get(self) -> u32
        ensures value { result ≡ self }
        ensures some { 1 ≤ result }
        ensures most { result ≤ 64 }
    {
        self.count
    }
}
