//! The messages of a day that a predicate on their payloads keeps.
ghost use Rattle.std.specs.Prelude.{◌≡◌, Bool, IfOk, List, ℕ};
ghost use Rattle.checkpoints.specs.Filtering.{Computes, numbers_where};

use binaryfile::Day;
use std::alloc::{AllocError, Allocator};

/// The numbers, from 1, of a day's messages whose payloads a predicate keeps, rising.
pub fn numbers_where<A: Allocator + Copy, F: Fn(&[u8]) -> bool>(
    alloc: A,
    day: &Day<A>,
    keeps: F,
) -> Result<Vec<u32, A>, AllocError>
    requires { F.IsAlwaysCallable keeps }
    ensures { (kept : List ℕ → Bool) → Computes (F.post keeps) kept
        → IfOk result (λ numbers. numbers.items ≡ numbers_where day.now.payloads kept) }
{
    let mut numbers = Vec::new(alloc);
    let mut number = 0;
    for payload in day.payloads() {
        number += 1;
        if keeps(payload) {
            numbers.push(number)?;
        }
    }
    Ok(numbers)
}
