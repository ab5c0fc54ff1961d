//! What a machine knows, and one step of it.
use crate::comparing::same;
use itch_table::{Outcome, Plain, Status, Top, Totals};
use std::alloc::Allocator;
use std::test::Fail;

/// All that a machine knows of one stock beside its orders, and of the day.
#[derive(Debug, Clone, Copy, PartialEq)]
pub struct Known {
    /// The top of its book.
    pub top: Top,
    /// The totals of its trades.
    pub totals: Totals,
    /// What is known of it beside its book.
    pub status: Status,
    /// The last event of the day.
    pub event: Option<u8>,
    /// How many messages were taken.
    pub steps: u32,
}

/// All that a machine knows of the stock of a locate code beside its orders.
pub fn known_of<A: Allocator + Copy>(machine: &Plain<A>, locate: u16) -> Known {
    Known {
        top: machine.top(locate),
        totals: machine.totals(locate),
        status: machine.status(locate),
        event: machine.event(),
        steps: machine.steps(),
    }
}

/// Passes the next payload to a machine, and compares the outcome with `wanted`.
pub fn take<A: Allocator + Copy>(
    case: &str,
    machine: &mut Plain<A>,
    payload: &[u8],
    wanted: Outcome,
) -> Result<(), Fail> {
    if machine.steps() == u32::MAX {
        return Err(Fail::new("a machine takes no more messages"));
    }
    same(case, &machine.step(payload), &Ok(wanted))
}
