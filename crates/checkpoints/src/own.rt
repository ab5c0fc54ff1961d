//! A stock's own messages of a day, and its machine stepped over them.
ghost use Rattle.std.specs.Prelude.{◌≡◌, ◌≤◌, IfOk, OnOk, length};
ghost use Rattle.checkpoints.specs.Copies.{machine_after_own, numbers_of};

use crate::filtering::numbers_where;
use binaryfile::Day;
use itch_table::is_of_stock;
use std::alloc::{AllocError, Allocator};
use stock_machine::Stock;

/// The numbers of a stock's messages in a day, rising.
pub fn numbers_of<A: Allocator + Copy>(
    alloc: A,
    day: &Day<A>,
    locate: u16,
) -> Result<Vec<u32, A>, AllocError>
    ensures { IfOk result (λ numbers. numbers.items ≡ numbers_of day.now.payloads locate) }
{
    numbers_where(alloc, day, |payload| is_of_stock(payload, locate))
}

/// Steps a stock's machine, which has taken the first `from` of the stock's messages, over the next ones, so that it
/// has taken the first `to`. The caller passes the numbers of all of them.
pub fn advance<A: Allocator + Copy>(
    stock: &mut Stock<A>,
    day: &Day<A>,
    numbers: &[u32],
    from: usize,
    to: usize,
) -> Result<(), AllocError>
    requires numbers { numbers.now ≡ numbers_of day.now.payloads stock.old.locate }
    requires from { stock.old ≡ machine_after_own day.now.payloads stock.old.locate from }
    requires order { from ≤ to }
    requires to { to ≤ length numbers.now }
    ensures { OnOk result (stock.new ≡ machine_after_own day.now.payloads stock.old.locate to) }
{
    for number in &numbers[from..to] {
        stock.step(day.payload(*number))?;
    }
    Ok(())
}
