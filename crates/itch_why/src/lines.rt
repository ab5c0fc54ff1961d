//! The text that says what became of a message, and why.
ghost use Rattle.std.specs.Prelude.{◌≡◌, ◌<◌, ◌-◌, ◌^◌, ◌++◌, IfOk};
ghost use Rattle.byte_strings.specs.Extending.{Extends};
ghost use Rattle.itch_table.specs.Parts.{part};
ghost use Rattle.itch_table.specs.Table.{step};
ghost use Rattle.itch_table.specs.declared.outcome.Part.{Part};
ghost use Rattle.itch_why.specs.Why.{message_lines, nothing_before, own_lines};

use crate::before::{before_of, nothing_before, put_orders_before};
use itch_print::put_payload;
use itch_table::Outcome;
use refusal_text::{Before, put_refusal};
use std::alloc::{AllocError, Allocator};
use stock_machine::Stock;
use stock_text::put_position_line;

// Adds the position after a message, its line of the text, and why it was refused, where it was.
fn put_message_lines<A: Allocator>(
    text: &mut Vec<u8, A>,
    number: u32,
    outcome: Outcome,
    payload: &[u8],
    before: Before,
) -> Result<(), AllocError>
    ensures { Extends text.old text.new (message_lines number outcome payload.now before) result }
{
    put_position_line(text, number, Some(outcome))?;
    put_payload(text, payload)?;
    put_refusal(text, outcome, payload, before)
}

/// The text of a message of no stock.
pub(crate) fn message_text<A: Allocator>(
    alloc: A,
    number: u32,
    outcome: Outcome,
    payload: &[u8],
) -> Result<Vec<u8, A>, AllocError>
    ensures { IfOk result (λ text. text.items ≡ message_lines number outcome payload.now nothing_before) }
{
    let mut text = Vec::new(alloc);
    put_message_lines(&mut text, number, outcome, payload, nothing_before())?;
    Ok(text)
}

/// The text of a message of a stock, whose machine takes it, with the lines of the earlier messages.
pub(crate) fn own_text<A: Allocator + Copy>(
    alloc: A,
    stock: &mut Stock<A>,
    earlier: &[u8],
    number: u32,
    payload: &[u8],
) -> Result<Vec<u8, A>, AllocError>
    requires own { part payload.now ≡ Part.Locate stock.old.locate }
    requires few { stock.old.steps < 2 ^ 32 - 1 }
    ensures { IfOk result (λ text. text.items ≡ own_lines stock.old.world stock.old.locate earlier.now
        number (step stock.old.world payload.now).0 payload.now) }
{
    let before = before_of(stock, payload);
    let mut orders = Vec::new(alloc);
    put_orders_before(&mut orders, stock, payload)?;
    let outcome = stock.step(payload)?;
    let mut text = Vec::new(alloc);
    put_message_lines(&mut text, number, outcome, payload, before)?;
    text.extend_from_slice(&orders)?;
    text.extend_from_slice(earlier)?;
    Ok(text)
}
