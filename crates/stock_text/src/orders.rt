//! The line of an order, and what became of a message.
ghost use Rattle.std.specs.Prelude.{◌≡◌, ◌++◌};
ghost use Rattle.byte_strings.specs.Extending.{Extends};
ghost use Rattle.stock_text.specs.Orders.{attribution_text, order_line, outcome_words, side_text};

use itch_table::{Order, Outcome, Side};
use std::alloc::{AllocError, Allocator};
use text_fields::{put_count, put_quoted};

/// Adds what became of a message, in the words of sessions.
pub fn put_outcome<A: Allocator>(text: &mut Vec<u8, A>, outcome: Outcome) -> Result<(), AllocError>
    ensures { Extends text.old text.new (outcome_words outcome) result }
{
    match outcome {
        Outcome::Applied => text.extend_from_slice(b"applied"),
        Outcome::Passed => text.extend_from_slice(b"passed"),
        Outcome::Refused(fault) => put_count(text, b"refused F", fault.number()),
    }
}

/// Adds the letter of a side.
pub fn put_side<A: Allocator>(text: &mut Vec<u8, A>, side: Side) -> Result<(), AllocError>
    ensures { Extends text.old text.new (side_text side) result }
{
    match side {
        Side::Buy => text.extend_from_slice(b"B"),
        Side::Sell => text.extend_from_slice(b"S"),
    }
}

// Adds the market participant of an order, or `none`.
fn put_attribution<A: Allocator>(
    text: &mut Vec<u8, A>,
    attribution: Option<[u8; 4]>,
) -> Result<(), AllocError>
    ensures { Extends text.old text.new (attribution_text attribution) result }
{
    match attribution {
        Some(mpid) => put_quoted(text, &mpid),
        None => text.extend_from_slice(b"none"),
    }
}

/// Adds the line of an order, as sessions have it.
pub fn put_order<A: Allocator>(text: &mut Vec<u8, A>, order: Order) -> Result<(), AllocError>
    ensures { Extends text.old text.new (order_line order) result }
{
    put_count(text, b"order ", order.reference)?;
    text.push(b' ')?;
    put_side(text, order.side)?;
    put_count(text, b" ", order.shares)?;
    put_count(text, b" ", order.price)?;
    text.push(b' ')?;
    put_attribution(text, order.attribution)?;
    text.push(b'\n')?;
    Ok(())
}
