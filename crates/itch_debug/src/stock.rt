//! The lines of a stock at the position of a session.
ghost use Rattle.std.specs.Prelude.{◌≡◌};
ghost use Rattle.byte_strings.specs.Extending.{Extends};
ghost use Rattle.itch_table.specs.After.{after};
ghost use Rattle.stock_text.specs.Sessions.{stock_text};

use debugger::Debugger;
use std::alloc::{AllocError, Allocator};
use stock_text::put_shown_stock;

/// Adds the lines of a stock at the position.
pub(crate) fn put_shown<A: Allocator + Copy>(
    alloc: A,
    text: &mut Vec<u8, A>,
    debugger: &mut Debugger<'_, A>,
    locate: u16,
) -> Result<(), AllocError>
    ensures text { Extends text.old text.new
        (stock_text (after debugger.old.day debugger.old.position) locate) result }
    ensures debugger { debugger.new ≡ debugger.old }
{
    let stock = debugger.stock(alloc, locate)?;
    put_shown_stock(alloc, text, &stock)
}
