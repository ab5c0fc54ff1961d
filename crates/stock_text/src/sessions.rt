//! A position of a day and a stock there, as sessions print them.
ghost use Rattle.std.specs.Prelude.{◌≡◌, ◌++◌, OnOk, codes, decimal};
ghost use Rattle.std.specs.List.{flat_map};
ghost use Rattle.byte_strings.specs.Extending.{Extends};
ghost use Rattle.itch_table.specs.Levels.{levels};
ghost use Rattle.itch_table.specs.World.{orders_of};
ghost use Rattle.stock_text.specs.Orders.{order_line};
ghost use Rattle.stock_text.specs.Sessions.{book_of, outcome_text, position_words, sides_of, stock_text};
ghost use Rattle.stock_text.specs.Stocks.{level_line};

use crate::orders::{put_order, put_outcome};
use crate::stock::{put_levels, put_stock_line, put_trades};
use itch_table::{Order, Outcome, Side};
use std::alloc::{AllocError, Allocator};
use stock_machine::Stock;
use text_fields::put_count;

// Adds what became of the message at a position, or `start` at 0.
fn put_outcome_at<A: Allocator>(
    text: &mut Vec<u8, A>,
    outcome: Option<Outcome>,
) -> Result<(), AllocError>
    ensures { Extends text.old text.new (outcome_text outcome) result }
{
    match outcome {
        None => text.extend_from_slice(b"start"),
        Some(outcome) => put_outcome(text, outcome),
    }
}

/// Adds a position of a day, which is a number of messages, and what became of its message: none at 0.
pub fn put_position<A: Allocator>(
    text: &mut Vec<u8, A>,
    position: u32,
    outcome: Option<Outcome>,
) -> Result<(), AllocError>
    ensures { Extends text.old text.new (position_words position outcome) result }
{
    put_count(text, b"at ", position)?;
    text.push(b' ')?;
    put_outcome_at(text, outcome)
}

/// Adds the line of a position.
pub fn put_position_line<A: Allocator>(
    text: &mut Vec<u8, A>,
    position: u32,
    outcome: Option<Outcome>,
) -> Result<(), AllocError>
    ensures { Extends text.old text.new (position_words position outcome ++ codes "\n") result }
{
    put_position(text, position, outcome)?;
    text.push(b'\n')?;
    Ok(())
}

// Adds the lines of these orders.
fn put_orders<A: Allocator>(text: &mut Vec<u8, A>, orders: &[Order]) -> Result<(), AllocError>
    ensures { Extends text.old text.new (flat_map order_line orders.now) result }
{
    for order in orders {
        put_order(text, *order)?;
    }
    Ok(())
}

// Adds the lines of one side of a stock's levels, which begin with this word.
fn put_side_levels<A: Allocator + Copy>(
    alloc: A,
    text: &mut Vec<u8, A>,
    stock: &Stock<A>,
    side: Side,
    word: &[u8],
) -> Result<(), AllocError>
    ensures { Extends text.old text.new
        (flat_map (level_line word.now) (levels (orders_of stock.now.world stock.now.locate) side)) result }
{
    let levels = stock.levels(alloc, side)?;
    put_levels(text, word, &levels)
}

// Adds the lines of a stock's bids and of its asks.
fn put_sides<A: Allocator + Copy>(
    alloc: A,
    text: &mut Vec<u8, A>,
    stock: &Stock<A>,
) -> Result<(), AllocError>
    ensures { Extends text.old text.new (sides_of stock.now.world stock.now.locate) result }
{
    put_side_levels(alloc, text, stock, Side::Buy, b"bid ")?;
    put_side_levels(alloc, text, stock, Side::Sell, b"ask ")
}

// Adds the lines of a stock's levels, of its orders and of its totals.
fn put_orders_and_levels<A: Allocator + Copy>(
    alloc: A,
    text: &mut Vec<u8, A>,
    stock: &Stock<A>,
) -> Result<(), AllocError>
    ensures { Extends text.old text.new (book_of stock.now.world stock.now.locate) result }
{
    let orders = stock.orders(alloc)?;
    put_sides(alloc, text, stock)?;
    put_orders(text, &orders)?;
    put_trades(text, stock.totals())
}

/// Adds that a locate code has no directory row.
pub fn put_no_stock<A: Allocator>(text: &mut Vec<u8, A>, locate: u16) -> Result<(), AllocError>
    ensures { Extends text.old text.new (codes "no stock " ++ decimal locate ++ codes "\n") result }
{
    put_count(text, b"no stock ", locate)?;
    text.push(b'\n')?;
    Ok(())
}

/// Adds the lines of a stock with its orders, or that it has no directory row.
pub fn put_shown_stock<A: Allocator + Copy>(
    alloc: A,
    text: &mut Vec<u8, A>,
    stock: &Stock<A>,
) -> Result<(), AllocError>
    ensures { Extends text.old text.new (stock_text stock.now.world stock.now.locate) result }
{
    let status = stock.status();
    let locate = stock.locate();
    let Some(directory) = status.directory else {
        return put_no_stock(text, locate);
    };
    put_stock_line(text, locate, directory.stock, status.trading, status.regsho)?;
    put_orders_and_levels(alloc, text, stock)
}
