//! The lines of a summary.
ghost use Rattle.std.specs.Prelude.{◌≡◌, ◌++◌};
ghost use Rattle.byte_strings.specs.Extending.{Extends};
ghost use Rattle.itch_summary.specs.Lines.{book_fields, field_names, message_fields, stock_fields, summary_line, symbol_field, top_fields, totals_fields};

use itch_layouts::Directory;
use itch_table::{Top, Totals};
use std::alloc::{AllocError, Allocator};
use stock_machine::Stock;
use stock_text::put_level_fields;
use text_fields::{put_count, put_number, put_quoted};

/// Adds the names of the fields.
pub(crate) fn put_field_names<A: Allocator>(text: &mut Vec<u8, A>) -> Result<(), AllocError>
    ensures { Extends text.old text.new field_names result }
{
    text.extend_from_slice(
        b"locate,symbol,messages,refused,bid_price,bid_shares,ask_price,ask_shares,",
    )?;
    text.extend_from_slice(b"orders,trades,shares,notional,unprinted\n")
}

// Adds a symbol between quotes; nothing where there is no directory row.
fn put_symbol<A: Allocator>(
    text: &mut Vec<u8, A>,
    directory: Option<Directory>,
) -> Result<(), AllocError>
    ensures { Extends text.old text.new (symbol_field directory) result }
{
    match directory {
        Some(row) => put_quoted(text, &row.stock),
        None => Ok(()),
    }
}

// Adds the locate code of a stock and its symbol.
fn put_stock_fields<A: Allocator + Copy>(
    text: &mut Vec<u8, A>,
    stock: &Stock<A>,
) -> Result<(), AllocError>
    ensures { Extends text.old text.new (stock_fields stock.now) result }
{
    put_number(text, stock.locate())?;
    text.push(b',')?;
    put_symbol(text, stock.status().directory)
}

// Adds how many messages a stock has, and how many of them were refused.
fn put_message_fields<A: Allocator>(
    text: &mut Vec<u8, A>,
    messages: u32,
    refused: usize,
) -> Result<(), AllocError>
    ensures { Extends text.old text.new (message_fields messages refused) result }
{
    put_count(text, b",", messages)?;
    put_count(text, b",", refused)
}

// Adds the best bid and the best ask.
fn put_top<A: Allocator>(text: &mut Vec<u8, A>, top: Top) -> Result<(), AllocError>
    ensures { Extends text.old text.new (top_fields top) result }
{
    put_level_fields(text, top.bid_price, top.bid_shares)?;
    put_level_fields(text, top.ask_price, top.ask_shares)
}

// Adds the best bid and ask of a stock, and how many of its orders live.
fn put_book<A: Allocator + Copy>(
    alloc: A,
    text: &mut Vec<u8, A>,
    stock: &Stock<A>,
) -> Result<(), AllocError>
    ensures { Extends text.old text.new (book_fields stock.now) result }
{
    put_top(text, stock.top())?;
    let orders = stock.orders(alloc)?;
    put_count(text, b",", orders.len())
}

// Adds the totals over a stock's trades.
fn put_totals<A: Allocator>(text: &mut Vec<u8, A>, totals: Totals) -> Result<(), AllocError>
    ensures { Extends text.old text.new (totals_fields totals) result }
{
    put_count(text, b",", totals.trades)?;
    put_count(text, b",", totals.shares)?;
    put_count(text, b",", totals.notional)?;
    put_count(text, b",", totals.unprinted)
}

/// Adds the line of a stock, of whose messages so many were refused.
pub(crate) fn put_line<A: Allocator + Copy>(
    alloc: A,
    text: &mut Vec<u8, A>,
    stock: &Stock<A>,
    refused: usize,
) -> Result<(), AllocError>
    ensures { Extends text.old text.new (summary_line stock.now refused) result }
{
    put_stock_fields(text, stock)?;
    put_message_fields(text, stock.steps(), refused)?;
    put_book(alloc, text, stock)?;
    put_totals(text, stock.totals())?;
    text.push(b'\n')?;
    Ok(())
}
