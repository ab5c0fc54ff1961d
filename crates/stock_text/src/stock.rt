//! The lines of one stock.
ghost use Rattle.std.specs.Prelude.{◌≡◌, ◌++◌, OnOk};
ghost use Rattle.std.specs.List.{flat_map};
ghost use Rattle.byte_strings.specs.Extending.{Extends};
ghost use Rattle.stock_text.specs.Stocks.{trading_words, stock_line, level_line, bid_line, ask_line, trades_line, book_lines, lines_of_stock};

use itch_table::{Level, Status, Totals, Trading};
use std::alloc::{AllocError, Allocator};
use text_fields::{put_count, put_quoted, put_quoted_byte};

// Adds a stock's trading state and the reason of it.
fn put_trading<A: Allocator>(
    text: &mut Vec<u8, A>,
    trading: Option<Trading>,
) -> Result<(), AllocError>
    ensures { Extends text.old text.new (trading_words trading) result }
{
    let Some(trading) = trading else {
        return text.extend_from_slice(b" state none reason none");
    };
    text.extend_from_slice(b" state ")?;
    put_quoted(text, &[trading.state])?;
    text.extend_from_slice(b" reason ")?;
    put_quoted(text, &trading.reason)
}

/// Adds the first line of a stock: its locate code, its symbol, its trading state and its short sale action, as reports
/// have it.
pub fn put_stock_line<A: Allocator>(
    text: &mut Vec<u8, A>,
    locate: u16,
    stock: [u8; 8],
    trading: Option<Trading>,
    regsho: Option<u8>,
) -> Result<(), AllocError>
    ensures { Extends text.old text.new (stock_line locate stock trading regsho) result }
{
    put_count(text, b"stock ", locate)?;
    text.push(b' ')?;
    put_quoted(text, &stock)?;
    put_trading(text, trading)?;
    text.extend_from_slice(b" regsho ")?;
    put_quoted_byte(text, regsho)?;
    text.push(b'\n')?;
    Ok(())
}

// Adds the line of a level, which begins with the word for its side.
fn put_level<A: Allocator>(
    text: &mut Vec<u8, A>,
    side: &[u8],
    level: Level,
) -> Result<(), AllocError>
    ensures { Extends text.old text.new (level_line side.now level) result }
{
    put_count(text, side, level.price)?;
    put_count(text, b" ", level.shares)?;
    text.push(b'\n')?;
    Ok(())
}

/// Adds the lines of one side's levels, each with the word for the side, as reports have them.
pub fn put_levels<A: Allocator>(
    text: &mut Vec<u8, A>,
    side: &[u8],
    levels: &[Level],
) -> Result<(), AllocError>
    ensures { Extends text.old text.new (flat_map (level_line side.now) levels.now) result }
{
    for level in levels {
        put_level(text, side, *level)?;
    }
    Ok(())
}

/// Adds the line of the sums over a stock's trades, as reports have it.
pub fn put_trades<A: Allocator>(text: &mut Vec<u8, A>, totals: Totals) -> Result<(), AllocError>
    ensures { Extends text.old text.new (trades_line totals) result }
{
    put_count(text, b"trades ", totals.trades)?;
    put_count(text, b" shares ", totals.shares)?;
    put_count(text, b" notional ", totals.notional)?;
    put_count(text, b" unprinted ", totals.unprinted)?;
    text.push(b'\n')?;
    Ok(())
}

// Adds the lines of a stock's bids, of its asks and of the sums over its trades.
fn put_book<A: Allocator>(
    text: &mut Vec<u8, A>,
    bids: &[Level],
    asks: &[Level],
    totals: Totals,
) -> Result<(), AllocError>
    ensures { Extends text.old text.new (book_lines bids.now asks.now totals) result }
{
    put_levels(text, b"bid ", bids)?;
    put_levels(text, b"ask ", asks)?;
    put_trades(text, totals)
}

/// Adds the lines of a stock. One whose locate code has no directory row has none.
pub fn put_stock<A: Allocator>(
    text: &mut Vec<u8, A>,
    locate: u16,
    status: &Status,
    bids: &[Level],
    asks: &[Level],
    totals: Totals,
) -> Result<(), AllocError>
    ensures { Extends text.old text.new (lines_of_stock locate status.now bids.now asks.now totals) result }
{
    let Some(directory) = status.directory else {
        return Ok(());
    };
    put_stock_line(text, locate, directory.stock, status.trading, status.regsho)?;
    put_book(text, bids, asks, totals)
}
