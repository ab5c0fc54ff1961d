//! The lines of a day's stocks.
ghost use Rattle.std.specs.Prelude.{◌≡◌, ◌++◌, ◌≤◌, OnOk, length};
ghost use Rattle.byte_strings.specs.Extending.{Extends};
ghost use Rattle.itch_readings.specs.StockLines.{listed_line, listed_lines, symbol_words};

use crate::naming::Listed;
use std::alloc::{AllocError, Allocator};
use text_fields::{put_count, put_quoted};

// Adds a symbol between quotes, or `none` where there is none.
fn put_symbol<A: Allocator>(
    text: &mut Vec<u8, A>,
    symbol: Option<[u8; 8]>,
) -> Result<(), AllocError>
    ensures { Extends text.old text.new (symbol_words symbol) result }
{
    match symbol {
        Some(symbol) => put_quoted(text, &symbol),
        None => text.extend_from_slice(b"none"),
    }
}

// Adds the line of a stock, where it has a message.
fn put_listed<A: Allocator>(
    text: &mut Vec<u8, A>,
    locate: u32,
    known: Listed,
) -> Result<(), AllocError>
    ensures { Extends text.old text.new (listed_line locate known) result }
{
    if known.messages > 0 {
        put_count(text, b"stock ", locate)?;
        text.push(b' ')?;
        put_symbol(text, known.symbol)?;
        put_count(text, b" messages ", known.messages)?;
        text.push(b'\n')?;
    }
    Ok(())
}

/// Adds the lines of the stocks that have messages, by what a day says of each.
pub(crate) fn put_stocks<A: Allocator>(
    text: &mut Vec<u8, A>,
    listed: &[Listed],
) -> Result<(), AllocError>
    requires { length listed.now ≤ 0x1_0000 }
    ensures { Extends text.old text.new (listed_lines 0 listed.now) result }
{
    let mut locate = 0u32;
    for known in listed {
        put_listed(text, locate, *known)?;
        locate += 1;
    }
    Ok(())
}
