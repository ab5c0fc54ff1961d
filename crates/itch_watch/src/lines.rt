//! The lines of what a screen has seen.
ghost use Rattle.std.specs.Prelude.{◌≡◌, ◌++◌, OnOk};
ghost use Rattle.byte_strings.specs.Extending.{Extends};
ghost use Rattle.itch_watch.specs.Lines.{reading_line, reading_lines, side_words};

use std::alloc::{AllocError, Allocator};
use text_fields::put_count;
use top_cell::Reading;

// Adds the price and the shares of a side, or `none` where it is empty.
fn put_side<A: Allocator>(text: &mut Vec<u8, A>, price: u32, shares: u64) -> Result<(), AllocError>
    ensures { Extends text.old text.new (side_words price shares) result }
{
    if shares == 0 {
        return text.extend_from_slice(b"none");
    }
    put_count(text, b"", price)?;
    put_count(text, b" ", shares)
}

// Adds the line of a reading.
fn put_reading<A: Allocator>(text: &mut Vec<u8, A>, reading: &Reading) -> Result<(), AllocError>
    ensures { Extends text.old text.new (reading_line reading.now) result }
{
    put_count(text, b"at ", reading.message)?;
    text.extend_from_slice(b" bid ")?;
    put_side(text, reading.bid_price, reading.bid_shares)?;
    text.extend_from_slice(b" ask ")?;
    put_side(text, reading.ask_price, reading.ask_shares)?;
    text.push(b'\n')?;
    Ok(())
}

/// Adds the lines of readings.
pub(crate) fn put_readings<A: Allocator>(
    text: &mut Vec<u8, A>,
    readings: &[Reading],
) -> Result<(), AllocError>
    ensures { Extends text.old text.new (reading_lines readings.now) result }
{
    for reading in readings {
        put_reading(text, reading)?;
    }
    Ok(())
}
