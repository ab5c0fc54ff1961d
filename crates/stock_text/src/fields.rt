//! Fields of tables.
ghost use Rattle.std.specs.Prelude.{◌≡◌, ◌++◌};
ghost use Rattle.byte_strings.specs.Extending.{Extends};
ghost use Rattle.stock_text.specs.Fields.{level_fields};

use std::alloc::{AllocError, Allocator};
use text_fields::put_count;

/// Adds the price and the shares of a side's best level, each after a comma; nothing after the commas where there are no
/// shares, so that the side is empty.
pub fn put_level_fields<A: Allocator>(
    text: &mut Vec<u8, A>,
    price: u32,
    shares: u64,
) -> Result<(), AllocError>
    ensures { Extends text.old text.new (level_fields price shares) result }
{
    if shares == 0 {
        return text.extend_from_slice(b",,");
    }
    put_count(text, b",", price)?;
    put_count(text, b",", shares)
}
