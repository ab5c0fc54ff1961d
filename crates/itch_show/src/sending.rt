//! A text that was made of a day file, on its way out.
ghost use Rattle.std.specs.Prelude.{◌≡◌};
ghost use Rattle.binaryfile.specs.Devices.{HasFailed};
ghost use Rattle.itch_show.specs.Engine.{SendsMade};

use binaryfile::{Sink, send};
use itch_readings::StockFault;
use std::alloc::Allocator;
use std::io::Write;

/// Sends a text that was made; a fault by which none was made is returned. [`ProgFault::Write`] comes of the sending where the
/// sink fails, and then a prefix of the text was sent. A sink that had failed stays as it is.
///
/// [`ProgFault::Write`]: engine_rules::ProgFault::Write
pub fn send_made<A: Allocator, W: Write>(
    sink: &mut Sink<W>,
    made: Result<Vec<u8, A>, StockFault>,
) -> Result<(), StockFault>
    ensures sends { SendsMade W.contents sink.old sink.new made result }
    ensures for_good { HasFailed sink.old → sink.new ≡ sink.old }
{
    send(sink, &made?)?;
    Ok(())
}
