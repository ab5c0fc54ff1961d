//! A report to a writer of one's own.
ghost use Rattle.std.specs.Prelude.{◌≡◌, ◌↔◌, IsErrOf};
ghost use Rattle.binaryfile.specs.Devices.{HasFailed};

use binaryfile::{Feed, Sink};
use itch_engine::{ProgFault, replay_run};
use std::alloc::Allocator;
use std::io::{self, Read, Write};
use std::sync::Wait;
use std::thread::Threads;
use stock_workers::FreeGate;

/// A writer that keeps nothing of what it is given but how many lines it was.
#[derive(Debug, Clone, Copy, PartialEq, Eq)]
pub struct LineCounter {
    /// How many line feeds came.
    pub lines: u64,
}

impl Write for LineCounter {
    fn write(&mut self, bytes: &[u8]) -> io::Result<usize> {
        for byte in bytes {
            if *byte == b'\n' {
                self.lines = self.lines.saturating_add(1);
            }
        }
        Ok(bytes.len())
    }

    fn flush(&mut self) -> io::Result<()> {
        Ok(())
    }
}

/// How many lines the report of a day file has.
///
/// Any reader and any writer will do: a feed and a sink wrap them, and remember their failures. One worker replays the
/// day, which [`FreeGate`] lets pass at once before each message.
pub fn report_lines<T: Threads + Wait + Sync, A: Allocator + Copy + Send + Sync, R: Read>(
    rt: &T,
    alloc: A,
    feed: &mut Feed<R>,
) -> Result<u64, ProgFault>
    // A counter doesn't say which bytes it took, so that this says less than the engine: when reading is the fault.
    ensures read { IsErrOf result ProgFault.Read ↔ HasFailed feed.new }
{
    let mut counter = LineCounter { lines: 0 };
    let mut sink = Sink::new(&mut counter);
    replay_run(rt, alloc, feed, &mut sink, 1, &FreeGate)?;
    Ok(counter.lines)
}

#[cfg(test)]
mod tests {
    use super::*;
    use std::test::Fail;

    #[test]
    fn a_report_has_a_line_for_each_refused_message_and_one_for_the_file(
        rt: HostRuntime,
    ) -> Result<(), Fail> {
        let file = b"\x00\x01O\x00\x01A\x00\x01A".as_slice();
        assert_eq!(rt; report_lines(&rt, rt.alloc(), &mut Feed::new(file))?, 3);
        Ok(())
    }
}
