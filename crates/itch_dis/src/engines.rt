//! The engines that disassemble a file while they read it.
ghost use Rattle.std.specs.Prelude.{◌≡◌, ◌<◌, ◌≤◌, ◌^◌};
ghost use Rattle.day_printing.specs.Printers.{Prints};
ghost use Rattle.itch_dis.specs.Printers.{IsPart, IsWholeText, part_of_text, whole_text};

use crate::day_text::DayText;
use crate::extent::Extent;
use binaryfile::{Feed, Sink};
use day_printing::print_day;
use engine_rules::ProgFault;
use std::alloc::Allocator;
use std::io::{Read, Write};

/// Reads a day file and writes its text, which assembles to the very bytes of the file. `segment` is how many bytes a
/// segment takes, 1 to 2^30; in memory are no more than a segment, an entry and their text.
///
/// The lines of a segment are sent before the next one is read. Faults, and what was sent before one, are as at
/// [`print_day`].
pub fn dis_stream_run<A: Allocator + Copy, R: Read, W: Write>(
    alloc: A,
    feed: &mut Feed<R>,
    sink: &mut Sink<W>,
    segment: u32,
) -> Result<(), ProgFault>
    requires segment { (0 < segment) × (segment ≤ 2 ^ 30) }
    ensures { Prints whole_text IsWholeText IsWholeText segment
        R.remaining W.contents feed.old feed.new sink.old sink.new result }
{
    let mut text = DayText::new(Extent::Whole);
    print_day(alloc, feed, sink, segment, &mut text)
}

/// Reads a day file and writes the lines of its messages from number `first` to number `last`, counted from 1, as
/// [`dis_stream_run`] writes them, without the lines of the file's end; to its last message where `last` is `None`. A
/// number beyond the last message has no line.
///
/// No segment is read after the one that has message `last`: what was sent then is that of every file that begins so.
/// Faults, and what was sent before one, are as at [`print_day`].
pub fn dis_part_run<A: Allocator + Copy, R: Read, W: Write>(
    alloc: A,
    feed: &mut Feed<R>,
    sink: &mut Sink<W>,
    segment: u32,
    first: u32,
    last: Option<u32>,
) -> Result<(), ProgFault>
    requires segment { (0 < segment) × (segment ≤ 2 ^ 30) }
    ensures { Prints (part_of_text first last) (IsPart first last) (IsPart first last) segment
        R.remaining W.contents feed.old feed.new sink.old sink.new result }
{
    let mut text = DayText::new(Extent::Messages { first, last });
    print_day(alloc, feed, sink, segment, &mut text)
}
