//! Both calls by one form, in segments of any size.
use binaryfile::{Feed, Sink};
use itch_dis::{dis_part_run, dis_stream_run};
use itch_engine::ProgFault;
use std::alloc::Allocator;
use std::io::{Read, Write};
use std::test::Fail;

/// The sizes of segments: an entry, its length and the end marker are cut at each of their bytes, or few files of these tests
/// are cut.
pub const SEGMENTS: [u32; 9] = [1, 2, 3, 5, 13, 40, 41, 42, 1000];

/// What is written of a file.
#[derive(Debug, Clone, Copy, PartialEq, Eq)]
pub enum Printed {
    /// Its whole text.
    Whole,
    /// The lines of its messages from one number on, to another or to its end.
    Part(u32, Option<u32>),
}

impl Printed {
    /// Writes it.
    pub fn run<A: Allocator + Copy, R: Read, W: Write>(
        self,
        alloc: A,
        feed: &mut Feed<R>,
        sink: &mut Sink<W>,
        segment: u32,
    ) -> Result<Result<(), ProgFault>, Fail> {
        if segment == 0 || segment > 1 << 30 {
            return Err(Fail::new("a segment takes 1 to 2^30 bytes"));
        }
        Ok(match self {
            Printed::Whole => dis_stream_run(alloc, feed, sink, segment),
            Printed::Part(first, last) => { dis_part_run(alloc, feed, sink, segment, first, last) }
        })
    }
}
