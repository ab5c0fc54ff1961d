//! Runs that are refused memory.
use crate::printing::Printed;
use binaryfile::{Feed, Sink};
use itch_engine::ProgFault;
use std::alloc::Global;
use std::test::Fail;
use test_refusing::{Refusal, Refusing, Tried, refuse_each};
use test_support::{FILE, TEXT, same, same_bytes};

// Of the worked file, what a run writes.
fn wanted(printed: Printed) -> &'static [u8] {
    match printed {
        Printed::Whole => TEXT,
        Printed::Part(_, _) => TEXT
            .strip_suffix(b"end\nrest ff00\n")
            .unwrap_or(b"another text"),
    }
}

// A run under a refusal, in segments of so many bytes. Where it is refused, the fault says so, no device has failed, and
// what was written is a beginning. In the end it is run with memory.
fn try_run(
    alloc: Global,
    heap: &Refusing<Global>,
    printed: Printed,
    file: &[u8],
    text: &[u8],
    segment: u32,
    refusal: Refusal,
) -> Result<Tried, Fail> {
    let mut output = Vec::new(alloc);
    let (mut feed, mut sink) = (Feed::new(file), Sink::new(&mut output));
    heap.restart(refusal);
    let returned = printed.run(heap, &mut feed, &mut sink, segment)?;
    let tried = heap.tried(returned.is_err());
    let failed = (feed.failed(), sink.failed());
    let case = (printed, segment, refusal);
    same("devices", &(case, failed), &(case, (false, false)))?;
    match returned {
        Ok(()) => same_bytes("a text", &output, text)?,
        Err(fault) => {
            same("a fault", &(case, fault), &(case, ProgFault::Memory))?;
            let beginning = text.get(..output.len()).unwrap_or(b"another text");
            same_bytes("what was written", &output, beginning)?;
        }
    }
    Ok(tried)
}

#[test]
fn a_beginning_was_written_without_memory(rt: HostRuntime) -> Result<(), Fail> {
    let heap = Refusing::new(rt.alloc(), Refusal::Never);
    for printed in [Printed::Whole, Printed::Part(1, None)] {
        for segment in [30, 70, 1000] {
            refuse_each(|refusal: Refusal| -> Result<Tried, Fail> {
                try_run(
                    rt.alloc(),
                    &heap,
                    printed,
                    FILE,
                    wanted(printed),
                    segment,
                    refusal,
                )
            })?;
        }
    }
    Ok(())
}

// The line of what is less than a whole entry is made at the end.
#[test]
fn the_last_line_asks_for_memory(rt: HostRuntime) -> Result<(), Fail> {
    let heap = Refusing::new(rt.alloc(), Refusal::Never);
    let (file, text) = (b"\x00\x01A\x00\x09BC", b"raw 41\ncut 00094243\n");
    refuse_each(|refusal: Refusal| -> Result<Tried, Fail> {
        try_run(rt.alloc(), &heap, Printed::Whole, file, text, 2, refusal)
    })?;
    Ok(())
}
