//! Runs that are refused memory.
use crate::traced::{ALL, BOTH, Traced, stops};
use binaryfile::{Feed, Sink};
use engine_rules::ProgFault;
use std::alloc::Global;
use std::test::Fail;
use test_refusing::{Refusal, Refusing, Tried, refuse_each};
use test_support::{FILE, same, same_bytes};

// A run under a refusal, in segments of so many bytes. Where it is refused, the fault says so, no device has failed, and
// what was written is a beginning. In the end it is run with memory.
fn try_run(
    alloc: Global,
    heap: &Refusing<Global>,
    traced: Traced,
    text: &[u8],
    segment: u32,
    refusal: Refusal,
) -> Result<Tried, Fail> {
    let mut output = Vec::new(alloc);
    let (mut feed, mut sink) = (Feed::new(FILE), Sink::new(&mut output));
    heap.restart(refusal);
    let returned = traced.run(heap, &mut feed, &mut sink, segment, ALL)?;
    let tried = heap.tried(returned.is_err());
    let failed = (feed.failed(), sink.failed());
    let case = (traced, segment, refusal);
    same("devices", &(case, failed), &(case, (false, false)))?;
    if returned.is_ok() {
        same_bytes("a trace", &output, text)?;
    } else {
        let memory = stops(ProgFault::Memory);
        same("a fault", &(case, returned), &(case, memory))?;
        let beginning = text.get(..output.len()).unwrap_or(b"another trace");
        same_bytes("what was written", &output, beginning)?;
    }
    Ok(tried)
}

#[test]
fn a_beginning_was_written_without_memory(rt: HostRuntime) -> Result<(), Fail> {
    let heap = Refusing::new(rt.alloc(), Refusal::Never);
    for (traced, text) in BOTH {
        for segment in [30, 70, 1000] {
            refuse_each(|refusal: Refusal| -> Result<Tried, Fail> {
                try_run(rt.alloc(), &heap, traced, text, segment, refusal)
            })?;
        }
    }
    Ok(())
}
