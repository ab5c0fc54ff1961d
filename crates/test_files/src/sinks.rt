//! Sinks: sends that succeed, and writers that fail.
use binaryfile::{Sink, WriteFault, send};
use std::alloc::Allocator;
use std::io::ErrorKind;
use std::test::Fail;
use test_support::{Failure, Narrow, STORED_RUN, same, same_bytes};

#[test]
fn a_send_goes_on_until_all_is_taken(rt: HostRuntime) -> Result<(), Fail> {
    let mut writer = Narrow::failing(rt.alloc(), 0, Failure::TakesNone);
    let mut sink = Sink::new(&mut writer);
    same("nothing", &send(&mut sink, b""), &Ok(()))?;
    same("four bytes", &send(&mut sink, b"abcd"), &Ok(()))?;
    same("a sink that works", &sink.failed(), &false)?;
    same_bytes("what was taken", writer.taken(), b"abcd")?;
    same("how often the writer was asked", &writer.calls(), &4)
}

// After a failure the writer, which would go on, is not asked again, also where it was interrupted.
fn try_failure<A: Allocator>(
    alloc: A,
    bytes: &[u8],
    failing: u64,
    failure: Failure,
) -> Result<(), Fail> {
    let mut writer = Narrow::failing(alloc, failing, failure);
    let mut sink = Sink::new(&mut writer);
    let written = failing.saturating_sub(1);
    let first = (failure, send(&mut sink, bytes), sink.failed());
    let later = (send(&mut sink, b"e"), send(&mut sink, b""), sink.failed());
    same(
        "a failed send",
        &first,
        &(failure, Err(WriteFault { written }), true),
    )?;
    same(
        "later sends",
        &later,
        &(Err(WriteFault { written: 0 }), Ok(()), true),
    )?;
    same("how often the writer was asked", &writer.calls(), &failing)?;
    let sent = bytes.get(..written as usize).unwrap_or(b"none of these");
    same_bytes("what was taken", writer.taken(), sent)
}

#[test]
fn a_sink_fails_for_good_at_any_failure(rt: HostRuntime) -> Result<(), Fail> {
    for failure in [
        Failure::Error(ErrorKind::Interrupted),
        Failure::Error(ErrorKind::Other),
        Failure::TakesNone,
    ] {
        for failing in 1..=STORED_RUN.len() as u64 {
            try_failure(rt.alloc(), STORED_RUN, failing, failure)?;
        }
    }
    Ok(())
}

// A write that fails at the second call, and the next one, of a sink whose writer would go on: the kinds of their errors,
// whether the sink has failed, and how often its writer was asked.
fn try_write<A: Allocator>(alloc: A, failure: Failure, kind: ErrorKind) -> Result<(), Fail> {
    let mut writer = Narrow::failing(alloc, 2, failure);
    let mut sink = Sink::new(&mut writer);
    let first = sink.write(b"ab").ok();
    let second = sink.write(b"b").err().map(|error| error.kind());
    let third = sink.write(b"b").err().map(|error| error.kind());
    same(
        "three writes",
        &(first, second, third, sink.failed()),
        &(Some(1), Some(kind), Some(ErrorKind::Other), true),
    )?;
    same("how often it was asked", &writer.calls(), &2)?;
    same_bytes("what was taken", writer.taken(), b"a")
}

#[test]
fn a_write_passes_on_what_its_writer_says(rt: HostRuntime) -> Result<(), Fail> {
    let interrupted = Failure::Error(ErrorKind::Interrupted);
    try_write(rt.alloc(), interrupted, ErrorKind::Interrupted)?;
    try_write(rt.alloc(), Failure::TakesNone, ErrorKind::WriteZero)?;
    let mut writer = Narrow::failing(rt.alloc(), 0, Failure::TakesNone);
    let mut sink = Sink::new(&mut writer);
    same("a write of nothing", &sink.write(b"").ok(), &Some(0))?;
    same("is no failure", &sink.failed(), &false)
}
