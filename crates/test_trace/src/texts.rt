//! Traces of the worked file, and of days that have nothing to trace.
use crate::traced::{AAPL, ALL, BOTH, DEEP, SEGMENTS, SOME, Traced};
use binaryfile::{Feed, Sink};
use itch_readings::{StockFault, StockName};
use itch_trace::Extent;
use std::alloc::Allocator;
use std::test::Fail;
use test_support::{FILE, Pieces, same, same_bytes};

// What a run writes and returns.
fn try_run<A: Allocator + Copy>(
    alloc: A,
    traced: Traced,
    file: &[u8],
    segment: u32,
    extent: Extent,
    wanted: (Result<(), StockFault>, &[u8]),
) -> Result<(), Fail> {
    let mut output = Vec::new(alloc);
    let mut sink = Sink::new(&mut output);
    let returned = traced.run(alloc, &mut Feed::new(file), &mut sink, segment, extent)?;
    let case = (traced, segment, extent);
    same("a result", &(case, returned), &(case, wanted.0))?;
    same_bytes("a trace", &output, wanted.1)
}

#[test]
fn a_trace_is_the_same_in_any_segments(rt: HostRuntime) -> Result<(), Fail> {
    for segment in SEGMENTS {
        for (traced, text) in BOTH {
            try_run(rt.alloc(), traced, FILE, segment, ALL, (Ok(()), text))?;
        }
        try_run(rt.alloc(), Traced::All, FILE, segment, SOME, (Ok(()), DEEP))?;
        let stock = Traced::Stock(StockName::Locate(1));
        try_run(rt.alloc(), stock, FILE, segment, ALL, (Ok(()), BOTH[1].1))?;
    }
    Ok(())
}

// The first line of a trace with one level of each side.
const HEAD: &[u8] = b"message,time,type,locate,outcome,bid_price,bid_shares,ask_price,ask_shares\n";

// A file without messages has the first line alone, and so has a part that has none of its messages.
#[test]
fn a_trace_without_messages_has_its_first_line(rt: HostRuntime) -> Result<(), Fail> {
    let beyond = Extent { first: 6, ..ALL };
    let backwards = Extent {
        first: 3,
        last: 2,
        ..ALL
    };
    for segment in [1, 5, 1000] {
        for file in [b"".as_slice(), b"\x00\x00", b"\x00", b"\x00\x00AAPL"] {
            try_run(rt.alloc(), Traced::All, file, segment, ALL, (Ok(()), HEAD))?;
        }
        for traced in [Traced::All, Traced::Stock(AAPL)] {
            try_run(rt.alloc(), traced, FILE, segment, beyond, (Ok(()), HEAD))?;
            try_run(rt.alloc(), traced, FILE, segment, backwards, (Ok(()), HEAD))?;
        }
    }
    Ok(())
}

// Of a stock that the day hasn't nothing is written.
#[test]
fn a_stock_that_is_missing_is_a_fault(rt: HostRuntime) -> Result<(), Fail> {
    let none = (Err(StockFault::NoStock), b"".as_slice());
    for segment in [1, 5, 1000] {
        for name in [
            StockName::Locate(0),
            StockName::Locate(2),
            StockName::Symbol(*b"MSFT    "),
            StockName::Symbol(*b"aapl    "),
        ] {
            try_run(rt.alloc(), Traced::Stock(name), FILE, segment, ALL, none)?;
            try_run(rt.alloc(), Traced::Stock(name), FILE, segment, SOME, none)?;
            try_run(rt.alloc(), Traced::Stock(name), b"", segment, ALL, none)?;
        }
    }
    Ok(())
}

// No more is read than the segment that has the last message that is wanted: of segments of 41 bytes the directory message
// is in the first.
#[test]
fn a_trace_ends_with_its_last_message(rt: HostRuntime) -> Result<(), Fail> {
    let one = Extent { last: 1, ..ALL };
    for (traced, _) in BOTH {
        let mut pieces = Pieces::new(FILE, 41);
        let mut output = Vec::new(rt.alloc());
        let mut sink = Sink::new(&mut output);
        let returned = traced.run(rt.alloc(), &mut Feed::new(&mut pieces), &mut sink, 41, one)?;
        same("a result", &(traced, returned), &(traced, Ok(())))?;
        same("how often the reader was asked", &pieces.calls(), &1)?;
        same(
            "that a line was written",
            &(output.len() > HEAD.len()),
            &true,
        )?;
    }
    Ok(())
}

// A stock that begins after the last message that is wanted is looked for further on.
#[test]
fn a_stock_is_looked_for_beyond_the_last_message(rt: HostRuntime) -> Result<(), Fail> {
    let mut file = Vec::new(rt.alloc());
    file.extend_from_slice(b"\x00\x01z")?;
    file.extend_from_slice(FILE)?;
    let one = Extent { last: 1, ..ALL };
    for segment in [3, 1000] {
        try_run(
            rt.alloc(),
            Traced::Stock(AAPL),
            &file,
            segment,
            one,
            (Ok(()), HEAD),
        )?;
    }
    Ok(())
}
