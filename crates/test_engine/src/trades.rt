//! The trades of a day, of all stocks and of one.
use binaryfile::{Feed, Limits, LoadFault, Sink};
use itch_engine::ProgFault;
use itch_layouts::{Head, Msg, Nanos};
use itch_readings::{
    StockFault, StockName, stock_trades_of_file, stock_trades_run, trades_of_file, trades_run,
};
use std::alloc::Allocator;
use std::io::{ErrorKind, Read};
use std::test::Fail;
use test_refusing::{Refusal, Refusing, Tried, refuse_each};
use test_support::{AAPL, AMPLE, Failure, MSFT, Narrow, Pieces, add_entry, same, same_bytes};

// An execution of the first stock's order 1 at a time of its own.
fn timed_execution() -> Msg {
    match AAPL.execute(1, 30, 7) {
        Msg::Execute(head, body) => {
            let time = Nanos::new(34_200_000_000_123).unwrap_or(head.time);
            Msg::Execute(Head { time, ..head }, body)
        }
        other => other,
    }
}

// A day of two stocks. Of the first, message 12 breaks the two trades with match number 7, the next break of it is refused,
// and a cross with that number is broken by message 17. The second stock has a trade with that number too. Messages 6, 10,
// 13, 15 and 19 are refused.
fn messages() -> [Msg; 24] {
    [
        AAPL.directory(),
        MSFT.directory(),
        AAPL.add(1, b'B', 100, 1_000_000),
        AAPL.add(2, b'S', 50, 1_010_000),
        timed_execution(),
        MSFT.execute(1, 10, 7),
        MSFT.add(1, b'S', 40, 500_000),
        MSFT.execute(1, 10, 7),
        AAPL.execute_price(2, 20, 8, b'N', 1_020_000),
        AAPL.broken(9),
        AAPL.trade(b'S', 5, 990_000, 7),
        AAPL.broken(7),
        AAPL.broken(7),
        AAPL.cross(u64::MAX, 1_000_000, 7),
        MSFT.execute(1, 500, 9),
        AAPL.execute_price(1, 10, 11, b'Y', 999_900),
        AAPL.broken(7),
        AAPL.execute(1, 60, 12),
        AAPL.execute(1, 1, 13),
        MSFT.replace(1, 2, 15, 510_000),
        MSFT.execute(2, 0, 14),
        MSFT.trade(b'B', 3, 505_000, 15),
        MSFT.add_mpid(3, b'B', 5, 400_000),
        MSFT.execute(3, 5, 16),
    ]
}

fn file_of<A: Allocator + Copy>(alloc: A, messages: &[Msg]) -> Result<Vec<u8, A>, Fail> {
    let mut file = Vec::new(alloc);
    for message in messages {
        add_entry(alloc, &mut file, message)?;
    }
    Ok(file)
}

const HEAD_LINE: &[u8] = b"message,time,locate,type,side,price,shares,match_no,printed,broken\n";

// The trades of all stocks.
const ALL: &[u8] = b"message,time,locate,type,side,price,shares,match_no,printed,broken\n\
      5,34200000000123,1,E,B,1000000,30,7,Y,12\n\
      8,0,2,E,S,500000,10,7,Y,\n\
      9,0,1,C,S,1020000,20,8,N,\n\
      11,0,1,P,S,990000,5,7,Y,12\n\
      14,0,1,Q,,1000000,18446744073709551615,7,Y,17\n\
      16,0,1,C,B,999900,10,11,Y,\n\
      18,0,1,E,B,1000000,60,12,Y,\n\
      21,0,2,E,S,510000,0,14,Y,\n\
      22,0,2,P,B,505000,3,15,Y,\n\
      24,0,2,E,B,400000,5,16,Y,\n";

// Those of the first stock.
const FIRST: &[u8] = b"message,time,locate,type,side,price,shares,match_no,printed,broken\n\
      5,34200000000123,1,E,B,1000000,30,7,Y,12\n\
      9,0,1,C,S,1020000,20,8,N,\n\
      11,0,1,P,S,990000,5,7,Y,12\n\
      14,0,1,Q,,1000000,18446744073709551615,7,Y,17\n\
      16,0,1,C,B,999900,10,11,Y,\n\
      18,0,1,E,B,1000000,60,12,Y,\n";

// Those of the second.
const SECOND: &[u8] = b"message,time,locate,type,side,price,shares,match_no,printed,broken\n\
      8,0,2,E,S,500000,10,7,Y,\n\
      21,0,2,E,S,510000,0,14,Y,\n\
      22,0,2,P,B,505000,3,15,Y,\n\
      24,0,2,E,B,400000,5,16,Y,\n";

// A stock, or none where those of all are asked for, and the text.
type Case = (Option<StockName>, &'static [u8]);

const CASES: [Case; 5] = [
    (None, ALL),
    (Some(StockName::Symbol(*b"AAPL    ")), FIRST),
    (Some(StockName::Locate(1)), FIRST),
    (Some(StockName::Symbol(*b"MSFT    ")), SECOND),
    (Some(StockName::Locate(2)), SECOND),
];

// The trades of what a reader gives, by segments of so many bytes; none where it hasn't the stock.
fn trades_of<A: Allocator + Copy, R: Read + Drop>(
    alloc: A,
    reader: R,
    limits: Limits,
    name: Option<StockName>,
    segment: u32,
) -> Result<Result<Option<Vec<u8, A>>, LoadFault>, Fail> {
    if segment == 0 || segment > 1 << 30 || limits.bytes > 1 << 40 {
        return Err(Fail::new("a segment takes 1 to 2^30 bytes of at most 2^40"));
    }
    let mut feed = Feed::new(reader);
    Ok(match name {
        Some(name) => stock_trades_of_file(alloc, &mut feed, limits, segment, name),
        None => trades_of_file(alloc, &mut feed, limits, segment).map(Some),
    })
}

// Trades that are asked for: their fault, or the text that is wanted.
fn try_case<A: Allocator + Copy>(
    alloc: A,
    file: &[u8],
    case: Case,
    segment: u32,
) -> Result<Result<(), LoadFault>, Fail> {
    let (name, wanted) = case;
    match trades_of(alloc, file, AMPLE, name, segment)? {
        Ok(Some(text)) => same_bytes("the trades", &text, wanted).map(Ok),
        Ok(None) => Err(Fail::new("a stock that the file has")),
        Err(fault) => Ok(Err(fault)),
    }
}

#[test]
fn each_trade_has_a_line_with_what_broke_it(rt: HostRuntime) -> Result<(), Fail> {
    let file = file_of(rt.alloc(), &messages())?;
    for case in CASES {
        for segment in [1, 7, 50, 1_000_000] {
            let returned = try_case(rt.alloc(), &file, case, segment)?;
            same(
                "a result",
                &(case.0, segment, returned),
                &(case.0, segment, Ok(())),
            )?;
        }
    }
    Ok(())
}

#[test]
fn a_day_without_trades_has_the_head_line_alone(rt: HostRuntime) -> Result<(), Fail> {
    let quiet = [
        AAPL.directory(),
        AAPL.add(1, b'B', 100, 1_000_000),
        AAPL.execute(2, 10, 7),
        AAPL.broken(7),
        AAPL.delete(1),
    ];
    let file = file_of(rt.alloc(), &quiet)?;
    let none = try_case(rt.alloc(), b"", (None, HEAD_LINE), 50)?;
    same("no message", &none, &Ok(()))?;
    let all = try_case(rt.alloc(), &file, (None, HEAD_LINE), 50)?;
    same("no trade", &all, &Ok(()))?;
    let one = (Some(StockName::Locate(1)), HEAD_LINE);
    let one = try_case(rt.alloc(), &file, one, 50)?;
    same("no trade of the stock", &one, &Ok(()))
}

#[test]
fn a_stock_that_is_not_there_has_no_trades(rt: HostRuntime) -> Result<(), Fail> {
    let file = file_of(rt.alloc(), &messages())?;
    for name in [StockName::Locate(3), StockName::Symbol(*b"AAP     ")] {
        let found = trades_of(rt.alloc(), file.as_slice(), AMPLE, Some(name), 50)?;
        let found = found.map(|text| text.is_some());
        same("a stock's trades", &(name, found), &(name, Ok(false)))?;
    }
    Ok(())
}

#[test]
fn a_file_above_a_limit_has_no_trades(rt: HostRuntime) -> Result<(), Fail> {
    let file = file_of(rt.alloc(), &messages())?;
    let bytes = Limits {
        bytes: (file.len() as u64).saturating_sub(1),
        ..AMPLE
    };
    let messages = Limits {
        messages: 23,
        ..AMPLE
    };
    for name in [None, Some(StockName::Locate(1))] {
        for (limits, fault) in [
            (bytes, LoadFault::TooManyBytes),
            (messages, LoadFault::TooManyMessages),
        ] {
            let found = trades_of(rt.alloc(), file.as_slice(), limits, name, 50)?;
            let found = found.map(|text| text.is_some());
            same("above a limit", &(name, found), &(name, Err(fault)))?;
        }
    }
    Ok(())
}

// Trades under a refusal. Where memory is refused, that is the fault, and they are there with memory after it.
fn try_refusal<R: AllocGlobal>(
    rt: &R,
    file: &[u8],
    case: Case,
    refusal: Refusal,
) -> Result<Tried, Fail> {
    let heap = Refusing::new(rt.alloc(), refusal);
    let mut returned = try_case(&heap, file, case, 50)?;
    let tried = heap.tried(returned.is_err());
    if tried.refused {
        let wanted = Err(LoadFault::Memory);
        same("without memory", &(refusal, returned), &(refusal, wanted))?;
        returned = try_case(&heap, file, case, 50)?;
    }
    same("a result", &(refusal, returned), &(refusal, Ok(())))?;
    Ok(tried)
}

#[test]
fn there_are_no_trades_without_memory(rt: HostRuntime) -> Result<(), Fail> {
    let file = file_of(rt.alloc(), &messages())?;
    for case in CASES {
        refuse_each(|refusal: Refusal| -> Result<Tried, Fail> {
            try_refusal(&rt, &file, case, refusal)
        })?;
    }
    Ok(())
}

// A run of an engine on what a reader gives, with what it writes.
fn run<A: Allocator + Copy, R: Read + Drop>(
    alloc: A,
    reader: R,
    output: &mut Narrow<A>,
    name: Option<StockName>,
) -> Result<(), StockFault> {
    let mut feed = Feed::new(reader);
    let mut sink = Sink::new(output);
    match name {
        Some(name) => stock_trades_run(alloc, &mut feed, &mut sink, name),
        None => trades_run(alloc, &mut feed, &mut sink).map_err(StockFault::Engine),
    }
}

// Each call gives 100 bytes, one more the end, and one is made by the segment after the last.
#[test]
fn nothing_is_sent_after_a_failed_read(rt: HostRuntime) -> Result<(), Fail> {
    let file = file_of(rt.alloc(), &messages())?;
    let calls = (file.len() as u64).div_ceil(100).saturating_add(2);
    for (name, text) in CASES {
        for failing in 1..=calls.saturating_add(1) {
            let reader = Pieces::failing(&file, 100, failing, ErrorKind::Interrupted);
            let mut output = Narrow::failing(rt.alloc(), 0, Failure::TakesNone);
            let returned = run(rt.alloc(), reader, &mut output, name);
            let (wanted, written) = if failing <= calls {
                (Err(StockFault::Engine(ProgFault::Read)), b"".as_slice())
            } else {
                (Ok(()), text)
            };
            same("a failed read", &(failing, returned), &(failing, wanted))?;
            same_bytes("what is written", output.taken(), written)?;
        }
    }
    Ok(())
}

// For all stocks a list of 2^16 places is made each time, so a few prefixes do.
#[test]
fn a_prefix_is_sent_before_a_failed_write(rt: HostRuntime) -> Result<(), Fail> {
    let file = file_of(rt.alloc(), &messages())?;
    for (name, text) in [(None, ALL), (Some(StockName::Locate(2)), SECOND)] {
        for taken in 0..text.len() {
            if name.is_none() && taken % 40 != 0 {
                continue;
            }
            let failing = (taken as u64).saturating_add(1);
            let mut output = Narrow::failing(rt.alloc(), failing, Failure::TakesNone);
            let returned = run(rt.alloc(), file.as_slice(), &mut output, name);
            let wanted = Err(StockFault::Engine(ProgFault::Write));
            same("a failed write", &(failing, returned), &(failing, wanted))?;
            let prefix = text.get(..taken).unwrap_or(b"no prefix");
            same_bytes("what was taken", output.taken(), prefix)?;
        }
    }
    Ok(())
}

#[test]
fn nothing_is_sent_for_a_stock_that_is_not_there(rt: HostRuntime) -> Result<(), Fail> {
    let file = file_of(rt.alloc(), &messages())?;
    let mut output = Narrow::failing(rt.alloc(), 0, Failure::TakesNone);
    let name = Some(StockName::Locate(3));
    let returned = run(rt.alloc(), file.as_slice(), &mut output, name);
    same("no stock", &returned, &Err(StockFault::NoStock))?;
    same_bytes("what is written", output.taken(), b"")
}
