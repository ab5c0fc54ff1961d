//! Stocks that are named: among several of one symbol, and in a file of several segments.
use binaryfile::{Feed, Sink};
use itch_engine::ProgFault;
use itch_layouts::Msg;
use itch_readings::{Selection, StockFault, StockName, find_stock, tops_run};
use std::alloc::Allocator;
use std::io::{ErrorKind, Read};
use std::test::Fail;
use test_refusing::{Refusal, Refusing, Tried, refuse_each};
use test_support::{AAPL, MSFT, Pieces, Ticker, add_entry, day_with, same, same_bytes};

// A stock with the symbol of AAPL, whose locate code is 1, and a greater code.
const TWIN: Ticker = Ticker {
    locate: 9,
    symbol: *b"AAPL    ",
};

// The stock of AAPL's locate code by another symbol.
const RENAMED: Ticker = Ticker {
    locate: 1,
    symbol: *b"ELSE    ",
};

// A stock that is looked for in a day of these messages.
fn try_name<R: AllocGlobal>(
    rt: &R,
    messages: &[Msg],
    name: StockName,
    wanted: Option<u16>,
) -> Result<(), Fail> {
    let day = day_with(rt.alloc(), messages)?;
    let found = find_stock(rt.alloc(), &day, name)?;
    same(
        "a stock by its name",
        &(messages.len(), name, found),
        &(messages.len(), name, wanted),
    )
}

// Of two stocks with one symbol it is the first in the file, whatever their codes. A directory message that is refused,
// since it gives its stock another symbol, doesn't name it. A locate code needs no directory message.
#[test]
fn a_symbol_names_the_stock_that_is_listed_first(rt: HostRuntime) -> Result<(), Fail> {
    let aapl = StockName::Symbol(AAPL.symbol);
    let renamed = StockName::Symbol(RENAMED.symbol);
    let code = StockName::Locate(1);
    try_name(&rt, &[], aapl, None)?;
    try_name(&rt, &[], StockName::Locate(0), None)?;
    try_name(&rt, &[AAPL.add(1, b'B', 10, 100)], aapl, None)?;
    try_name(&rt, &[AAPL.add(1, b'B', 10, 100)], code, Some(1))?;
    try_name(&rt, &[MSFT.add(1, b'B', 10, 100)], code, None)?;
    try_name(&rt, &[AAPL.directory(), TWIN.directory()], aapl, Some(1))?;
    try_name(&rt, &[TWIN.directory(), AAPL.directory()], aapl, Some(9))?;
    try_name(&rt, &[AAPL.directory(), RENAMED.directory()], renamed, None)?;
    try_name(&rt, &[RENAMED.directory(), AAPL.directory()], aapl, None)?;
    let refused = [RENAMED.directory(), AAPL.directory(), TWIN.directory()];
    try_name(&rt, &refused, aapl, Some(9))
}

// A stock that is looked for under a refusal, and with memory after it.
fn try_find<R: AllocGlobal>(rt: &R, refusal: Refusal) -> Result<Tried, Fail> {
    let heap = Refusing::new(rt.alloc(), Refusal::Never);
    let day = day_with(&heap, &[AAPL.directory()])?;
    let name = StockName::Symbol(AAPL.symbol);
    heap.restart(refusal);
    let found = find_stock(&heap, &day, name);
    let tried = heap.tried(found.is_err());
    if let Ok(found) = found {
        same("a stock", &(refusal, found), &(refusal, Some(1)))?;
    }
    let again = find_stock(&heap, &day, name)?;
    same(
        "a stock with memory",
        &(refusal, again),
        &(refusal, Some(1)),
    )?;
    Ok(tried)
}

#[test]
fn a_search_without_memory_finds_nothing(rt: HostRuntime) -> Result<(), Fail> {
    let growths = refuse_each(|refusal: Refusal| -> Result<Tried, Fail> {
        try_find(&rt, refusal)
    })?;
    same("growths", &growths, &1)
}

// Adds twenty payloads of an unknown type, as long as payloads can be: 1,310,740 bytes.
fn add_fillers<A: Allocator + Copy>(alloc: A, file: &mut Vec<u8, A>) -> Result<(), Fail> {
    let mut filler = vec![in alloc; b'z'; 0x1_0001]?;
    filler[0] = 0xff;
    filler[1] = 0xff;
    for _ in 0..20 {
        file.extend_from_slice(&filler)?;
    }
    Ok(())
}

// A file of 2.6 million bytes, of which a segment takes 1,048,576: an order of AAPL that comes before the stock is listed,
// and is refused; a stock; AAPL; its bid; in the second segment its ask; and in the third the end of its bid.
fn long_file<A: Allocator + Copy>(alloc: A) -> Result<Vec<u8, A>, Fail> {
    let mut file = Vec::new(alloc);
    add_entry(alloc, &mut file, &AAPL.add(1, b'B', 10, 1_000_000))?;
    add_entry(alloc, &mut file, &MSFT.directory())?;
    add_entry(alloc, &mut file, &AAPL.directory())?;
    add_entry(alloc, &mut file, &AAPL.add(2, b'B', 100, 1_010_000))?;
    add_fillers(alloc, &mut file)?;
    add_entry(alloc, &mut file, &AAPL.add(3, b'S', 50, 1_020_000))?;
    add_fillers(alloc, &mut file)?;
    add_entry(alloc, &mut file, &AAPL.delete(2))?;
    Ok(file)
}

// The lines of AAPL there. Message 5 to 24 and 26 to 45 are of an unknown type.
const LINES: &[u8] = b"message,time,bid_price,bid_shares,ask_price,ask_shares\n\
      4,0,1010000,100,,\n\
      25,0,1010000,100,1020000,50\n\
      46,0,,,1020000,50\n";

// The same with a line for each message, from the directory message on.
const EVERY: &[u8] = b"message,time,bid_price,bid_shares,ask_price,ask_shares\n\
      3,0,,,,\n\
      4,0,1010000,100,,\n\
      25,0,1010000,100,1020000,50\n\
      46,0,,,1020000,50\n";

// The same by the locate code, from the stock's first message on.
const FROM_THE_FIRST: &[u8] = b"message,time,bid_price,bid_shares,ask_price,ask_shares\n\
      1,0,,,,\n\
      3,0,,,,\n\
      4,0,1010000,100,,\n\
      25,0,1010000,100,1020000,50\n\
      46,0,,,1020000,50\n";

// The tops of a stock of what a reader gives, with what was written.
fn tops_of<A: Allocator + Copy, R: Read + Drop>(
    alloc: A,
    reader: R,
    name: StockName,
    selection: Selection,
    output: &mut Vec<u8>,
) -> Result<(), StockFault> {
    let mut feed = Feed::new(reader);
    let mut sink = Sink::new(output);
    tops_run(alloc, &mut feed, &mut sink, name, selection)
}

// How many bytes the reader gives a call where one of its reads fails.
const PIECE: u64 = 1 << 18;

// A reader that gives less than a segment at a time, a whole one, and as much as it is asked for.
#[test]
fn messages_keep_their_numbers_through_segments(rt: HostRuntime) -> Result<(), Fail> {
    let file = long_file(rt.alloc())?;
    let (symbol, code) = (StockName::Symbol(AAPL.symbol), StockName::Locate(1));
    let cases = [
        (symbol, Selection::Changes, LINES),
        (code, Selection::Changes, LINES),
        (symbol, Selection::Every, EVERY),
        (code, Selection::Every, FROM_THE_FIRST),
    ];
    for (name, selection, wanted) in cases {
        for most in [100_000, 1 << 20, 3_000_000] {
            let mut output = Vec::new(rt.alloc());
            let reader = Pieces::new(&file, most);
            let returned = tops_of(rt.alloc(), reader, name, selection, &mut output);
            same(
                "a result",
                &(name, selection, most, returned),
                &(name, selection, most, Ok(())),
            )?;
            same_bytes("the tops of a file of segments", &output, wanted)?;
        }
    }
    Ok(())
}

// Each call gives a piece, one more the end, and one is made by the segment after the last. The call after these never
// comes.
#[test]
fn each_read_of_a_file_of_segments_may_fail(rt: HostRuntime) -> Result<(), Fail> {
    let file = long_file(rt.alloc())?;
    let name = StockName::Symbol(AAPL.symbol);
    let calls = (file.len() as u64).div_ceil(PIECE).saturating_add(2);
    for failing in 1..=calls.saturating_add(1) {
        let mut output = Vec::new(rt.alloc());
        let reader = Pieces::failing(&file, PIECE as usize, failing, ErrorKind::Interrupted);
        let returned = tops_of(rt.alloc(), reader, name, Selection::Changes, &mut output);
        let (wanted, written) = if failing <= calls {
            (Err(StockFault::Engine(ProgFault::Read)), b"".as_slice())
        } else {
            (Ok(()), LINES)
        };
        same("a failed read", &(failing, returned), &(failing, wanted))?;
        same_bytes("what is written", &output, written)?;
    }
    Ok(())
}

// The tops under a refusal. Where memory is refused, nothing is written, and a second run with memory writes all.
fn try_refusal<R: AllocGlobal>(rt: &R, file: &[u8], refusal: Refusal) -> Result<Tried, Fail> {
    let heap = Refusing::new(rt.alloc(), refusal);
    let name = StockName::Symbol(AAPL.symbol);
    let mut output = Vec::new(rt.alloc());
    let mut returned = tops_of(&heap, file, name, Selection::Changes, &mut output);
    let tried = heap.tried(returned.is_err());
    if tried.refused {
        let wanted = Err(StockFault::Engine(ProgFault::Memory));
        let found = (refusal, returned, output.len());
        same("without memory", &found, &(refusal, wanted, 0))?;
        returned = tops_of(&heap, file, name, Selection::Changes, &mut output);
    }
    same("a result", &(refusal, returned), &(refusal, Ok(())))?;
    same_bytes("what is written", &output, LINES)?;
    Ok(tried)
}

#[test]
fn tops_of_segments_send_nothing_without_memory(rt: HostRuntime) -> Result<(), Fail> {
    let file = long_file(rt.alloc())?;
    let growths = refuse_each(|refusal: Refusal| -> Result<Tried, Fail> {
        try_refusal(&rt, &file, refusal)
    })?;
    same("that there are growths", &(growths > 8), &true)
}
