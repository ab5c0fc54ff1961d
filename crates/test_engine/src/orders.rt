//! The life of an order, from any of its references.
use binaryfile::{Feed, LoadFault, Sink};
use itch_engine::ProgFault;
use itch_layouts::Msg;
use itch_readings::{StockFault, StockName, order_of_file, order_run};
use std::alloc::Allocator;
use std::io::{ErrorKind, Read};
use std::test::Fail;
use test_refusing::{Refusal, Refusing, Tried, refuse_each};
use test_support::{AAPL, AMPLE, Failure, MSFT, Narrow, Pieces, add_entry, same, same_bytes};

// A day of two stocks. The order 1 of the first becomes 2 and then 5, and is deleted; the order 3 stays; a replacement of 3
// by 2 is refused, since 2 lives; and the second stock has an order 2 of its own, which becomes 9.
fn messages() -> [Msg; 13] {
    [
        AAPL.directory(),
        MSFT.directory(),
        AAPL.add(1, b'B', 100, 1_000_000),
        AAPL.add_mpid(3, b'S', 70, 1_020_000),
        AAPL.replace(1, 2, 80, 1_000_100),
        MSFT.add(2, b'B', 10, 500_000),
        AAPL.replace(3, 2, 60, 1_030_000),
        AAPL.execute(2, 30, 8),
        AAPL.execute(2, 500, 9),
        MSFT.replace(2, 9, 11, 500_100),
        AAPL.replace(2, 5, 40, 1_000_200),
        AAPL.cancel(1, 5),
        AAPL.delete(5),
    ]
}

fn file<A: Allocator + Copy>(alloc: A) -> Result<Vec<u8, A>, Fail> {
    let mut file = Vec::new(alloc);
    for message in messages() {
        add_entry(alloc, &mut file, &message)?;
    }
    Ok(file)
}

// The life of the order 1, 2 and 5. The refused replacement of 3 by 2 names it, and doesn't link it to 3.
const FIRST: &[u8] =
    b"3 applied add locate=1 tracking=0 time=0 reference=1 side=\"B\" shares=100 stock=\"AAPL\" price=1000000\n\
      5 applied replace locate=1 tracking=0 time=0 reference=1 new_reference=2 shares=80 price=1000100\n\
      7 refused F5 replace locate=1 tracking=0 time=0 reference=3 new_reference=2 shares=60 price=1030000\n\
      8 applied execute locate=1 tracking=0 time=0 reference=2 shares=30 match_no=8\n\
      9 refused F9 execute locate=1 tracking=0 time=0 reference=2 shares=500 match_no=9\n\
      11 applied replace locate=1 tracking=0 time=0 reference=2 new_reference=5 shares=40 price=1000200\n\
      12 refused F6 cancel locate=1 tracking=0 time=0 reference=1 shares=5\n\
      13 applied delete locate=1 tracking=0 time=0 reference=5\n\
      gone\n";

// That of the order 3, which lives.
const SECOND: &[u8] =
    b"4 applied add_mpid locate=1 tracking=0 time=0 reference=3 side=\"S\" shares=70 stock=\"AAPL\" price=1020000 attribution=\"ABCD\"\n\
      7 refused F5 replace locate=1 tracking=0 time=0 reference=3 new_reference=2 shares=60 price=1030000\n\
      order 3 S 70 1020000 \"ABCD\"\n";

// That of the other stock's order, which lives by its last reference.
const OTHER: &[u8] =
    b"6 applied add locate=2 tracking=0 time=0 reference=2 side=\"B\" shares=10 stock=\"MSFT\" price=500000\n\
      10 applied replace locate=2 tracking=0 time=0 reference=2 new_reference=9 shares=11 price=500100\n\
      order 9 B 11 500100 none\n";

// A stock, a reference of an order, and the text.
type Case = (StockName, u64, &'static [u8]);

const CASES: [Case; 8] = [
    (StockName::Symbol(*b"AAPL    "), 1, FIRST),
    (StockName::Symbol(*b"AAPL    "), 2, FIRST),
    (StockName::Locate(1), 5, FIRST),
    (StockName::Locate(1), 3, SECOND),
    (StockName::Symbol(*b"MSFT    "), 2, OTHER),
    (StockName::Locate(2), 9, OTHER),
    (StockName::Locate(2), 1, b"no order 1\n"),
    (
        StockName::Locate(1),
        u64::MAX,
        b"no order 18446744073709551615\n",
    ),
];

// The life of an order of what a reader gives, by segments of so many bytes.
fn life_of<A: Allocator + Copy, R: Read + Drop>(
    alloc: A,
    reader: R,
    name: StockName,
    reference: u64,
    segment: u32,
) -> Result<Result<Option<Vec<u8, A>>, LoadFault>, Fail> {
    if segment == 0 || segment > 1 << 30 {
        return Err(Fail::new("a segment takes 1 to 2^30 bytes"));
    }
    let mut feed = Feed::new(reader);
    Ok(order_of_file(alloc, &mut feed, AMPLE, segment, name, reference))
}

// A life that is asked for: its fault, or the text that is wanted.
fn try_case<A: Allocator + Copy>(
    alloc: A,
    file: &[u8],
    case: Case,
    segment: u32,
) -> Result<Result<(), LoadFault>, Fail> {
    let (name, reference, wanted) = case;
    match life_of(alloc, file, name, reference, segment)? {
        Ok(Some(text)) => same_bytes("the life of an order", &text, wanted).map(Ok),
        Ok(None) => Err(Fail::new("a stock that the file has")),
        Err(fault) => Ok(Err(fault)),
    }
}

#[test]
fn an_order_has_one_life_from_any_of_its_references(rt: HostRuntime) -> Result<(), Fail> {
    let file = file(rt.alloc())?;
    for case in CASES {
        for segment in [1, 7, 50, 1_000_000] {
            let returned = try_case(rt.alloc(), &file, case, segment)?;
            same(
                "a result",
                &(case.1, segment, returned),
                &(case.1, segment, Ok(())),
            )?;
        }
    }
    Ok(())
}

#[test]
fn a_stock_that_is_not_there_has_no_order(rt: HostRuntime) -> Result<(), Fail> {
    let file = file(rt.alloc())?;
    for name in [StockName::Locate(3), StockName::Symbol(*b"AAP     ")] {
        let found = life_of(rt.alloc(), file.as_slice(), name, 1, 50)?;
        let found = found.map(|text| text.is_some());
        same("a life", &(name, found), &(name, Ok(false)))?;
    }
    Ok(())
}

// A life under a refusal. Where memory is refused, that is the fault, and it is there with memory after it.
fn try_refusal<R: AllocGlobal>(
    rt: &R,
    file: &[u8],
    case: Case,
    refusal: Refusal,
) -> Result<Tried, Fail> {
    let heap = Refusing::new(rt.alloc(), refusal);
    let mut returned = try_case(&heap, file, case, 50)?;
    let tried = heap.tried(returned.is_err());
    if tried.refused {
        let wanted = Err(LoadFault::Memory);
        same("without memory", &(refusal, returned), &(refusal, wanted))?;
        returned = try_case(&heap, file, case, 50)?;
    }
    same("a result", &(refusal, returned), &(refusal, Ok(())))?;
    Ok(tried)
}

#[test]
fn there_is_no_life_without_memory(rt: HostRuntime) -> Result<(), Fail> {
    let file = file(rt.alloc())?;
    for case in CASES {
        refuse_each(|refusal: Refusal| -> Result<Tried, Fail> {
            try_refusal(&rt, &file, case, refusal)
        })?;
    }
    Ok(())
}

// A run of the engine on what a reader gives, with what it writes.
fn run<A: Allocator + Copy, R: Read + Drop>(
    alloc: A,
    reader: R,
    output: &mut Narrow<A>,
) -> Result<(), StockFault> {
    let mut feed = Feed::new(reader);
    let mut sink = Sink::new(output);
    order_run(alloc, &mut feed, &mut sink, StockName::Locate(2), 9)
}

// Each call gives 100 bytes, one more the end, and one is made by the segment after the last.
#[test]
fn nothing_is_sent_after_a_failed_read(rt: HostRuntime) -> Result<(), Fail> {
    let file = file(rt.alloc())?;
    let calls = (file.len() as u64).div_ceil(100).saturating_add(2);
    for failing in 1..=calls.saturating_add(1) {
        let reader = Pieces::failing(&file, 100, failing, ErrorKind::Interrupted);
        let mut output = Narrow::failing(rt.alloc(), 0, Failure::TakesNone);
        let returned = run(rt.alloc(), reader, &mut output);
        let (wanted, written) = if failing <= calls {
            (Err(StockFault::Engine(ProgFault::Read)), b"".as_slice())
        } else {
            (Ok(()), OTHER)
        };
        same("a failed read", &(failing, returned), &(failing, wanted))?;
        same_bytes("what is written", output.taken(), written)?;
    }
    Ok(())
}

#[test]
fn a_prefix_is_sent_before_a_failed_write(rt: HostRuntime) -> Result<(), Fail> {
    let file = file(rt.alloc())?;
    for taken in 0..OTHER.len() {
        let failing = (taken as u64).saturating_add(1);
        let mut output = Narrow::failing(rt.alloc(), failing, Failure::TakesNone);
        let returned = run(rt.alloc(), file.as_slice(), &mut output);
        let wanted = Err(StockFault::Engine(ProgFault::Write));
        same("a failed write", &(failing, returned), &(failing, wanted))?;
        let prefix = OTHER.get(..taken).unwrap_or(b"no prefix");
        same_bytes("what was taken", output.taken(), prefix)?;
    }
    Ok(())
}
