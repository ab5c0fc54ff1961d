//! The texts of a file's stocks, of one's best bid and ask and of an order's life, wherever the file is cut into segments, and
//! within limits.
use crate::engines::{TOPS, TWO_STOCKS};
use binaryfile::{Feed, Limits, LoadFault};
use itch_readings::{Selection, StockName, order_of_file, stocks_of_file, tops_of_file};
use std::alloc::Allocator;
use std::io::{ErrorKind, Read};
use std::test::Fail;
use test_refusing::{Refusal, Refusing, Tried, refuse_each};
use test_support::{AMPLE, FILE, Pieces, STORED_RUN, same, same_bytes};

// What is asked of a file.
#[derive(Debug, Clone, Copy, PartialEq)]
enum Question {
    Stocks,
    Tops(StockName, Selection),
    Order(StockName, u64),
}

const AAPL: StockName = StockName::Symbol(*b"AAPL    ");

const CHANGES: Question = Question::Tops(AAPL, Selection::Changes);

const QUESTIONS: [Question; 3] = [Question::Stocks, CHANGES, Question::Order(AAPL, 1)];

// A file, a question and the text; none where the file hasn't the stock.
type Case = (&'static [u8], Question, Option<&'static [u8]>);

// The names of the fields alone.
const NO_TOPS: &[u8] = b"message,time,bid_price,bid_shares,ask_price,ask_shares\n";

// Of the worked file, after its directory message and its bid.
const EVERY_TOP: &[u8] = b"message,time,bid_price,bid_shares,ask_price,ask_shares\n\
      1,0,,,,\n\
      2,1,1010000,100,,\n";

// Of the stored run, whose bid is executed.
const RUN_TOPS: &[u8] = b"message,time,bid_price,bid_shares,ask_price,ask_shares\n\
      2,1,1500000,100,,\n\
      3,2,,,,\n";

// Of the first stock of two, whose bid is deleted, and once more in vain.
const FIRST_TOPS: &[u8] = b"message,time,bid_price,bid_shares,ask_price,ask_shares\n\
      1,0,,,,\n\
      3,2,100,10,,\n\
      5,4,,,,\n\
      7,6,,,,\n";

// Of the second, whose bid stays.
const SECOND_TOPS: &[u8] = b"message,time,bid_price,bid_shares,ask_price,ask_shares\n\
      4,3,200,20,,\n";

// Of the third, which has no directory message.
const THIRD_TOPS: &[u8] = b"message,time,bid_price,bid_shares,ask_price,ask_shares\n\
      6,5,,,,\n";

// Questions for each place at which a file is cut.
const CASES: [Case; 6] = [
    (
        FILE,
        Question::Stocks,
        Some(b"stock 1 \"AAPL\" messages 2\n"),
    ),
    (FILE, CHANGES, Some(TOPS)),
    (
        FILE,
        Question::Tops(AAPL, Selection::Every),
        Some(EVERY_TOP),
    ),
    (
        FILE,
        Question::Tops(StockName::Locate(1), Selection::Every),
        Some(EVERY_TOP),
    ),
    (STORED_RUN, CHANGES, Some(RUN_TOPS)),
    (
        TWO_STOCKS,
        Question::Tops(StockName::Locate(1), Selection::Every),
        Some(FIRST_TOPS),
    ),
];

// Questions for some of them.
const MORE_CASES: [Case; 9] = [
    (
        FILE,
        Question::Tops(StockName::Locate(0), Selection::Every),
        None,
    ),
    (
        STORED_RUN,
        Question::Stocks,
        Some(b"stock 1 \"AAPL\" messages 3\n"),
    ),
    (
        TWO_STOCKS,
        Question::Stocks,
        Some(
            b"stock 1 \"AAPL\" messages 4\nstock 2 \"MSFT\" messages 2\nstock 3 none messages 1\n",
        ),
    ),
    (
        TWO_STOCKS,
        Question::Tops(AAPL, Selection::Every),
        Some(FIRST_TOPS),
    ),
    (
        TWO_STOCKS,
        Question::Tops(StockName::Symbol(*b"MSFT    "), Selection::Changes),
        Some(SECOND_TOPS),
    ),
    (
        TWO_STOCKS,
        Question::Tops(StockName::Locate(2), Selection::Changes),
        Some(SECOND_TOPS),
    ),
    (
        TWO_STOCKS,
        Question::Tops(StockName::Locate(3), Selection::Every),
        Some(THIRD_TOPS),
    ),
    (
        TWO_STOCKS,
        Question::Tops(StockName::Locate(3), Selection::Changes),
        Some(NO_TOPS),
    ),
    (
        TWO_STOCKS,
        Question::Tops(StockName::Symbol(*b"MSF     "), Selection::Changes),
        None,
    ),
];

// The answer to a question of what a reader gives, by segments of so many bytes, within limits; none where the file hasn't
// the stock.
fn answer<A: Allocator + Copy, R: Read>(
    alloc: A,
    feed: &mut Feed<R>,
    question: Question,
    limits: Limits,
    segment: u32,
) -> Result<Result<Option<Vec<u8, A>>, LoadFault>, Fail> {
    if segment == 0 || segment > 1 << 30 {
        return Err(Fail::new("a segment takes 1 to 2^30 bytes"));
    }
    if limits.bytes > 1 << 40 {
        return Err(Fail::new("a file has 2^40 bytes at most"));
    }
    Ok(match question {
        Question::Stocks => stocks_of_file(alloc, feed, limits, segment).map(Some),
        Question::Tops(name, selection) => {
            tops_of_file(alloc, feed, limits, segment, name, selection)
        }
        Question::Order(name, reference) => {
            order_of_file(alloc, feed, limits, segment, name, reference)
        }
    })
}

// Compares the answer to a question with the text that is wanted.
fn same_answer<A: Allocator>(case: Case, found: Option<Vec<u8, A>>) -> Result<(), Fail> {
    let (_, question, wanted) = case;
    same(
        "whether the file has the stock",
        &(question, found.is_some()),
        &(question, wanted.is_some()),
    )?;
    match (found, wanted) {
        (Some(found), Some(wanted)) => same_bytes("a text", &found, wanted),
        _ => Ok(()),
    }
}

// A question of a file by segments of so many bytes: its fault, or the text that is wanted. The feed doesn't fail.
fn try_case<A: Allocator + Copy>(
    alloc: A,
    case: Case,
    segment: u32,
) -> Result<Result<(), LoadFault>, Fail> {
    let mut feed = Feed::new(case.0);
    let found = answer(alloc, &mut feed, case.1, AMPLE, segment)?;
    same("a feed that has failed", &feed.failed(), &false)?;
    match found {
        Ok(found) => same_answer(case, found).map(Ok),
        Err(fault) => Ok(Err(fault)),
    }
}

// A question of a file that is answered.
fn try_segment<A: Allocator + Copy>(alloc: A, case: Case, segment: u32) -> Result<(), Fail> {
    let returned = try_case(alloc, case, segment)?;
    same(
        "a result",
        &(case.1, segment, returned),
        &(case.1, segment, Ok(())),
    )
}

// Segments end after each byte of an entry, of its length and of the end marker, and beyond the file.
#[test]
fn texts_are_the_same_in_segments_of_any_size(rt: HostRuntime) -> Result<(), Fail> {
    for case in CASES {
        for segment in 1..=(case.0.len() as u32).saturating_add(2) {
            try_segment(rt.alloc(), case, segment)?;
        }
    }
    for case in MORE_CASES {
        for segment in [1, 2, 3, 40, 1_000_000] {
            try_segment(rt.alloc(), case, segment)?;
        }
    }
    Ok(())
}

// What is asked of the file of two stocks within limits, and the fault.
fn try_limits<A: Allocator + Copy>(
    alloc: A,
    limits: Limits,
    fault: Option<LoadFault>,
) -> Result<(), Fail> {
    for question in QUESTIONS {
        for segment in [1, 50, 1_000] {
            let mut feed = Feed::new(Pieces::new(TWO_STOCKS, 7));
            let found = answer(alloc, &mut feed, question, limits, segment)?.err();
            same(
                "a fault, and whether the feed has failed",
                &(question, segment, limits, found, feed.failed()),
                &(question, segment, limits, fault, false),
            )?;
        }
    }
    Ok(())
}

// The file has seven messages. A message more than the limit is in the last segment, in one before, or in the only one.
#[test]
fn a_file_has_no_more_than_its_limits(rt: HostRuntime) -> Result<(), Fail> {
    let alloc = rt.alloc();
    let bytes = TWO_STOCKS.len() as u64;
    let short = bytes.saturating_sub(1);
    let many = Some(LoadFault::TooManyMessages);
    let long = Some(LoadFault::TooManyBytes);
    try_limits(alloc, Limits { bytes, messages: 7 }, None)?;
    for messages in 0..7 {
        try_limits(alloc, Limits { bytes, messages }, many)?;
    }
    for messages in [0, 7] {
        try_limits(
            alloc,
            Limits {
                bytes: short,
                messages,
            },
            long,
        )?;
        try_limits(alloc, Limits { bytes: 0, messages }, long)?;
    }
    Ok(())
}

// Each call gives 30 bytes, one more the end in the last segment, and one is made by the segment after it. The reader isn't
// asked again after its failure, and the call after these never comes.
#[test]
fn each_read_of_a_file_may_fail(rt: HostRuntime) -> Result<(), Fail> {
    let alloc = rt.alloc();
    let calls = (TWO_STOCKS.len() as u64).div_ceil(30).saturating_add(2);
    for question in QUESTIONS {
        for failing in 1..=calls.saturating_add(1) {
            let mut pieces = Pieces::failing(TWO_STOCKS, 30, failing, ErrorKind::Interrupted);
            let mut feed = Feed::new(&mut pieces);
            let found = answer(alloc, &mut feed, question, AMPLE, 60)?.err();
            let fault = if failing <= calls {
                Some(LoadFault::Read)
            } else {
                None
            };
            let failed = feed.failed();
            let found = (question, failing, found, failed, pieces.calls());
            let wanted = (
                question,
                failing,
                fault,
                fault.is_some(),
                failing.min(calls),
            );
            same("a failed read", &found, &wanted)?;
        }
    }
    Ok(())
}

// A question under a refusal. Where memory is refused, that is the fault, and the question is answered with memory after it.
fn try_refusal<R: AllocGlobal>(rt: &R, case: Case, refusal: Refusal) -> Result<Tried, Fail> {
    let heap = Refusing::new(rt.alloc(), refusal);
    let mut returned = try_case(&heap, case, 50)?;
    let tried = heap.tried(returned.is_err());
    if tried.refused {
        let wanted = Err(LoadFault::Memory);
        same("without memory", &(refusal, returned), &(refusal, wanted))?;
        returned = try_case(&heap, case, 50)?;
    }
    same("a result", &(refusal, returned), &(refusal, Ok(())))?;
    Ok(tried)
}

#[test]
fn there_is_no_text_without_memory(rt: HostRuntime) -> Result<(), Fail> {
    for case in CASES {
        refuse_each(|refusal: Refusal| -> Result<Tried, Fail> { try_refusal(&rt, case, refusal) })?;
    }
    Ok(())
}
