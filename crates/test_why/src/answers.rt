//! What is said of the messages of days, wherever a file is cut into segments.
use crate::day::{MESSAGES, RENAMED, file, why};
use crate::texts::text_of;
use binaryfile::{Feed, Sink};
use itch_readings::StockFault;
use itch_why::why_run;
use std::alloc::Allocator;
use std::test::Fail;
use test_support::{AAPL, AMPLE, Pieces, add_entry, same, same_bytes};

// What is said of a message, by segments of so many bytes, and by readers that give little at a time.
fn try_message<A: Allocator + Copy>(
    alloc: A,
    file: &[u8],
    number: u32,
    segment: u32,
) -> Result<(), Fail> {
    let mut feed = Feed::new(Pieces::new(file, 7));
    let mut again = Feed::new(Pieces::new(file, 3));
    match why(alloc, &mut feed, &mut again, AMPLE, segment, number)? {
        Ok(text) => {
            let case = format!(in alloc; "message {number}, segments of {segment}")?;
            same_bytes(&case, &text, &text_of(alloc, number)?)
        }
        Err(fault) => Err(Fail::new(format_args!("message {number}: {fault:?}"))),
    }
}

#[test]
fn each_message_has_its_text(rt: HostRuntime) -> Result<(), Fail> {
    let file = file(rt.alloc())?;
    for segment in [1, 7, 50, 1_000_000] {
        for number in 1..=MESSAGES {
            try_message(rt.alloc(), &file, number, segment)?;
        }
    }
    Ok(())
}

// That a file hasn't a message, and nothing is written.
fn try_past_end<A: Allocator + Copy>(alloc: A, file: &[u8], number: u32) -> Result<(), Fail> {
    let wanted = StockFault::PastEnd;
    for segment in [1, 7, 50, 1_000_000] {
        let (mut feed, mut again) = (Feed::new(file), Feed::new(file));
        let found = why(alloc, &mut feed, &mut again, AMPLE, segment, number)?.err();
        same("no message", &found, &Some(wanted))?;
    }
    let mut output = Vec::new(alloc);
    let (mut feed, mut again) = (Feed::new(file), Feed::new(file));
    let mut sink = Sink::new(&mut output);
    let returned = why_run(alloc, &mut feed, &mut again, &mut sink, number);
    same("a run", &(returned, output.len()), &(Err(wanted), 0))
}

#[test]
fn no_text_is_of_a_message_that_is_not_there(rt: HostRuntime) -> Result<(), Fail> {
    let file = file(rt.alloc())?;
    for number in [0, MESSAGES.saturating_add(1), u32::MAX] {
        try_past_end(rt.alloc(), &file, number)?;
        try_past_end(rt.alloc(), b"", number)?;
    }
    try_past_end(rt.alloc(), b"", 1)
}

// Each kind of message that names a stock, but for a directory message, under a locate code that is another's.
#[test]
fn each_kind_says_which_stock_it_names(rt: HostRuntime) -> Result<(), Fail> {
    let alloc = rt.alloc();
    let wanted: &[u8] = b"\nF3 StockDiffers: stock \"MSFT\", and locate code 1 is \"AAPL\"\n";
    for message in [
        RENAMED.trading(b'T', *b"    "),
        RENAMED.regsho(b'0'),
        RENAMED.participant(),
        RENAMED.collar(),
        RENAMED.operational(),
        RENAMED.add(1, b'B', 1, 1),
        RENAMED.add_mpid(1, b'B', 1, 1),
        RENAMED.trade(b'B', 1, 1, 1),
        RENAMED.cross(1, 1, 1),
        RENAMED.imbalance(),
        RENAMED.retail(),
    ] {
        let mut file = Vec::new(alloc);
        add_entry(alloc, &mut file, &AAPL.directory())?;
        add_entry(alloc, &mut file, &message)?;
        let (mut feed, mut again) = (Feed::new(file.as_slice()), Feed::new(file.as_slice()));
        let found = why(alloc, &mut feed, &mut again, AMPLE, 100, 2)?;
        let text = found.map_err(|_| Fail::new("no text"))?;
        let said = text.windows(wanted.len()).any(|part| part == wanted);
        same("a refusal", &(message, said), &(message, true))?;
    }
    Ok(())
}
