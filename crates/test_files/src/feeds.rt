//! Feeds: what one read returns, and readers that fail.
use crate::THREE;
use binaryfile::{Day, Feed, LoadFault};
use std::alloc::Allocator;
use std::io::{self, ErrorKind};
use std::test::Fail;
use test_support::{AMPLE, Pieces, STORED_RUN, same};

// How many bytes a read gave, or the kind of its error.
fn kind_or_count(returned: io::Result<usize>) -> Result<usize, ErrorKind> {
    returned.map_err(|error| error.kind())
}

#[test]
fn one_read_gives_what_the_reader_gives(_rt: HostRuntime) -> Result<(), Fail> {
    let mut reader = Pieces::new(b"ABCDE", 2);
    let mut feed = Feed::new(&mut reader);
    let mut buffer = [b'-'; 4];
    let mut short = [b'-'; 1];
    let empty = (kind_or_count(feed.read(&mut [])), feed.failed());
    same("an empty buffer", &empty, &(Ok(0), false))?;
    let counts = [
        kind_or_count(feed.read(&mut buffer)),
        kind_or_count(feed.read(&mut short)),
    ];
    same(
        "a read, and one into a short buffer",
        &counts,
        &[Ok(2), Ok(1)],
    )?;
    same("what they gave", &(buffer, short), &(*b"AB--", *b"C"))?;
    let counts = [
        kind_or_count(feed.read(&mut buffer)),
        kind_or_count(feed.read(&mut buffer)),
        kind_or_count(feed.read(&mut buffer)),
    ];
    same(
        "the last bytes, and the end twice",
        &counts,
        &[Ok(2), Ok(0), Ok(0)],
    )?;
    same(
        "what they are",
        &(buffer, feed.failed()),
        &(*b"DE--", false),
    )
}

// The first error is the reader's own. After it the reader, which would go on, is not asked again.
fn try_kind(kind: ErrorKind) -> Result<(), Fail> {
    let mut reader = Pieces::failing(b"ABCDE", 2, 2, kind);
    let mut feed = Feed::new(&mut reader);
    let mut buffer = [b'-'; 4];
    let first = kind_or_count(feed.read(&mut buffer));
    let failure = (kind_or_count(feed.read(&mut buffer)), feed.failed());
    let later = (
        kind_or_count(feed.read(&mut buffer)),
        kind_or_count(feed.read(&mut [])),
        feed.failed(),
    );
    same("before the failure", &first, &Ok(2))?;
    same("the failure", &failure, &(Err(kind), true))?;
    let other = Err(ErrorKind::Other);
    same("later reads", &later, &(other, other, true))?;
    same("how often the reader was asked", &reader.calls(), &2)
}

#[test]
fn a_feed_fails_for_good_at_any_error(_rt: HostRuntime) -> Result<(), Fail> {
    try_kind(ErrorKind::Interrupted)?;
    try_kind(ErrorKind::UnexpectedEof)?;
    try_kind(ErrorKind::PermissionDenied)?;
    try_kind(ErrorKind::Other)
}

// Two loads of a feed whose reader gives one byte a call and fails at one call.
fn try_load<A: Allocator + Copy>(alloc: A, file: &[u8], failing: u64) -> Result<(), Fail> {
    let reader = Pieces::failing(file, 1, failing, ErrorKind::Interrupted);
    let mut feed = Feed::new(reader);
    let first = Day::load(alloc, &mut feed, AMPLE).err();
    let second = Day::load(alloc, &mut feed, AMPLE).err();
    let found = (failing, first, second, feed.failed());
    let read = Some(LoadFault::Read);
    same(
        "loads of a feed that fails",
        &found,
        &(failing, read, read, true),
    )
}

// Loads of a file whose reader fails at each of its calls, and at the one after the last.
fn try_loads<A: Allocator + Copy>(alloc: A, file: &[u8], calls: u64) -> Result<(), Fail> {
    for failing in 1..=calls {
        try_load(alloc, file, failing)?;
    }
    let past = calls.saturating_add(1);
    let mut feed = Feed::new(Pieces::failing(file, 1, past, ErrorKind::Interrupted));
    let loaded = Day::load(alloc, &mut feed, AMPLE).err();
    same(
        "a reader that is not asked past its end",
        &(loaded, feed.failed()),
        &(None, false),
    )
}

// There is a call for each byte, of 13 and of 114, and one more gives the end.
#[test]
fn a_load_fails_with_any_of_its_reads(rt: HostRuntime) -> Result<(), Fail> {
    try_loads(rt.alloc(), THREE, 14)?;
    try_loads(rt.alloc(), STORED_RUN, 115)
}
