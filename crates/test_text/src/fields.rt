//! Every field of every message, with something wrong with it.
use itch_text::{AsmFault, assemble};
use std::alloc::{AllocError, Allocator};
use std::test::Fail;
use test_support::same;

// The head of each line, with the greatest numbers that it takes.
const HEAD: &str = "locate=65535 tracking=65535 time=281474976710655";

// The size of each message, its mnemonic and its body, with the greatest numbers and the widest texts that its fields
// take. The sizes and the widths are those of Nasdaq TotalView-ITCH 5.0, "Message Formats".
const MESSAGES: [(usize, &str, &str); 22] = [
    (12, "system", "event=\"A\""),
    (
        39,
        "directory",
        "stock=\"ABCDEFGH\" category=\"A\" status=\"A\" lot=4294967295 lots_only=\"A\" \
         issue_class=\"A\" issue_subtype=\"AB\" authenticity=\"A\" short_sale=\"A\" ipo=\"A\" \
         luld=\"A\" etp=\"A\" leverage=4294967295 inverse=\"A\"",
    ),
    (
        25,
        "trading",
        "stock=\"ABCDEFGH\" state=\"A\" reserved=\"A\" reason=\"ABCD\"",
    ),
    (20, "regsho", "stock=\"ABCDEFGH\" action=\"A\""),
    (
        26,
        "participant",
        "mpid=\"ABCD\" stock=\"ABCDEFGH\" primary=\"A\" mode=\"A\" state=\"A\"",
    ),
    (
        35,
        "decline",
        "level1=18446744073709551615 level2=18446744073709551615 level3=18446744073709551615",
    ),
    (12, "breach", "level=\"A\""),
    (
        28,
        "ipo",
        "stock=\"ABCDEFGH\" release=4294967295 qualifier=\"A\" price=4294967295",
    ),
    (
        35,
        "collar",
        "stock=\"ABCDEFGH\" reference_price=4294967295 upper=4294967295 lower=4294967295 \
         extension=4294967295",
    ),
    (
        21,
        "operational",
        "stock=\"ABCDEFGH\" market=\"A\" action=\"A\"",
    ),
    (
        36,
        "add",
        "reference=18446744073709551615 side=\"A\" shares=4294967295 stock=\"ABCDEFGH\" \
         price=4294967295",
    ),
    (
        40,
        "add_mpid",
        "reference=18446744073709551615 side=\"A\" shares=4294967295 stock=\"ABCDEFGH\" \
         price=4294967295 attribution=\"ABCD\"",
    ),
    (
        31,
        "execute",
        "reference=18446744073709551615 shares=4294967295 match_no=18446744073709551615",
    ),
    (
        36,
        "execute_price",
        "reference=18446744073709551615 shares=4294967295 match_no=18446744073709551615 \
         printable=\"A\" price=4294967295",
    ),
    (
        23,
        "cancel",
        "reference=18446744073709551615 shares=4294967295",
    ),
    (19, "delete", "reference=18446744073709551615"),
    (
        35,
        "replace",
        "reference=18446744073709551615 new_reference=18446744073709551615 shares=4294967295 \
         price=4294967295",
    ),
    (
        44,
        "trade",
        "reference=18446744073709551615 side=\"A\" shares=4294967295 stock=\"ABCDEFGH\" \
         price=4294967295 match_no=18446744073709551615",
    ),
    (
        40,
        "cross",
        "shares=18446744073709551615 stock=\"ABCDEFGH\" price=4294967295 \
         match_no=18446744073709551615 cross_type=\"A\"",
    ),
    (19, "broken", "match_no=18446744073709551615"),
    (
        50,
        "imbalance",
        "paired=18446744073709551615 imbalance=18446744073709551615 direction=\"A\" \
         stock=\"ABCDEFGH\" far=4294967295 near=4294967295 reference_price=4294967295 \
         cross_type=\"A\" variation=\"A\"",
    ),
    (20, "retail", "stock=\"ABCDEFGH\" interest=\"A\""),
];

// What is wrong with a field.
#[derive(Debug, Clone, Copy, PartialEq)]
enum Wrong {
    // It isn't there.
    Missing,
    // It is there twice.
    Doubled,
    // It has another name.
    Renamed,
    // Its number is one above its greatest, or its text one byte too wide.
    TooGreat,
    // It and the field that is this word of the line stand in each other's place.
    Exchanged(usize),
}

// Adds a word to a line.
fn put_word<A: Allocator>(line: &mut Vec<u8, A>, word: &[u8]) -> Result<(), AllocError> {
    if !line.is_empty() {
        line.push(b' ')?;
    }
    line.extend_from_slice(word)
}

// Adds a field with a value above its greatest. That of a number ends with 5, and that of a text with a quote.
fn put_too_great<A: Allocator>(line: &mut Vec<u8, A>, field: &[u8]) -> Result<(), AllocError> {
    let Some((last, prefix)) = field.split_last() else {
        return Ok(());
    };
    put_word(line, prefix)?;
    line.extend_from_slice(if *last == b'"' { b"Z\"" } else { b"6" })
}

// Adds a field that is wrong.
fn put_wrong<A: Allocator>(
    line: &mut Vec<u8, A>,
    field: &[u8],
    wrong: Wrong,
) -> Result<(), AllocError> {
    match wrong {
        Wrong::Missing => Ok(()),
        Wrong::Doubled => {
            put_word(line, field)?;
            put_word(line, field)
        }
        Wrong::Renamed => {
            put_word(line, b"x")?;
            line.extend_from_slice(field)
        }
        Wrong::TooGreat => put_too_great(line, field),
        Wrong::Exchanged(_) => put_word(line, field),
    }
}

// Which word of a line stands at an index where the field at `field` is wrong.
fn word_at(index: usize, field: usize, wrong: Wrong) -> usize {
    match wrong {
        Wrong::Exchanged(other) if index == field => other,
        Wrong::Exchanged(other) if index == other => field,
        _ => index,
    }
}

// The line of these words in which the field that is word `field` is wrong.
fn faulty_line<A: Allocator>(
    alloc: A,
    words: &[&[u8]],
    field: usize,
    wrong: Wrong,
) -> Result<Vec<u8, A>, AllocError> {
    let mut line = Vec::new(alloc);
    for index in 0..words.len() {
        let word = words.get(word_at(index, field, wrong)).copied();
        if index == field {
            put_wrong(&mut line, word.unwrap_or(b""), wrong)?;
        } else {
            put_word(&mut line, word.unwrap_or(b""))?;
        }
    }
    Ok(line)
}

// A line in which a field is wrong.
fn try_wrong<A: Allocator + Copy>(
    alloc: A,
    mnemonic: &str,
    words: &[&[u8]],
    field: usize,
    wrong: Wrong,
) -> Result<(), Fail> {
    let line = faulty_line(alloc, words, field, wrong)?;
    let found = (field, wrong, assemble(alloc, &line).err());
    same(mnemonic, &found, &(field, wrong, Some(AsmFault::Field(1))))
}

// A line whose first word is its mnemonic, with each other word wrong in every way. Returns how many lines were faulty.
fn try_words<A: Allocator + Copy>(alloc: A, mnemonic: &str, words: &[&[u8]]) -> Result<u64, Fail> {
    let mut faulty = 0u64;
    for field in 1..words.len() {
        for wrong in [
            Wrong::Missing,
            Wrong::Doubled,
            Wrong::Renamed,
            Wrong::TooGreat,
        ] {
            try_wrong(alloc, mnemonic, words, field, wrong)?;
            faulty = faulty.saturating_add(1);
        }
        for other in field.saturating_add(1)..words.len() {
            try_wrong(alloc, mnemonic, words, field, Wrong::Exchanged(other))?;
            faulty = faulty.saturating_add(1);
        }
    }
    Ok(faulty)
}

// The 22 messages have 157 fields. Of a message with n fields there are 4 n faulty lines, and n (n - 1) / 2 with two
// fields exchanged.
#[test]
fn each_field_stands_once_in_its_place_within_its_limits(rt: HostRuntime) -> Result<(), Fail> {
    let mut faulty = 0u64;
    for (size, mnemonic, body) in MESSAGES {
        let line = format!(in rt.alloc(); "{mnemonic} {HEAD} {body}")?;
        let file = assemble(rt.alloc(), line.as_bytes())?;
        same(mnemonic, &file.len(), &size.saturating_add(2))?;
        let mut words = Vec::new(rt.alloc());
        for word in line.as_bytes().split(|byte| *byte == b' ') {
            words.push(word)?;
        }
        faulty = faulty.saturating_add(try_words(rt.alloc(), mnemonic, &words)?);
    }
    same("how many lines are faulty", &faulty, &1_204)
}
