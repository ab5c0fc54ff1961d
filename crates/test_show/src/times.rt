//! Times of day as users write them.
use itch_show::time_of_word;
use std::test::Fail;
use test_support::same;

// Words, and the nanoseconds since midnight that they write.
const TIMES: [(&[u8], Option<u64>); 33] = [
    (b"0", Some(0)),
    (b"34200000000000", Some(34_200_000_000_000)),
    (b"00000000034200000000", Some(34_200_000_000)),
    (b"281474976710655", Some(281_474_976_710_655)),
    (b"281474976710656", None),
    (b"18446744073709551616", None),
    (b"000000034200000000000", None),
    (b"09:30:00", Some(34_200_000_000_000)),
    (b"00:00:00", Some(0)),
    (b"23:59:59.999999999", Some(86_399_999_999_999)),
    (b"09:30:00.5", Some(34_200_500_000_000)),
    (b"09:30:00.25", Some(34_200_250_000_000)),
    (b"09:30:00.000000001", Some(34_200_000_000_001)),
    (b"24:00:00", None),
    (b"25:00:00", None),
    (b"09:60:00", None),
    (b"09:30:60", None),
    (b"9:30:00", None),
    (b"09:30", None),
    (b"09:30:0", None),
    (b"09:30:00.", None),
    (b"09:30:00.0000000001", None),
    (b"09:30:00,5", None),
    (b"09:30:00.x", None),
    (b"09-30-00", None),
    (b"09:30-00", None),
    (b"0x:30:00", None),
    (b"09:+3:00", None),
    (b"+34200000000000", None),
    (b"-1", None),
    (b"", None),
    (b" 09:30:00", None),
    (b"09:30:00 ", None),
];

#[test]
fn a_word_is_a_time_or_none() -> Result<(), Fail> {
    for (word, wanted) in TIMES {
        let found = time_of_word(word).map(|time| time.get());
        same("a time", &(word, found), &(word, wanted))?;
    }
    Ok(())
}
