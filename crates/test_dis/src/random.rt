//! Files at random from a seed: messages, payloads of no message, an end marker or none, and bytes after that.
use rand::rngs::SmallRng;
use rand::{RngExt, SeedableRng};
use std::alloc::Allocator;
use std::test::Fail;
use test_support::{AAPL, add_entry, system};

// The most entries of a file, and the most bytes that come after them.
const ENTRIES: u32 = 12;

const TAIL: u32 = 90;

// Adds an entry: a message, or a payload of no message.
fn add_any<A: Allocator + Copy>(
    alloc: A,
    random: &mut SmallRng,
    file: &mut Vec<u8, A>,
) -> Result<(), Fail> {
    match random.random_range(0..4u32) {
        0 => add_entry(alloc, file, &AAPL.directory()),
        1 => add_entry(alloc, file, &AAPL.delete(random.random_range(1..=8u64))),
        2 => add_entry(alloc, file, &system(0, random.random_range(b'A'..=b'Z'))),
        _ => {
            file.extend_from_slice(b"\x00\x03Z\x00\xff")?;
            Ok(())
        }
    }
}

/// A file, the same for the same seed.
pub fn random_file<A: Allocator + Copy>(alloc: A, seed: u64) -> Result<Vec<u8, A>, Fail> {
    let mut random = SmallRng::seed_from_u64(seed);
    let mut file = Vec::new(alloc);
    for _ in 0..random.random_range(0..=ENTRIES) {
        add_any(alloc, &mut random, &mut file)?;
    }
    if random.random_ratio(1, 2) {
        file.extend_from_slice(&[0, 0])?;
    }
    if random.random_ratio(1, 2) {
        for _ in 0..random.random_range(0..=TAIL) {
            file.push(random.random_range(0..=3u8))?;
        }
    }
    Ok(file)
}
