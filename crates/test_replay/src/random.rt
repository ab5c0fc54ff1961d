//! Days at random from a seed: orders and trades of few stocks, references and prices, messages of no stock, of unknown
//! types and of wrong lengths.
use crate::cutting::add_payload;
use binaryfile::Day;
use itch_layouts::Msg;
use rand::rngs::SmallRng;
use rand::{RngExt, SeedableRng};
use std::alloc::{AllocError, Allocator};
use std::test::Fail;
use test_support::{Ticker, day_of, payload_of, system};

// The locate codes of the stocks. The first two and the last two are each of one batch.
const LOCATES: [u16; 6] = [1, 129, 2, 300, 127, u16::MAX];

fn any_ticker(random: &mut SmallRng) -> Ticker {
    Ticker {
        locate: LOCATES[random.random_range(0..LOCATES.len())],
        symbol: *b"STOCK   ",
    }
}

fn any_side(random: &mut SmallRng) -> u8 {
    if random.random_ratio(1, 2) {
        b'B'
    } else {
        b'S'
    }
}

// A message of a stock.
fn any_msg(random: &mut SmallRng) -> Msg {
    let ticker = any_ticker(random);
    let reference = random.random_range(1..=8u64);
    let shares = random.random_range(0..=8u32);
    let price = random.random_range(1..=4u32);
    match random.random_range(0..12u32) {
        0..2 => ticker.directory(),
        2..6 => ticker.add(reference, any_side(random), shares, price),
        6 => ticker.execute(reference, shares, reference),
        7 => ticker.cancel(reference, shares),
        8 => ticker.delete(reference),
        9 => ticker.replace(reference, random.random_range(1..=8u64), shares, price),
        10 => ticker.trade(any_side(random), shares, price, reference),
        _ => ticker.broken(reference),
    }
}

// A payload: a message of a stock, now and then one of no stock, of an unknown type, or of a wrong length.
fn any_payload<A: Allocator + Copy>(
    alloc: A,
    random: &mut SmallRng,
) -> Result<Vec<u8, A>, AllocError> {
    match random.random_range(0..16u32) {
        0 => payload_of(alloc, &system(0, random.random_range(b'A'..=b'Z'))),
        1 => Vec::from_slice(alloc, b"?unknown"),
        2 => Vec::from_slice(alloc, b"A"),
        _ => payload_of(alloc, &any_msg(random)),
    }
}

/// A day of this many messages, the same for the same seed.
pub fn random_day<A: Allocator + Copy>(alloc: A, seed: u64, messages: u32) -> Result<Day<A>, Fail> {
    let mut random = SmallRng::seed_from_u64(seed);
    let mut file = Vec::new(alloc);
    for _ in 0..messages {
        let payload = any_payload(alloc, &mut random)?;
        add_payload(&mut file, &payload)?;
    }
    day_of(alloc, file)
}
