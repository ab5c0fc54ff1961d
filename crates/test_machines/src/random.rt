//! Days at random from a seed: all kinds of messages over few stocks, references, prices and match numbers, so that
//! every check of the table fails often, and every effect happens often. Now and then any field has a value of its whole
//! width, mostly one at an edge.
use binaryfile::Day;
use itch_layouts::{Breach, Decline, Field, Form, Ipo, Msg, System, head_fields, layout_of_kind};
use rand::rngs::SmallRng;
use rand::{RngExt, SeedableRng};
use std::alloc::{AllocError, Allocator};
use std::test::Fail;
use test_support::{Ticker, add_entry, day_of, head, payload_of};

// How many groups of four stocks a wide day has: more stocks than a debugger keeps tracks of.
const GROUPS: u16 = 17;

// Numbers about 0, 2^16, 2^31 and 2^32, 2^63, and the greatest of eight bytes. A narrower field has their lowest bytes.
const EDGES: [u64; 14] = [
    0,
    1,
    2,
    (1 << 16) - 1,
    1 << 16,
    (1 << 16) + 1,
    (1 << 31) - 1,
    1 << 31,
    (1 << 31) + 1,
    (1 << 32) - 1,
    1 << 32,
    (1 << 32) + 1,
    1 << 63,
    u64::MAX,
];

// A number at an edge, now and then any number.
fn any_number(random: &mut SmallRng) -> u64 {
    if random.random_ratio(1, 8) {
        random.random_range(0..=u64::MAX)
    } else {
        EDGES[random.random_range(0..EDGES.len())]
    }
}

// The number of the lowest four bytes of another.
fn low_half(number: u64) -> u32 {
    (number & 0xffff_ffff) as u32
}

// The stock of a locate code from 1 to 4, and that of the greatest one.
fn ticker(locate: u16) -> Ticker {
    let symbol = match locate {
        1 => *b"AAPL    ",
        2 => *b"MSFT    ",
        3 => *b"A\"B\\C   ",
        u16::MAX => [0xff; 8],
        _ => *b"\0       ",
    };
    Ticker { locate, symbol }
}

// One of the five stocks, now and then under another symbol.
fn any_ticker(random: &mut SmallRng) -> Ticker {
    let locate = if random.random_ratio(1, 16) {
        u16::MAX
    } else {
        random.random_range(1..=4u16)
    };
    let own = ticker(locate);
    if random.random_ratio(1, 12) {
        Ticker {
            locate: own.locate,
            symbol: *b"OTHER   ",
        }
    } else {
        own
    }
}

// `B` or `S`, now and then neither.
fn any_side(random: &mut SmallRng) -> u8 {
    match random.random_range(0..16u32) {
        0 => b'Z',
        1..8 => b'B',
        _ => b'S',
    }
}

// `Y` or `N`, now and then neither.
fn any_printable(random: &mut SmallRng) -> u8 {
    match random.random_range(0..8u32) {
        0 => b' ',
        1..6 => b'Y',
        _ => b'N',
    }
}

// Mostly few references, so that they live often, and are often asked for again once they are spent.
fn any_reference(random: &mut SmallRng) -> u64 {
    if random.random_ratio(1, 8) {
        any_number(random)
    } else {
        random.random_range(1..=6u64)
    }
}

fn any_shares(random: &mut SmallRng) -> u32 {
    if random.random_ratio(1, 8) {
        low_half(any_number(random))
    } else {
        random.random_range(0..=8u32)
    }
}

fn any_price(random: &mut SmallRng) -> u32 {
    if random.random_ratio(1, 8) {
        low_half(any_number(random))
    } else {
        random.random_range(1..=4u32)
    }
}

fn any_match_no(random: &mut SmallRng) -> u64 {
    if random.random_ratio(1, 8) {
        any_number(random)
    } else {
        random.random_range(1..=4u64)
    }
}

// A message about orders.
fn any_order_msg(random: &mut SmallRng) -> Msg {
    let ticker = any_ticker(random);
    let reference = any_reference(random);
    let shares = any_shares(random);
    let price = any_price(random);
    match random.random_range(0..16u32) {
        0..4 => ticker.add(reference, any_side(random), shares, price),
        4..6 => ticker.add_mpid(reference, any_side(random), shares, price),
        6..8 => ticker.execute(reference, shares, any_match_no(random)),
        8..10 => {
            let printable = any_printable(random);
            ticker.execute_price(reference, shares, any_match_no(random), printable, price)
        }
        10..12 => ticker.cancel(reference, shares),
        12 => ticker.delete(reference),
        _ => ticker.replace(reference, any_reference(random), shares, price),
    }
}

// A message about trades.
fn any_trade_msg(random: &mut SmallRng) -> Msg {
    let ticker = any_ticker(random);
    let match_no = any_match_no(random);
    match random.random_range(0..4u32) {
        0 => ticker.trade(
            any_side(random),
            any_shares(random),
            any_price(random),
            match_no,
        ),
        1 => ticker.cross(u64::from(any_shares(random)), any_price(random), match_no),
        _ => ticker.broken(match_no),
    }
}

// A message of any other kind.
fn any_state_msg(random: &mut SmallRng) -> Msg {
    let ticker = any_ticker(random);
    let stock = ticker.symbol;
    match random.random_range(0..16u32) {
        0 => Msg::System(
            head(ticker.locate),
            System {
                event: any_side(random),
            },
        ),
        1 => Msg::Decline(
            head(0),
            Decline {
                level1: 1,
                level2: 2,
                level3: 3,
            },
        ),
        2 => Msg::Breach(head(0), Breach { level: b'1' }),
        3 => Msg::Ipo(
            head(0),
            Ipo {
                stock,
                release: 1,
                qualifier: b'A',
                price: any_price(random),
            },
        ),
        4 => ticker.trading(any_side(random), *b"T1  "),
        5 => ticker.regsho(any_printable(random)),
        6 => ticker.participant(),
        7 => ticker.collar(),
        8 => ticker.operational(),
        9 => ticker.imbalance(),
        10 => ticker.retail(),
        _ => ticker.directory(),
    }
}

// A message of any kind.
fn any_msg(random: &mut SmallRng) -> Msg {
    match random.random_range(0..8u32) {
        0..2 => any_state_msg(random),
        2 => any_trade_msg(random),
        _ => any_order_msg(random),
    }
}

// Sets the two lowest bytes of a payload's time.
fn set_time(payload: &mut [u8], time: u16) {
    for (byte, digit) in payload.iter_mut().skip(9).zip(&time.to_be_bytes()) {
        *byte = *digit;
    }
}

// Sets a field of a payload to the lowest bytes of a number.
fn set_number(payload: &mut [u8], field: &Field, number: u64) {
    let digits = number.to_be_bytes();
    let cut = digits.len().saturating_sub(usize::from(field.width));
    let bytes = payload.iter_mut().skip(usize::from(field.offset));
    for (byte, digit) in bytes.zip(digits.iter().skip(cut)) {
        *byte = *digit;
    }
}

// Sets a field of a payload to zero bytes, to spaces, to the greatest bytes, to letters, or to any bytes.
fn set_text(payload: &mut [u8], field: &Field, random: &mut SmallRng) {
    let form = random.random_range(0..5u32);
    let bytes = payload.iter_mut().skip(usize::from(field.offset));
    for byte in bytes.take(usize::from(field.width)) {
        *byte = match form {
            0 => 0,
            1 => b' ',
            2 => u8::MAX,
            3 => random.random_range(b'A'..=b'Z'),
            _ => random.random_range(0..=u8::MAX),
        };
    }
}

// Sets some of these fields of a payload to values of their whole width.
fn widen_fields(payload: &mut [u8], fields: &[Field], random: &mut SmallRng) {
    for field in fields {
        if random.random_ratio(1, 24) {
            match field.form {
                Form::Integer => set_number(payload, field, any_number(random)),
                Form::Alpha => set_text(payload, field, random),
            }
        }
    }
}

// Sets some fields of a message's payload to values of their whole width.
fn widen(payload: &mut [u8], random: &mut SmallRng) {
    let Some(kind) = payload.first().copied() else {
        return;
    };
    widen_fields(payload, head_fields(), random);
    if let Some(layout) = layout_of_kind(kind) {
        widen_fields(payload, layout.body, random);
    }
}

// A payload: now and then one byte short or one too long, or of a type that no message has.
fn any_payload<A: Allocator + Copy>(
    alloc: A,
    random: &mut SmallRng,
) -> Result<Vec<u8, A>, AllocError> {
    let mut payload = payload_of(alloc, &any_msg(random))?;
    set_time(&mut payload, random.random_range(0..1_000u16));
    widen(&mut payload, random);
    match random.random_range(0..60u32) {
        0 => {
            payload.pop();
        }
        1 => payload.push(b' ')?,
        2 => set_time(&mut payload, u16::MAX),
        3 => {
            if let Some(kind) = payload.get_mut(0) {
                *kind = b'O';
            }
        }
        _ => {}
    }
    Ok(payload)
}

// Adds an end of a file: nothing, an end marker, a marker with bytes after it, or a cut entry.
fn add_end<A: Allocator>(file: &mut Vec<u8, A>, random: &mut SmallRng) -> Result<(), AllocError> {
    match random.random_range(0..4u32) {
        0 => Ok(()),
        1 => file.extend_from_slice(&[0, 0]),
        2 => file.extend_from_slice(&[0, 0, 0, 1, b'S']),
        _ => file.extend_from_slice(&[0, 12, b'S', 0]),
    }
}

// Moves a payload's locate code by whole groups of four, in which each symbol has a stock.
fn move_to_group(payload: &mut [u8], group: u16) {
    let (Some(high), Some(low)) = (payload.get(1), payload.get(2)) else {
        return;
    };
    let locate = u16::from_be_bytes([*high, *low]).wrapping_add(group.wrapping_mul(4));
    for (byte, digit) in payload.iter_mut().skip(1).zip(&locate.to_be_bytes()) {
        *byte = *digit;
    }
}

// Adds an entry to a file.
fn add_payload<A: Allocator>(file: &mut Vec<u8, A>, payload: &[u8]) -> Result<(), Fail> {
    let length = u16::try_from(payload.len()).map_err(|_| Fail::new("a long payload"))?;
    file.extend_from_slice(&length.to_be_bytes())?;
    file.extend_from_slice(payload)?;
    Ok(())
}

/// A day of the directory messages of 68 stocks, in groups of four that have the same symbols, and this many messages
/// more, the same for the same seed.
pub fn wide_day<A: Allocator + Copy>(alloc: A, seed: u64, messages: u32) -> Result<Day<A>, Fail> {
    let mut random = SmallRng::seed_from_u64(seed);
    let mut file = Vec::new(alloc);
    for group in 0..GROUPS {
        for locate in 1..=4 {
            let mut payload = payload_of(alloc, &ticker(locate).directory())?;
            move_to_group(&mut payload, group);
            add_payload(&mut file, &payload)?;
        }
    }
    for _ in 0..messages {
        let mut payload = any_payload(alloc, &mut random)?;
        move_to_group(&mut payload, random.random_range(0..GROUPS));
        add_payload(&mut file, &payload)?;
    }
    day_of(alloc, file)
}

/// A day of the directory messages of four stocks and this many messages more, the same for the same seed.
pub fn random_day<A: Allocator + Copy>(alloc: A, seed: u64, messages: u32) -> Result<Day<A>, Fail> {
    let mut random = SmallRng::seed_from_u64(seed);
    let mut file = Vec::new(alloc);
    for locate in [1, 2, 3, u16::MAX] {
        add_entry(alloc, &mut file, &ticker(locate).directory())?;
    }
    for _ in 0..messages {
        let payload = any_payload(alloc, &mut random)?;
        add_payload(&mut file, &payload)?;
    }
    add_end(&mut file, &mut random)?;
    day_of(alloc, file)
}
