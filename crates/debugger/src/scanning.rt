//! Where a breakpoint stops, found by one pass over the day.
ghost use Rattle.std.specs.Prelude.{◌≡◌, ◌+◌, ◌-◌, ◌<◌, ◌^◌, ℕ, List, IfOk, OnOk};
ghost use Rattle.itch_layouts.specs.Shapes.{shape_of};
ghost use Rattle.itch_table.specs.Projection.{payload_at};
ghost use Rattle.itch_table.specs.World.{empty_world};
ghost use Rattle.day_core.specs.Owners.{machine_of};
ghost use Rattle.debugger.specs.Stops.{changes, names, reaches, stops_of};
ghost use Rattle.debugger.specs.declared.breakpoint.Break.{Break};

use crate::breakpoint::Break;
use binaryfile::Day;
use checkpoints::numbers_where;
use itch_layouts::{Nanos, Shape, read_msg};
use itch_table::{Side, is_of_stock};
use std::alloc::{AllocError, Allocator};
use stock_machine::Stock;

// Whether a payload is a message of this stock with this order reference.
fn is_named(payload: &[u8], locate: u16, reference: u64) -> bool
    ensures { result ≡ names locate reference (shape_of payload.now) }
{
    match read_msg(payload) {
        Shape::Known(msg) => msg.head().locate == locate && msg.has_reference(reference),
        _ => false,
    }
}

// Whether a payload is a message of at least this time.
fn is_reached(payload: &[u8], time: Nanos) -> bool
    ensures { result ≡ reaches time (shape_of payload.now) }
{
    match read_msg(payload) {
        Shape::Known(msg) => time.get() <= msg.head().time.get(),
        _ => false,
    }
}

// The messages of a stock with an order reference.
fn reference_stops<A: Allocator + Copy>(
    alloc: A,
    day: &Day<A>,
    locate: u16,
    reference: u64,
) -> Result<Vec<u32, A>, AllocError>
    ensures { IfOk result (λ stops.
        stops.items ≡ stops_of day.now.payloads (Break.Reference locate reference)) }
{
    numbers_where(alloc, day, |payload| is_named(payload, locate, reference))
}

// The first message of at least a time.
fn time_stops<A: Allocator + Copy>(
    alloc: A,
    day: &Day<A>,
    time: Nanos,
) -> Result<Vec<u32, A>, AllocError>
    ensures { IfOk result (λ stops. stops.items ≡ stops_of day.now.payloads (Break.Time time)) }
{
    let mut stops = Vec::new(alloc);
    let mut number = 0;
    for payload in day.payloads() {
        number += 1;
        if is_reached(payload, time) {
            stops.push(number)?;
            return Ok(stops);
        }
    }
    Ok(stops)
}

// Gives a stock's machine the next payload of a day, which it takes where it is a message of the stock, and
// returns whether the shares at a side and a price change.
fn changes_level<A: Allocator + Copy>(
    stock: &mut Stock<A>,
    payload: &[u8],
    side: Side,
    price: u32,
) -> Result<bool, AllocError>
    requires few { stock.old.steps < 2 ^ 32 - 1 }
    ensures changes { (day : List (List ℕ)) (n : ℕ) → payload.now ≡ payload_at day (n + 1) →
        stock.old ≡ machine_of day stock.old.locate n →
        IfOk result (λ changed. changed ≡ changes stock.old.locate side price day (n + 1)) }
    ensures taken { (day : List (List ℕ)) (n : ℕ) → payload.now ≡ payload_at day (n + 1) →
        stock.old ≡ machine_of day stock.old.locate n →
        OnOk result (stock.new ≡ machine_of day stock.old.locate (n + 1)) }
{
    if !is_of_stock(payload, stock.locate()) {
        return Ok(false);
    }
    let before = stock.level(side, price);
    stock.step(payload)?;
    Ok(stock.level(side, price) != before)
}

// The messages that change the shares of a stock's level, along which its new machine is led.
fn price_stops_by<A: Allocator + Copy>(
    alloc: A,
    day: &Day<A>,
    locate: u16,
    side: Side,
    price: u32,
    stock: &mut Stock<A>,
) -> Result<Vec<u32, A>, AllocError>
    requires locate { stock.old.locate ≡ locate }
    requires world { stock.old.world ≡ empty_world }
    requires steps { stock.old.steps ≡ 0 }
    ensures { IfOk result (λ stops.
        stops.items ≡ stops_of day.now.payloads (Break.Price locate side price)) }
{
    let mut stops = Vec::new(alloc);
    let mut number = 0;
    for payload in day.payloads() {
        number += 1;
        if changes_level(stock, payload, side, price)? {
            stops.push(number)?;
        }
    }
    Ok(stops)
}

// The messages that change the shares of a stock's level.
fn price_stops<A: Allocator + Copy>(
    alloc: A,
    day: &Day<A>,
    locate: u16,
    side: Side,
    price: u32,
) -> Result<Vec<u32, A>, AllocError>
    ensures { IfOk result (λ stops.
        stops.items ≡ stops_of day.now.payloads (Break.Price locate side price)) }
{
    let mut stock = Stock::new(alloc, locate);
    price_stops_by(alloc, day, locate, side, price, &mut stock)
}

/// The messages of a day at which a breakpoint stops, by their numbers, rising: one pass over the day, and four bytes
/// for each of them.
pub fn stops_of<A: Allocator + Copy>(
    alloc: A,
    day: &Day<A>,
    breakpoint: &Break,
) -> Result<Vec<u32, A>, AllocError>
    ensures { IfOk result (λ stops. stops.items ≡ stops_of day.now.payloads breakpoint.now) }
{
    match *breakpoint {
        Break::Price {
            locate,
            side,
            price,
        } => price_stops(alloc, day, locate, side, price),
        Break::Reference { locate, reference } => reference_stops(alloc, day, locate, reference),
        Break::Time { time } => time_stops(alloc, day, time),
    }
}
