//! The fields of a line.
ghost use Rattle.std.specs.Prelude.{◌≡◌, codes};
ghost use Rattle.byte_strings.specs.Extending.{Extends};
ghost use Rattle.itch_layouts.specs.Shapes.{shape_of};
ghost use Rattle.itch_table.specs.World.{empty_world, orders_of};
ghost use Rattle.itch_trace.specs.Lines.{depth_fields, fields_of_level, head_line, is_plain, locate_field, message_fields, numbered_names, outcome_field, place_fields, place_names, time_field, type_char, type_field};

use itch_layouts::{Shape, read_msg};
use itch_table::{Level, Outcome, Side};
use itch_text::denotes_itself;
use std::alloc::{AllocError, Allocator};
use stock_machine::Stock;
use stock_text::put_level_fields;
use text_fields::{put_count, put_hex, put_number};

// Adds the comma before an empty field.
fn put_comma<A: Allocator>(text: &mut Vec<u8, A>) -> Result<(), AllocError>
    ensures { Extends text.old text.new (codes ",") result }
{
    text.push(b',')?;
    Ok(())
}

// Adds the time of a message, or nothing.
fn put_time<A: Allocator>(text: &mut Vec<u8, A>, payload: &[u8]) -> Result<(), AllocError>
    ensures { Extends text.old text.new (time_field (shape_of payload.now)) result }
{
    match read_msg(payload) {
        Shape::Known(message) => put_count(text, b",", message.head().time.get()),
        Shape::Unknown | Shape::BadLength => put_comma(text),
    }
}

// Adds the locate code of a message, or nothing.
fn put_locate<A: Allocator>(text: &mut Vec<u8, A>, payload: &[u8]) -> Result<(), AllocError>
    ensures { Extends text.old text.new (locate_field (shape_of payload.now)) result }
{
    match read_msg(payload) {
        Shape::Known(message) => put_count(text, b",", message.head().locate),
        Shape::Unknown | Shape::BadLength => put_comma(text),
    }
}

// Whether a type stands for itself.
fn is_plain(byte: u8) -> bool
    ensures { result ≡ is_plain byte }
{
    denotes_itself(byte) && byte != b',' && byte != b' '
}

// Adds a type.
fn put_type_char<A: Allocator>(text: &mut Vec<u8, A>, byte: u8) -> Result<(), AllocError>
    ensures { Extends text.old text.new (type_char byte) result }
{
    if is_plain(byte) {
        text.push(byte)?;
        return Ok(());
    }
    text.extend_from_slice(b"\\x")?;
    put_hex(text, &[byte])
}

// Adds the type of a message, or nothing.
fn put_type<A: Allocator>(text: &mut Vec<u8, A>, payload: &[u8]) -> Result<(), AllocError>
    ensures { Extends text.old text.new (type_field payload.now) result }
{
    put_comma(text)?;
    match payload.first() {
        Some(byte) => put_type_char(text, *byte),
        None => Ok(()),
    }
}

// Adds what became of a message.
fn put_outcome<A: Allocator>(text: &mut Vec<u8, A>, outcome: Outcome) -> Result<(), AllocError>
    ensures { Extends text.old text.new (outcome_field outcome) result }
{
    match outcome {
        Outcome::Applied => text.extend_from_slice(b",applied"),
        Outcome::Passed => text.extend_from_slice(b",passed"),
        Outcome::Refused(fault) => put_count(text, b",F", fault.number()),
    }
}

// Adds a level.
fn put_level<A: Allocator>(text: &mut Vec<u8, A>, level: Level) -> Result<(), AllocError>
    ensures { Extends text.old text.new (fields_of_level level) result }
{
    put_level_fields(text, level.price, level.shares)
}

// Adds the bid and the ask at a place.
fn put_place<A: Allocator, B: Allocator + Copy>(
    text: &mut Vec<u8, A>,
    stock: &Stock<B>,
    place: usize,
) -> Result<(), AllocError>
    ensures { Extends text.old text.new
        (place_fields (orders_of stock.now.world stock.now.locate) place) result }
{
    put_level(text, stock.nth_level(Side::Buy, place))?;
    put_level(text, stock.nth_level(Side::Sell, place))
}

/// Adds the best levels of a stock, so many of each side.
pub(crate) fn put_depth<A: Allocator, B: Allocator + Copy>(
    text: &mut Vec<u8, A>,
    stock: &Stock<B>,
    depth: u32,
) -> Result<(), AllocError>
    ensures { Extends text.old text.new
        (depth_fields depth (orders_of stock.now.world stock.now.locate)) result }
{
    for place in 0..depth as usize {
        put_place(text, stock, place)?;
    }
    Ok(())
}

/// Adds the fields of so many places without levels.
pub(crate) fn put_no_depth<A: Allocator>(
    text: &mut Vec<u8, A>,
    depth: u32,
) -> Result<(), AllocError>
    ensures { Extends text.old text.new (depth_fields depth (orders_of empty_world 0)) result }
{
    for _place in 0..depth {
        text.extend_from_slice(b",,,,")?;
    }
    Ok(())
}

/// Adds the fields before the levels: the number of a message, its time, its type, its locate code and what became of it.
pub(crate) fn put_message<A: Allocator>(
    text: &mut Vec<u8, A>,
    number: u32,
    payload: &[u8],
    outcome: Outcome,
) -> Result<(), AllocError>
    ensures { Extends text.old text.new (message_fields number payload.now outcome) result }
{
    put_number(text, number)?;
    put_time(text, payload)?;
    put_type(text, payload)?;
    put_locate(text, payload)?;
    put_outcome(text, outcome)
}

// Adds the names of the fields of a place that has a number.
fn put_numbered_names<A: Allocator>(text: &mut Vec<u8, A>, number: u64) -> Result<(), AllocError>
    ensures { Extends text.old text.new (numbered_names number) result }
{
    put_count(text, b",bid_price_", number)?;
    put_count(text, b",bid_shares_", number)?;
    put_count(text, b",ask_price_", number)?;
    put_count(text, b",ask_shares_", number)
}

// Adds the names of the fields of a place.
fn put_place_names<A: Allocator>(text: &mut Vec<u8, A>, place: u32) -> Result<(), AllocError>
    ensures { Extends text.old text.new (place_names place) result }
{
    if place == 0 {
        text.extend_from_slice(b",bid_price,bid_shares,ask_price,ask_shares")
    } else {
        put_numbered_names(text, u64::from(place) + 1)
    }
}

/// Adds the first line.
pub(crate) fn put_head<A: Allocator>(text: &mut Vec<u8, A>, depth: u32) -> Result<(), AllocError>
    ensures { Extends text.old text.new (head_line depth) result }
{
    text.extend_from_slice(b"message,time,type,locate,outcome")?;
    for place in 0..depth {
        put_place_names(text, place)?;
    }
    text.push(b'\n')?;
    Ok(())
}
