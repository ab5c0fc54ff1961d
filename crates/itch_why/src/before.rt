//! What a stock had before a message.
ghost use Rattle.std.specs.Prelude.{◌≡◌, ◌++◌, OnOk};
ghost use Rattle.std.specs.List.{flat_map};
ghost use Rattle.std.specs.Option.{option_to_list};
ghost use Rattle.byte_strings.specs.Extending.{Extends};
ghost use Rattle.itch_layouts.specs.Shapes.{shape_of};
ghost use Rattle.itch_readings.specs.OwnMessages.{order_named, references_by};
ghost use Rattle.itch_table.specs.World.{is_spent, order};
ghost use Rattle.itch_why.specs.Why.{before_of, found_line, is_trade, nothing_before, once, order_before, orders_before, orders_in};

use itch_layouts::{Msg, Shape, read_msg};
use itch_table::Order;
use refusal_text::Before;
use std::alloc::{AllocError, Allocator};
use stock_machine::Stock;
use stock_text::put_order;
use text_fields::put_count;

// Whether a payload of this shape is a trade of an order that isn't displayed.
fn is_trade(shape: &Shape) -> bool
    ensures { result ≡ is_trade shape.now }
{
    match *shape {
        Shape::Known(Msg::Trade(_, _)) => true,
        _ => false,
    }
}

/// The references by which a payload of this shape names orders: two of a replacement, one of another message that makes or
/// changes an order. That of a trade (type P) is none: it is of an order that isn't displayed, and 0 on published days.
pub(crate) fn orders_in(shape: &Shape) -> (Option<u64>, Option<u64>)
    ensures { option_to_list result.0 ++ option_to_list result.1 ≡ orders_in shape.now }
{
    match shape {
        Shape::Known(message) if !is_trade(shape) => message.references(),
        _ => (None, None),
    }
}

// The order that the first reference of a payload names, as a stock has it.
fn order_named<A: Allocator + Copy>(stock: &Stock<A>, payload: &[u8]) -> Option<Order>
    ensures { result ≡ order_named stock.now.world stock.now.locate payload.now }
{
    let Shape::Known(message) = read_msg(payload) else {
        return None;
    };
    let (one, other) = message.references();
    match one.or(other) {
        Some(reference) => stock.order(reference),
        None => None,
    }
}

/// What the reason of a fault of a payload says of a stock's rows.
pub(crate) fn before_of<A: Allocator + Copy>(stock: &Stock<A>, payload: &[u8]) -> Before
    ensures { result ≡ before_of stock.now.world stock.now.locate payload.now }
{
    let symbol = match stock.status().directory {
        Some(directory) => directory.stock,
        None => *b"        ",
    };
    let shares = match order_named(stock, payload) {
        Some(order) => order.shares,
        None => 0,
    };
    Before { symbol, shares }
}

/// What it says where the payload is of no stock.
pub(crate) fn nothing_before() -> Before
    ensures { result ≡ nothing_before }
{
    Before {
        symbol: *b"        ",
        shares: 0,
    }
}

// Adds the order under a reference, or that there is none, where one was had before or not.
fn put_found<A: Allocator>(
    text: &mut Vec<u8, A>,
    order: Option<Order>,
    spent: bool,
    reference: u64,
) -> Result<(), AllocError>
    ensures { Extends text.old text.new (found_line order spent reference) result }
{
    let Some(order) = order else {
        put_count(text, b"no order ", reference)?;
        let last: &[u8] = if spent { b" spent\n" } else { b"\n" };
        return text.extend_from_slice(last);
    };
    put_order(text, order)
}

// Adds the order that a reference names; nothing without one.
fn put_named<A: Allocator + Copy>(
    text: &mut Vec<u8, A>,
    stock: &Stock<A>,
    reference: Option<u64>,
) -> Result<(), AllocError>
    ensures { Extends text.old text.new
        (flat_map (order_before stock.now.world stock.now.locate) (option_to_list reference)) result }
{
    let Some(reference) = reference else {
        return Ok(());
    };
    put_found(
        text,
        stock.order(reference),
        stock.spent(reference),
        reference,
    )
}

// The second of two references, where it isn't the first once more.
fn unlike(one: Option<u64>, other: Option<u64>) -> Option<u64>
    ensures { once (option_to_list one ++ option_to_list other)
        ≡ option_to_list one ++ option_to_list result }
{
    if one == other { None } else { other }
}

/// Adds the orders that a payload names, as a stock has them.
pub(crate) fn put_orders_before<A: Allocator + Copy>(
    text: &mut Vec<u8, A>,
    stock: &Stock<A>,
    payload: &[u8],
) -> Result<(), AllocError>
    ensures { Extends text.old text.new
        (orders_before stock.now.world stock.now.locate payload.now) result }
{
    let (one, other) = orders_in(&read_msg(payload));
    put_named(text, stock, one)?;
    put_named(text, stock, unlike(one, other))
}
