//! The earlier messages about a message's orders, or about the trade that it breaks.
ghost use Rattle.std.specs.Prelude.{◌≡◌, ◌==◌, ◌++◌, [], OnOk};
ghost use Rattle.std.specs.List.{list_any};
ghost use Rattle.std.specs.Option.{option_to_list};
ghost use Rattle.byte_strings.specs.Extending.{Extends};
ghost use Rattle.itch_layouts.specs.Shapes.{shape_of};
ghost use Rattle.itch_why.specs.Why.{break_in, earlier_line, earlier_lines, has_match, is_about, is_match, match_in, name_one_order, names};

use crate::before::orders_in;
use itch_layouts::{Msg, Shape, read_msg};
use itch_print::put_payload;
use itch_readings::Notes;
use itch_table::{Order, Outcome};
use std::alloc::{AllocError, Allocator};
use stock_machine::Stock;
use text_fields::put_number;

// The match number of a trade, or of one that is broken.
fn match_in(message: &Msg) -> Option<u64>
    ensures { result ≡ match_in message.now }
{
    match *message {
        Msg::Execute(_, message) => Some(message.match_no),
        Msg::ExecutePrice(_, message) => Some(message.match_no),
        Msg::Trade(_, message) => Some(message.match_no),
        Msg::Cross(_, message) => Some(message.match_no),
        Msg::Broken(_, message) => Some(message.match_no),
        _ => None,
    }
}

// Whether a payload of this shape has this match number.
fn has_match(number: u64, shape: &Shape) -> bool
    ensures { result ≡ has_match number shape.now }
{
    match shape {
        Shape::Known(message) => match match_in(message) {
            Some(own) => own == number,
            None => false,
        },
        _ => false,
    }
}

// Whether a payload of this shape names an order by a reference.
fn names(shape: &Shape, reference: u64) -> bool
    ensures { result ≡ names shape.now reference }
{
    let (one, other) = orders_in(shape);
    one == Some(reference) || other == Some(reference)
}

// The same where there is a reference.
fn is_named(shape: &Shape, reference: Option<u64>) -> bool
    ensures { result ≡ list_any (names shape.now) (option_to_list reference) }
{
    match reference {
        Some(reference) => names(shape, reference),
        None => false,
    }
}

// Whether two payloads name an order by the same reference, by their shapes.
fn name_one_order(shape: &Shape, earlier: &Shape) -> bool
    ensures { result ≡ name_one_order shape.now earlier.now }
{
    let (one, other) = orders_in(shape);
    is_named(earlier, one) || is_named(earlier, other)
}

// The match number of the trade that a payload of this shape breaks.
fn break_in(shape: &Shape) -> Option<u64>
    ensures { result ≡ break_in shape.now }
{
    match *shape {
        Shape::Known(Msg::Broken(_, message)) => Some(message.match_no),
        _ => None,
    }
}

// Whether an earlier payload is about what a payload is about, by their shapes.
fn is_about(shape: &Shape, earlier: &Shape) -> bool
    ensures { result ≡ is_about (break_in shape.now) shape.now earlier.now }
{
    match break_in(shape) {
        Some(number) => has_match(number, earlier),
        None => name_one_order(shape, earlier),
    }
}

// Adds the line of an earlier message, where it was applied and is about what a payload of this shape is about.
fn put_earlier<A: Allocator>(
    text: &mut Vec<u8, A>,
    shape: &Shape,
    outcome: Outcome,
    number: u32,
    payload: &[u8],
) -> Result<(), AllocError>
    ensures { Extends text.old text.new (earlier_line shape.now outcome number payload.now) result }
{
    if outcome != Outcome::Applied || !is_about(shape, &read_msg(payload)) {
        return Ok(());
    }
    put_number(text, number)?;
    text.push(b' ')?;
    put_payload(text, payload)
}

/// The lines of a stock's messages that were applied and are about what a later payload is about.
#[derive(Drop)]
pub(crate) struct EarlierLines<A: Allocator> {
    shape: Shape,
    /// The lines.
    pub text: Vec<u8, A>,
}

impl<A: Allocator> EarlierLines<A> {
    /// Those of no message.
    pub fn of_none(alloc: A, payload: &[u8]) -> EarlierLines<A>
        ensures shape { result.shape ≡ shape_of payload.now }
        ensures text { result.text.items ≡ [] }
    {
        EarlierLines {
            shape: read_msg(payload),
            text: Vec::new(alloc),
        }
    }
}

impl<A: Allocator> Notes for EarlierLines<A> {
    ghost noted = { λ first now messages.
        (now.shape ≡ first.shape) × (now.text.items ≡ earlier_lines first.shape messages) };

    fn note<B: Allocator + Copy>(
        &mut self,
        number: u32,
        payload: &[u8],
        _named: Option<Order>,
        outcome: Outcome,
        _stock: &Stock<B>,
    ) -> Result<(), AllocError> {
        put_earlier(&mut self.text, &self.shape, outcome, number, payload)
    }
}
