//! The lines of trades.
ghost use Rattle.std.specs.Prelude.{◌≡◌, ◌++◌, [], IfOk, List, OnOk};
ghost use Rattle.byte_strings.specs.Extending.{Extends};
ghost use Rattle.itch_readings.specs.OwnMessages.{OwnMessage};
ghost use Rattle.itch_readings.specs.TradeLines.{broken_field, event_line, field_names, kind_field, lines_text, printed_field, side_field, stamp_fields, trade_line};
ghost use Rattle.itch_readings.specs.Trades.{events_of, trades_of};

use crate::broken_trades::mark_broken;
use crate::notes::Notes;
use crate::trades::{Stamp, Trade, TradeEvent, TradeKind, event_in};
use itch_table::{Order, Outcome, Side};
use std::alloc::{AllocError, Allocator};
use stock_machine::Stock;
use stock_text::put_side;
use text_fields::put_count;

// Adds the letter of a trade's message, after a comma.
fn put_kind<A: Allocator>(text: &mut Vec<u8, A>, kind: TradeKind) -> Result<(), AllocError>
    ensures { Extends text.old text.new (kind_field kind) result }
{
    match kind {
        TradeKind::Executed => text.extend_from_slice(b",E"),
        TradeKind::ExecutedAtPrice => text.extend_from_slice(b",C"),
        TradeKind::NotCrossed => text.extend_from_slice(b",P"),
        TradeKind::Crossed => text.extend_from_slice(b",Q"),
    }
}

// Adds the letter of a side, or nothing where there is none, after a comma.
fn put_side_field<A: Allocator>(text: &mut Vec<u8, A>, side: Option<Side>) -> Result<(), AllocError>
    ensures { Extends text.old text.new (side_field side) result }
{
    text.push(b',')?;
    match side {
        Some(side) => put_side(text, side),
        None => Ok(()),
    }
}

// Adds whether a trade is printed, after a comma.
fn put_printed<A: Allocator>(text: &mut Vec<u8, A>, printed: bool) -> Result<(), AllocError>
    ensures { Extends text.old text.new (printed_field printed) result }
{
    if printed {
        text.extend_from_slice(b",Y")
    } else {
        text.extend_from_slice(b",N")
    }
}

// Adds the number of the message that broke a trade, or nothing where none did, after a comma.
fn put_broken<A: Allocator>(text: &mut Vec<u8, A>, broken: Option<u32>) -> Result<(), AllocError>
    ensures { Extends text.old text.new (broken_field broken) result }
{
    match broken {
        Some(message) => put_count(text, b",", message),
        None => text.extend_from_slice(b","),
    }
}

// Adds which message it is: its number, its time and its stock's locate code.
fn put_stamp<A: Allocator>(text: &mut Vec<u8, A>, at: Stamp) -> Result<(), AllocError>
    ensures { Extends text.old text.new (stamp_fields at) result }
{
    put_count(text, b"", at.message)?;
    put_count(text, b",", at.time)?;
    put_count(text, b",", at.locate)
}

// Adds the line of a trade.
fn put_trade<A: Allocator>(text: &mut Vec<u8, A>, trade: &Trade) -> Result<(), AllocError>
    ensures { Extends text.old text.new (trade_line trade.now) result }
{
    put_stamp(text, trade.at)?;
    put_kind(text, trade.kind)?;
    put_side_field(text, trade.side)?;
    put_count(text, b",", trade.price)?;
    put_count(text, b",", trade.shares)?;
    put_count(text, b",", trade.match_no)?;
    put_printed(text, trade.printed)?;
    put_broken(text, trade.broken)?;
    text.push(b'\n')?;
    Ok(())
}

// Adds the line of an event, where it is a trade.
fn put_event<A: Allocator>(text: &mut Vec<u8, A>, event: &TradeEvent) -> Result<(), AllocError>
    ensures { Extends text.old text.new (event_line event.now) result }
{
    match event {
        TradeEvent::Made(trade) => put_trade(text, trade),
        TradeEvent::Broke(_) => Ok(()),
    }
}

// Adds the names of the fields.
fn put_field_names<A: Allocator>(text: &mut Vec<u8, A>) -> Result<(), AllocError>
    ensures { Extends text.old text.new field_names result }
{
    text.extend_from_slice(b"message,time,locate,type,side,price,shares,match_no,printed,broken\n")
}

/// The trades of stocks and what broke them, as far as messages were noted.
#[derive(Drop)]
pub(crate) struct TradeNotes<A: Allocator> {
    events: Vec<TradeEvent, A>,
}

impl<A: Allocator + Copy> TradeNotes<A> {
    /// Those of no message.
    pub fn new(alloc: A) -> TradeNotes<A>
        ensures { result.events.items ≡ [] }
    {
        TradeNotes {
            events: Vec::new(alloc),
        }
    }

    /// The names of the fields, and the lines of all trades.
    pub fn into_text(self, alloc: A) -> Result<Vec<u8, A>, AllocError>
        ensures { IfOk result (λ text. text.items ≡ lines_text (trades_of self.events.items)) }
    {
        let mut events = self.events;
        mark_broken(alloc, &mut events)?;
        let mut text = Vec::new(alloc);
        put_field_names(&mut text)?;
        for event in &events {
            put_event(&mut text, event)?;
        }
        Ok(text)
    }
}

impl<A: Allocator> Notes for TradeNotes<A> {
    ghost noted = { λ _ now messages. now.events.items ≡ events_of messages };

    fn note<B: Allocator + Copy>(
        &mut self,
        number: u32,
        payload: &[u8],
        named: Option<Order>,
        outcome: Outcome,
        stock: &Stock<B>,
    ) -> Result<(), AllocError> {
        if let Some(event) = event_in(number, stock.locate(), named, outcome, payload) {
            self.events.push(event)?;
        }
        Ok(())
    }
}
