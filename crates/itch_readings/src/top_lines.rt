//! The lines of a stock's best bid and ask along a day.
ghost use Rattle.std.specs.Prelude.{◌≡◌, ◌++◌, ◌∷◌, [], IfOk, List, OnOk};
ghost use Rattle.byte_strings.specs.Extending.{Extends};
ghost use Rattle.itch_readings.specs.OwnMessages.{OwnMessage};
ghost use Rattle.itch_readings.specs.TopLines.{AreLines, differs, field_names, is_shown, moment_line, shown_line};

use crate::moments::{Moment, time_in};
use crate::notes::Notes;
use itch_table::{Order, Outcome, Top};
use std::alloc::{AllocError, Allocator};
use stock_machine::Stock;
use stock_text::put_level_fields;
use text_fields::put_count;

/// Which of a stock's messages have a line.
#[derive(Debug, Clone, Copy, PartialEq, Eq)]
pub enum Selection {
    /// Those after which the best bid or ask is another than before.
    Changes,
    /// All of them.
    Every,
}

// Whether two tops differ.
fn differs(before: &Top, after: &Top) -> bool
    ensures { result ≡ differs before.now after.now }
{
    before.bid_price != after.bid_price
        || before.bid_shares != after.bid_shares
        || before.ask_price != after.ask_price
        || before.ask_shares != after.ask_shares
}

// Whether a message has a line, by the top before it and the one after it.
fn is_shown(selection: Selection, before: &Top, after: &Top) -> bool
    ensures { result ≡ is_shown selection before.now after.now }
{
    match selection {
        Selection::Changes => differs(before, after),
        Selection::Every => true,
    }
}

// Adds the line of a moment.
fn put_moment<A: Allocator>(text: &mut Vec<u8, A>, moment: &Moment) -> Result<(), AllocError>
    ensures { Extends text.old text.new (moment_line moment.now) result }
{
    put_count(text, b"", moment.message)?;
    put_count(text, b",", moment.time)?;
    put_level_fields(text, moment.top.bid_price, moment.top.bid_shares)?;
    put_level_fields(text, moment.top.ask_price, moment.top.ask_shares)?;
    text.push(b'\n')?;
    Ok(())
}

// Adds the names of the fields.
fn put_field_names<A: Allocator>(text: &mut Vec<u8, A>) -> Result<(), AllocError>
    ensures { Extends text.old text.new field_names result }
{
    text.extend_from_slice(b"message,time,bid_price,bid_shares,ask_price,ask_shares\n")
}

// Adds the line of a moment, where it has one, by the top before it.
fn put_shown<A: Allocator>(
    text: &mut Vec<u8, A>,
    selection: Selection,
    before: &Top,
    moment: &Moment,
) -> Result<(), AllocError>
    ensures { Extends text.old text.new (shown_line selection before.now moment.now) result }
{
    if is_shown(selection, before, &moment.top) {
        put_moment(text, moment)?;
    }
    Ok(())
}

/// The lines of a stock's best bid and ask, as far as its messages were noted.
#[derive(Drop)]
pub(crate) struct TopLines<A: Allocator> {
    selection: Selection,
    // The top after the last message.
    before: Top,
    text: Vec<u8, A>,
}

impl<A: Allocator> TopLines<A> {
    /// Those of no message: the names of the fields.
    pub fn new(alloc: A, selection: Selection) -> Result<TopLines<A>, AllocError>
        ensures selection { IfOk result (λ lines. lines.selection ≡ selection) }
        ensures none { IfOk result (λ lines.
            AreLines lines.selection lines.selection lines.before lines.text.items []) }
    {
        let mut text = Vec::new(alloc);
        put_field_names(&mut text)?;
        let before = Top {
            bid_price: 0,
            bid_shares: 0,
            ask_price: 0,
            ask_shares: 0,
        };
        Ok(TopLines {
            selection,
            before,
            text,
        })
    }

    /// The text of all lines.
    pub fn into_text(self) -> Vec<u8, A>
        ensures { result.items ≡ self.text.items }
    {
        self.text
    }
}

impl<A: Allocator> Notes for TopLines<A> {
    ghost noted = { λ first now messages.
        AreLines first.selection now.selection now.before now.text.items messages };

    fn note<B: Allocator + Copy>(
        &mut self,
        number: u32,
        payload: &[u8],
        _named: Option<Order>,
        _outcome: Outcome,
        stock: &Stock<B>,
    ) -> Result<(), AllocError> {
        let moment = Moment {
            message: number,
            time: time_in(payload),
            top: stock.top(),
        };
        put_shown(&mut self.text, self.selection, &self.before, &moment)?;
        self.before = moment.top;
        Ok(())
    }
}
