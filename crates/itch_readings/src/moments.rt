//! The top of one stock's book after each of its messages.
ghost use Rattle.std.specs.Prelude.{◌≡◌, IfOk};
ghost use Rattle.itch_readings.specs.Tops.{time_of, tops_of};

use binaryfile::Day;
use itch_layouts::{Shape, read_msg};
use itch_table::{Top, is_of_stock, own_rows_suffice, stocks_are_independent};
use std::alloc::{AllocError, Allocator};
use stock_machine::Stock;

/// The best bid and ask of a stock after one of its messages.
#[derive(Debug, Clone, Copy, PartialEq, Eq)]
pub struct Moment {
    /// The number of the message in the day, counted from 1.
    pub message: u32,
    /// When that message was made, in nanoseconds since midnight.
    pub time: u64,
    /// The top after it.
    pub top: Top,
}

/// When a message was made, in nanoseconds since midnight; 0 where the payload is no message.
pub(crate) fn time_in(payload: &[u8]) -> u64
    ensures { result ≡ time_of payload.now }
{
    match read_msg(payload) {
        Shape::Known(msg) => msg.head().time.get(),
        Shape::Unknown | Shape::BadLength => 0,
    }
}

/// The top of a stock after each of its messages, in the order of the day.
///
/// A machine takes the messages of this stock alone, since no other message changes its rows.
pub fn tops<A: Allocator + Copy>(
    alloc: A,
    day: &Day<A>,
    locate: u16,
) -> Result<Vec<Moment, A>, AllocError>
    // Each moment is the top of the table's world after that message.
    ensures { IfOk result (λ tops. tops.items ≡ tops_of day.now.payloads locate) }
{
    // Laws that the proof cites: they do nothing.
    stocks_are_independent();
    own_rows_suffice();
    let mut stock = Stock::new(alloc, locate);
    let mut tops = Vec::new(alloc);
    let mut message = 0;
    for payload in day.payloads() {
        message += 1;
        if is_of_stock(payload, locate) {
            stock.step(payload)?;
            tops.push(Moment {
                message,
                time: time_in(payload),
                top: stock.top(),
            })?;
        }
    }
    Ok(tops)
}
