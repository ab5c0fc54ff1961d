//! Machines of stocks, and the messages of a day that they do.
ghost use Rattle.std.specs.Prelude.{◌≡◌, IfOk, OnErr, map};
ghost use Rattle.day_core.specs.Owners.{IsDue, MayAddRow, machine_of, new_machine, piece_of};

use crate::merging::Piece;
use binaryfile::Day;
use std::alloc::{AllocError, Allocator};
use stock_machine::Stock;

/// A machine before the first message for each of these stocks, in their order.
pub fn new_stocks<A: Allocator + Copy>(
    alloc: A,
    locates: &[u16],
) -> Result<Vec<Stock<A>, A>, AllocError>
    ensures { IfOk result (λ stocks. stocks.items ≡ map new_machine locates.now) }
{
    let mut stocks = Vec::with_capacity(alloc, locates.len())?;
    for locate in locates {
        stocks.push(Stock::new(alloc, *locate))?;
    }
    Ok(stocks)
}

/// Does a message of a day on the machine of its stock, which has done those of its messages that come before, and
/// returns what became of it.
///
/// An error comes only where the message would be applied and may need a new order or trade. It leaves the machine as it
/// was.
pub fn do_message<A: Allocator + Copy>(
    day: &Day<A>,
    stock: &mut Stock<A>,
    message: u32,
) -> Result<Piece, AllocError>
    requires { IsDue day.now.payloads message stock.old }
    ensures piece { IfOk result (λ piece. piece ≡ piece_of day.now.payloads message) }
    ensures done { IfOk result (λ _. stock.new ≡ machine_of day.now.payloads stock.old.locate message) }
    ensures err { OnErr result (stock.new ≡ stock.old) }
    ensures grows { OnErr result (MayAddRow day.now.payloads message) }
{
    let outcome = stock.step(day.payload(message))?;
    Ok(Piece { message, outcome })
}
