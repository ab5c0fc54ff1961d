//! Scripts: what is passed to a machine, what becomes of it, and what the machine then says.
use crate::comparing::{same, same_list};
use crate::machine::take;
use crate::messages::payload_of;
use itch_layouts::Msg;
use itch_table::{Fault, Order, Outcome, Plain, Side, Status, Top, Totals};
use std::alloc::Allocator;
use std::test::Fail;

/// A line of a script.
#[derive(Clone, Copy)]
pub enum Line<'a> {
    /// The message is applied.
    Applied(Msg),
    /// The message is refused for that fault.
    Refused(Msg, Fault),
    /// The payload, of any bytes, has that outcome.
    Payload(&'a [u8], Outcome),
    /// The last event.
    Event(Option<u8>),
    /// The top of the stock of a locate code.
    Top(u16, Top),
    /// The only level of one side of the stock of a locate code, a price and the shares there, or that there is none.
    Level(u16, Side, Option<(u32, u64)>),
    /// The only live order of the stock, or that there is none.
    Order(u16, Option<Order>),
    /// The totals.
    Totals(u16, Totals),
    /// What is known of the stock beside its book.
    Status(u16, Status),
    /// The locate codes that have a directory row, rising.
    Locates(&'a [u16]),
}

/// Leads a new machine through a script. A failure has the name of the script and the line's number, counted from 0.
pub fn follow<A: Allocator + Copy>(alloc: A, name: &str, script: &[Line]) -> Result<(), Fail> {
    let mut machine = Plain::new(alloc);
    for (number, line) in script.iter().enumerate() {
        let case = format!(in alloc; "{name}, line {number}")?;
        follow_line(alloc, &case, &mut machine, line)?;
    }
    Ok(())
}

// The only live order of a stock, in the list of orders and by its reference, or that there is none.
fn same_order<A: Allocator + Copy>(
    alloc: A,
    case: &str,
    machine: &Plain<A>,
    locate: u16,
    wanted: Option<Order>,
) -> Result<(), Fail> {
    let orders = machine.orders(alloc, locate)?;
    let count = if wanted.is_some() { 1 } else { 0 };
    same(
        case,
        &(orders.len(), orders.first().copied()),
        &(count, wanted),
    )?;
    let reference = wanted.map_or(0, |order| order.reference);
    same(case, &machine.order(locate, reference), &wanted)
}

// One line of a script.
fn follow_line<A: Allocator + Copy>(
    alloc: A,
    case: &str,
    machine: &mut Plain<A>,
    line: &Line,
) -> Result<(), Fail> {
    match *line {
        Line::Applied(msg) => take(case, machine, &payload_of(alloc, &msg)?, Outcome::Applied),
        Line::Refused(msg, fault) => {
            take(
                case,
                machine,
                &payload_of(alloc, &msg)?,
                Outcome::Refused(fault),
            )
        }
        Line::Payload(payload, outcome) => take(case, machine, payload, outcome),
        Line::Event(wanted) => same(case, &machine.event(), &wanted),
        Line::Top(locate, wanted) => same(case, &machine.top(locate), &wanted),
        Line::Level(locate, side, wanted) => {
            let levels = machine.levels(alloc, locate, side)?;
            let found = levels.first().map(|level| (level.price, level.shares));
            let count = if wanted.is_some() { 1 } else { 0 };
            same(case, &(levels.len(), found), &(count, wanted))
        }
        Line::Order(locate, wanted) => same_order(alloc, case, machine, locate, wanted),
        Line::Totals(locate, wanted) => same(case, &machine.totals(locate), &wanted),
        Line::Status(locate, wanted) => same(case, &machine.status(locate), &wanted),
        Line::Locates(wanted) => same_list(case, &machine.locates(alloc)?, wanted),
    }
}
