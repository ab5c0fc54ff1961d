//! References that are spent, of each stock of a day, and of a copy.
use crate::comparing::take_message;
use itch_table::{Part, part};
use std::alloc::{AllocError, Allocator};
use std::test::Fail;
use stock_machine::Stock;
use test_support::{ASKED, Spending, payload_of, same, spent_references, spent_up_to};

// The spent references of a machine.
fn spent_of<A: Allocator + Copy>(stock: &Stock<A>) -> [bool; 8] {
    ASKED.map(|reference| stock.spent(reference))
}

fn spent_of_copy<A: Allocator + Copy>(alloc: A, stock: &Stock<A>) -> Result<[bool; 8], AllocError> {
    Ok(spent_of(&stock.copy(alloc)?))
}

// Passes a message of the day to the machine of its stock, and compares which references are spent after it, by the
// machine and by a copy. Returns how many messages the machine has taken, where it had taken this many.
fn spend<A: Allocator + Copy>(
    alloc: A,
    stock: &mut Stock<A>,
    line: &Spending,
    last: u64,
    taken: u32,
) -> Result<u32, Fail> {
    let mut taken = taken;
    if part(&payload_of(alloc, &line.msg)?) == Part::Locate(stock.locate()) {
        take_message(alloc, stock, &line.msg, line.outcome)?;
        taken = taken.saturating_add(1);
    }
    let wanted = spent_up_to(last);
    same(
        "the steps, and the spent references, after a message",
        &(stock.steps(), spent_of(stock)),
        &(taken, wanted),
    )?;
    same("those of a copy", &spent_of_copy(alloc, stock)?, &wanted)?;
    Ok(taken)
}

// Passes the messages of the day to the machine of stock 1 or 2. Returns how many it has taken.
fn spend_each<A: Allocator + Copy>(
    alloc: A,
    stock: &mut Stock<A>,
    lines: &[Spending],
) -> Result<u32, Fail> {
    let mut taken = 0;
    for line in lines {
        let [of_first, of_second] = line.spent;
        let last = if stock.locate() == 1 {
            of_first
        } else {
            of_second
        };
        taken = spend(alloc, stock, line, last, taken)?;
    }
    Ok(taken)
}

#[test]
fn a_reference_is_spent_by_its_first_order(rt: HostRuntime) -> Result<(), Fail> {
    let lines = spent_references();
    for (locate, wanted) in [(1, 13), (2, 2)] {
        let taken = spend_each(rt.alloc(), &mut Stock::new(rt.alloc(), locate), &lines)?;
        same("messages of a stock", &(locate, taken), &(locate, wanted))?;
    }
    Ok(())
}
