//! References that are spent: what becomes of messages that ask for them again.
use itch_table::Plain;
use std::alloc::Allocator;
use std::test::Fail;
use test_support::{ASKED, Spending, payload_of, same, spent_references, spent_up_to, take};

// Passes the message of this number of the day to a machine, and compares which references are spent after it.
fn spend<A: Allocator + Copy>(
    alloc: A,
    machine: &mut Plain<A>,
    line: &Spending,
    number: u32,
) -> Result<(), Fail> {
    let payload = payload_of(alloc, &line.msg)?;
    take("a message", machine, &payload, line.outcome)?;
    let [first, second] = line.spent;
    same(
        "the spent references after a message",
        &(
            machine.steps(),
            ASKED.map(|reference| machine.spent(1, reference)),
            ASKED.map(|reference| machine.spent(2, reference)),
        ),
        &(number, spent_up_to(first), spent_up_to(second)),
    )
}

#[test]
fn a_reference_is_spent_by_its_first_order(rt: HostRuntime) -> Result<(), Fail> {
    let mut machine = Plain::new(rt.alloc());
    for (line, number) in spent_references().iter().zip(1..100u32) {
        spend(rt.alloc(), &mut machine, line, number)?;
    }
    Ok(())
}
