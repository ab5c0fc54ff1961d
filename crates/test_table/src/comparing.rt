//! What two machines say is compared.
use itch_layouts::Msg;
use itch_table::{Outcome, Plain, Side};
use std::alloc::Allocator;
use std::test::Fail;
use test_support::{known_of, payload_of, same, same_list, take};

// Two machines say the same of the stock of a locate code, which may have no row.
fn same_stocks<A: Allocator + Copy>(
    alloc: A,
    found: &Plain<A>,
    wanted: &Plain<A>,
    locate: u16,
) -> Result<(), Fail> {
    let known = known_of(wanted, locate);
    same(
        "what is known",
        &(locate, known_of(found, locate)),
        &(locate, known),
    )?;
    let orders = found.orders(alloc, locate)?;
    same_list("the orders", &orders, &wanted.orders(alloc, locate)?)?;
    for reference in 0..=9u64 {
        same(
            "a spent reference",
            &(reference, found.spent(locate, reference)),
            &(reference, wanted.spent(locate, reference)),
        )?;
    }
    for side in [Side::Buy, Side::Sell] {
        let levels = found.levels(alloc, locate, side)?;
        same_list("the levels", &levels, &wanted.levels(alloc, locate, side)?)?;
    }
    Ok(())
}

/// Two machines say the same of each stock, of locate code 0, and of the code after the last, which a message may name
/// next.
pub fn same_machines<A: Allocator + Copy>(
    alloc: A,
    found: &Plain<A>,
    wanted: &Plain<A>,
) -> Result<(), Fail> {
    let locates = found.locates(alloc)?;
    same_list("the locate codes", &locates, &wanted.locates(alloc)?)?;
    same_stocks(alloc, found, wanted, 0)?;
    for locate in locates.iter() {
        same_stocks(alloc, found, wanted, *locate)?;
    }
    let last = locates.last().copied();
    same_stocks(alloc, found, wanted, last.unwrap_or(0).saturating_add(1))
}

/// Two machines have the same orders of the stock of locate code 1 under each reference that a test names, and the same
/// of these references are spent.
pub fn same_references<A: Allocator + Copy>(
    found: &Plain<A>,
    wanted: &Plain<A>,
) -> Result<(), Fail> {
    for reference in 0..=1_100u64 {
        let order = wanted.order(1, reference);
        same(
            "an order, and whether its reference is spent",
            &(
                reference,
                found.order(1, reference),
                found.spent(1, reference),
            ),
            &(reference, order, wanted.spent(1, reference)),
        )?;
    }
    Ok(())
}

/// Passes a message to a machine with memory, which applies it.
pub fn apply<A: Allocator + Copy>(alloc: A, machine: &mut Plain<A>, msg: &Msg) -> Result<(), Fail> {
    let payload = payload_of(alloc, msg)?;
    take("a message with memory", machine, &payload, Outcome::Applied)
}
