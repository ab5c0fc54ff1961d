//! Lists and copies of a machine, with each of their growths refused in turn.
use crate::comparing::{after, same_machines, take_message};
use itch_layouts::Msg;
use itch_table::{Level, Order, Outcome, Side, Status, Top, Totals, Trading};
use std::alloc::{AllocError, Allocator, Global};
use std::test::Fail;
use stock_machine::Stock;
use test_refusing::{Refusal, Refusing, Tried, refuse_each};
use test_support::{AAPL, LISTINGS, Listing, same, same_list};

// The directory message, and others that add orders of both sides and trades.
fn both_sides() -> [Msg; 9] {
    [
        AAPL.directory(),
        AAPL.add(2, b'B', 10, 90),
        AAPL.add(1, b'B', 10, 100),
        AAPL.add_mpid(3, b'S', 6, 110),
        AAPL.add(4, b'B', 1, 100),
        AAPL.execute(3, 1, 1),
        AAPL.execute_price(1, 2, 2, b'N', 5),
        AAPL.trade(b'B', 7, 2, 3),
        AAPL.trading(b'T', *b"    "),
    ]
}

// The first of the orders of both sides, by their references.
const FIRST: Order = Order {
    reference: 1,
    side: Side::Buy,
    shares: 8,
    price: 100,
    attribution: None,
};

// The orders of both sides.
fn orders_of_both() -> [Order; 4] {
    [
        FIRST,
        Order {
            reference: 2,
            shares: 10,
            price: 90,
            ..FIRST
        },
        Order {
            reference: 3,
            side: Side::Sell,
            shares: 5,
            price: 110,
            attribution: Some(*b"ABCD"),
        },
        Order {
            reference: 4,
            shares: 1,
            ..FIRST
        },
    ]
}

// A level as its price and its shares.
fn level(price: u32, shares: u64) -> Level {
    Level { price, shares }
}

// Makes a list of a machine with orders of both sides, and compares it. An error of the list itself says that memory
// was refused.
fn list<A: Allocator + Copy>(
    alloc: A,
    stock: &Stock<A>,
    listing: Listing,
) -> Result<Result<(), Fail>, AllocError> {
    match listing {
        Listing::Orders => {
            let orders = stock.orders(alloc)?;
            Ok(same_list("the orders", &orders, &orders_of_both()))
        }
        Listing::Levels(Side::Buy) => {
            let bids = stock.levels(alloc, Side::Buy)?;
            Ok(same_list("the bids", &bids, &[level(100, 9), level(90, 10)]))
        }
        Listing::Levels(Side::Sell) => {
            let asks = stock.levels(alloc, Side::Sell)?;
            Ok(same_list("the asks", &asks, &[level(110, 5)]))
        }
    }
}

// A machine says what the messages of both sides make.
fn shows_both_sides<A: Allocator + Copy>(alloc: A, stock: &Stock<A>) -> Result<(), Fail> {
    let totals = Totals {
        trades: 2,
        shares: 8,
        notional: 124,
        unprinted: 2,
    };
    let top = Top::of(level(100, 9), level(110, 5));
    same(
        "the locate code, the steps, the totals and the top",
        &(stock.locate(), stock.steps(), stock.totals(), stock.top()),
        &(1, 9, totals, top),
    )?;
    for listing in LISTINGS {
        list(alloc, stock, listing)??;
    }
    let status = Status {
        directory: Some(AAPL.directory_row()),
        trading: Some(Trading {
            state: b'T',
            reserved: b' ',
            reason: *b"    ",
        }),
        regsho: None,
    };
    same("the status", &stock.status(), &status)
}

// Makes a list of a machine with orders of both sides under a refusal. The machine stays as it is, and its lists are
// made again with memory.
fn list_under<A: Allocator + Copy>(
    heap: &Refusing<Global>,
    alloc: A,
    stock: &Stock<A>,
    listing: Listing,
    refusal: Refusal,
) -> Result<Tried, Fail> {
    heap.restart(refusal);
    let listed = list(alloc, stock, listing);
    let tried = heap.tried(listed.is_err());
    if let Ok(compared) = listed {
        compared?;
    }
    shows_both_sides(alloc, stock)?;
    Ok(tried)
}

// A copy says what the messages of both sides make, and what its machine says.
fn same_copy<A: Allocator + Copy>(alloc: A, copy: &Stock<A>, stock: &Stock<A>) -> Result<(), Fail> {
    shows_both_sides(alloc, copy)?;
    same_machines(alloc, copy, stock)
}

// The same of a new copy.
fn same_new_copy<A: Allocator + Copy>(alloc: A, stock: &Stock<A>) -> Result<(), Fail> {
    same_copy(alloc, &stock.copy(alloc)?, stock)
}

// The same of a copy, or of a new one where it was refused.
fn same_copy_or_next<A: Allocator + Copy>(
    alloc: A,
    copy: Result<Stock<A>, AllocError>,
    stock: &Stock<A>,
) -> Result<(), Fail> {
    match copy {
        Ok(copy) => same_copy(alloc, &copy, stock),
        Err(AllocError) => same_new_copy(alloc, stock),
    }
}

// Makes a copy of a machine with orders of both sides under a refusal, and with memory where it is refused. It leaves
// the machine as it is.
fn copy_under<A: Allocator + Copy>(
    heap: &Refusing<Global>,
    alloc: A,
    stock: &Stock<A>,
    refusal: Refusal,
) -> Result<Tried, Fail> {
    heap.restart(refusal);
    let copy = stock.copy(alloc);
    let tried = heap.tried(copy.is_err());
    same_copy_or_next(alloc, copy, stock)?;
    Ok(tried)
}

#[test]
fn a_list_or_a_copy_without_memory_is_none(rt: HostRuntime) -> Result<(), Fail> {
    let heap = Refusing::new(rt.alloc(), Refusal::Never);
    for listing in LISTINGS {
        refuse_each(|refusal: Refusal| -> Result<Tried, Fail> {
            list_under(
                &heap,
                &heap,
                &after(&heap, &both_sides())?,
                listing,
                refusal,
            )
        })?;
    }
    refuse_each(|refusal: Refusal| -> Result<Tried, Fail> {
        copy_under(&heap, &heap, &after(&heap, &both_sides())?, refusal)
    })?;
    Ok(())
}

// A machine without messages takes those of both sides.
fn grow<A: Allocator + Copy>(alloc: A, grown: &mut Stock<A>, stock: &Stock<A>) -> Result<(), Fail> {
    for msg in &both_sides() {
        take_message(alloc, grown, msg, Outcome::Applied)?;
    }
    same_copy(alloc, grown, stock)
}

// Copies a machine without messages and one of both sides into memory of this allocator. The first takes the messages
// of the other then.
fn copies_in<A: Allocator + Copy>(
    alloc: A,
    empty: &Stock<A>,
    stock: &Stock<A>,
) -> Result<(), Fail> {
    grow(alloc, &mut empty.copy(alloc)?, stock)?;
    same_new_copy(alloc, stock)
}

// Copies two machines in memory of `alloc`, which is that of the heap and can't grow any more, into that of another.
fn copies_of_full<A: Allocator + Copy>(
    heap: &Refusing<Global>,
    alloc: A,
    other: A,
) -> Result<(), Fail> {
    let stock = after(alloc, &both_sides())?;
    heap.restart(Refusal::From(1));
    copies_in(other, &Stock::new(alloc, 1), &stock)
}

#[test]
fn lists_and_a_copy_take_memory_of_their_allocator(rt: HostRuntime) -> Result<(), Fail> {
    let heap = Refusing::new(rt.alloc(), Refusal::Never);
    let other = Refusing::new(rt.alloc(), Refusal::Never);
    copies_of_full(&heap, &heap, &other)
}
