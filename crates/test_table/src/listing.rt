//! Lists of the plain machine, and a short day, with each of their growths refused in turn.
use crate::comparing::{apply, same_machines};
use crate::growing::step_all;
use itch_layouts::Msg;
use itch_table::{Level, Order, Plain, Side, Status, Top, Totals};
use std::alloc::{AllocError, Allocator, Global};
use std::test::Fail;
use test_refusing::{Refusal, Refusing, Tried, refuse_each};
use test_support::{AAPL, Known, MSFT, known_of, same, same_list, system};

// A short day of two stocks, of which the second has an ask.
fn short_day() -> [Msg; 13] {
    [
        system(0, b'O'),
        AAPL.directory(),
        MSFT.directory(),
        AAPL.add(1, b'B', 10, 100),
        AAPL.add_mpid(2, b'S', 10, 200),
        MSFT.add(1, b'S', 5, 300),
        AAPL.add(4, b'B', 6, 150),
        AAPL.execute(1, 1, 1),
        AAPL.execute_price(2, 1, 2, b'N', 5),
        AAPL.replace(1, 3, 7, 150),
        AAPL.add(5, b'B', 8, 120),
        AAPL.trade(b'B', 1, 1, 3),
        AAPL.cross(9, 2, 4),
    ]
}

// A machine after the short day.
fn after_day<A: Allocator + Copy>(alloc: A) -> Result<Plain<A>, Fail> {
    let mut machine = Plain::new(alloc);
    for msg in short_day() {
        apply(alloc, &mut machine, &msg)?;
    }
    Ok(machine)
}

// A bid.
fn bid(reference: u64, shares: u32, price: u32) -> Order {
    Order {
        reference,
        side: Side::Buy,
        shares,
        price,
        attribution: None,
    }
}

// The first stock's ask after the short day.
const ASK: Order = Order {
    reference: 2,
    side: Side::Sell,
    shares: 9,
    price: 200,
    attribution: Some(*b"ABCD"),
};

// A level.
fn level(price: u32, shares: u64) -> Level {
    Level { price, shares }
}

// A list that a machine makes, of the first stock or of the day.
#[derive(Debug, Clone, Copy, PartialEq, Eq)]
enum Listing {
    Bids,
    Asks,
    Orders,
    Locates,
}

const LISTINGS: [Listing; 4] = [
    Listing::Bids,
    Listing::Asks,
    Listing::Orders,
    Listing::Locates,
];

// Makes a list after the short day, and compares it. An error of the list itself says that memory was refused.
fn make<A: Allocator + Copy>(
    alloc: A,
    machine: &Plain<A>,
    listing: Listing,
) -> Result<Result<(), Fail>, AllocError> {
    match listing {
        Listing::Bids => {
            let bids = machine.levels(alloc, 1, Side::Buy)?;
            Ok(same_list("the bids", &bids, &[level(150, 13), level(120, 8)]))
        }
        Listing::Asks => {
            let asks = machine.levels(alloc, 1, Side::Sell)?;
            Ok(same_list("the asks", &asks, &[level(200, 9)]))
        }
        Listing::Orders => {
            let orders = machine.orders(alloc, 1)?;
            let wanted = [ASK, bid(3, 7, 150), bid(4, 6, 150), bid(5, 8, 120)];
            Ok(same_list("the orders", &orders, &wanted))
        }
        Listing::Locates => {
            let locates = machine.locates(alloc)?;
            Ok(same_list("the locate codes", &locates, &[1, 2]))
        }
    }
}

// Makes a list under a refusal, which leaves the machine as it is, and with memory where it is refused.
fn list_under<A: Allocator + Copy>(
    heap: &Refusing<Global>,
    alloc: A,
    machine: &Plain<A>,
    listing: Listing,
    refusal: Refusal,
) -> Result<Tried, Fail> {
    heap.restart(refusal);
    let made = make(alloc, machine, listing);
    let tried = heap.tried(made.is_err());
    match made {
        Ok(compared) => compared?,
        Err(AllocError) => make(alloc, machine, listing)??,
    }
    same_machines(alloc, machine, &after_day(alloc)?)?;
    Ok(tried)
}

// Makes a list of a new machine after the short day under a refusal.
fn try_listing<A: Allocator + Copy>(
    heap: &Refusing<Global>,
    alloc: A,
    listing: Listing,
    refusal: Refusal,
) -> Result<Tried, Fail> {
    list_under(heap, alloc, &after_day(alloc)?, listing, refusal)
}

#[test]
fn a_list_without_memory_is_none(rt: HostRuntime) -> Result<(), Fail> {
    let heap = Refusing::new(rt.alloc(), Refusal::Never);
    for listing in LISTINGS {
        refuse_each(|refusal: Refusal| -> Result<Tried, Fail> {
            try_listing(&heap, &heap, listing, refusal)
        })?;
    }
    Ok(())
}

// What a machine says after the short day: its lists, and what it knows of both stocks.
fn shows_the_end<A: Allocator + Copy>(alloc: A, machine: &Plain<A>) -> Result<(), Fail> {
    for listing in LISTINGS {
        make(alloc, machine, listing)??;
    }
    let totals = Totals {
        trades: 3,
        shares: 11,
        notional: 119,
        unprinted: 1,
    };
    let first = Known {
        top: Top::of(level(150, 13), level(200, 9)),
        totals,
        status: Status {
            directory: Some(AAPL.directory_row()),
            trading: None,
            regsho: None,
        },
        event: Some(b'O'),
        steps: 13,
    };
    same("the first stock", &known_of(machine, 1), &first)?;
    let known = known_of(machine, 2);
    let found = (
        known.top,
        known.totals.trades,
        machine.order(2, 1).map(|order| order.shares),
    );
    let ask = Top::of(level(0, 0), level(300, 5));
    same("the second stock", &found, &(ask, 0, Some(5)))
}

// Leads a machine and its twin through the short day under a refusal.
fn day_under<A: Allocator + Copy>(
    heap: &Refusing<Global>,
    other: A,
    machine: &mut Plain<A>,
    twin: &mut Plain<A>,
    refusal: Refusal,
) -> Result<Tried, Fail> {
    let tried = step_all(heap, other, machine, twin, &short_day(), refusal)?;
    shows_the_end(other, machine)?;
    Ok(tried)
}

// Leads a new machine and its new twin through the short day under a refusal.
fn try_day<A: Allocator + Copy>(
    heap: &Refusing<Global>,
    alloc: A,
    other: A,
    refusal: Refusal,
) -> Result<Tried, Fail> {
    let (mut machine, mut twin) = (Plain::new(alloc), Plain::new(other));
    day_under(heap, other, &mut machine, &mut twin, refusal)
}

#[test]
fn a_day_ends_the_same_whichever_growth_was_refused(rt: HostRuntime) -> Result<(), Fail> {
    let heap = Refusing::new(rt.alloc(), Refusal::Never);
    let other = Refusing::new(rt.alloc(), Refusal::Never);
    let growths = refuse_each(|refusal: Refusal| -> Result<Tried, Fail> {
        try_day(&heap, &heap, &other, refusal)
    })?;
    same("that there are growths", &(growths > 2), &true)
}
