//! A stock with very many messages, whose track is made when a debugger begins.
use binaryfile::Day;
use debugger::{DebugFault, Debugger};
use std::alloc::{Allocator, Global};
use std::test::Fail;
use stock_machine::Stock;
use test_refusing::{Refusal, Refusing, Tried, refuse_each};
use test_support::{AAPL, add_entry, day_of, same, same_list};

// How many orders are added and deleted, one after another. With the directory message there are 60,001 messages.
const ORDERS: u64 = 30_000;

// A place, and there how many messages the stock has taken, the shares of its best bid, and whether the references of
// the first and of the last order are spent.
type Place = (u32, u32, u64, bool, bool);

// After the directory message each even message adds an order, and each odd one deletes it. A copy of the stock is kept
// after message 30,000 and after message 60,000.
const SHOWN: [Place; 9] = [
    (0, 0, 0, false, false),
    (1, 1, 0, false, false),
    (2, 2, 10, true, false),
    (30_001, 30_001, 0, true, false),
    (60_000, 60_000, 10, true, true),
    (29_999, 29_999, 0, true, false),
    (30_000, 30_000, 10, true, false),
    (59_999, 59_999, 0, true, false),
    (60_001, 60_001, 0, true, true),
];

// The bytes of the day.
fn busy_file<A: Allocator + Copy>(alloc: A) -> Result<Vec<u8, A>, Fail> {
    let mut file = Vec::new(alloc);
    add_entry(alloc, &mut file, &AAPL.directory())?;
    for reference in 1..=ORDERS {
        add_entry(alloc, &mut file, &AAPL.add(reference, b'B', 10, 100))?;
        add_entry(alloc, &mut file, &AAPL.delete(reference))?;
    }
    Ok(file)
}

// What a machine of the stock says at a place.
fn shown<A: Allocator + Copy>(place: u32, stock: &Stock<A>) -> Place {
    (
        place,
        stock.steps(),
        stock.top().bid_shares,
        stock.spent(1),
        stock.spent(ORDERS),
    )
}

// What a debugger shows of the stock at a place.
fn shown_at<A: Allocator + Copy>(
    alloc: A,
    debugger: &mut Debugger<'_, A>,
    place: u32,
) -> Result<Place, DebugFault> {
    debugger.goto(alloc, place)?;
    Ok(shown(place, &debugger.stock(alloc, 1)?))
}

// What a debugger shows of the stock at each of the places.
fn shown_along<A: Allocator + Copy>(
    alloc: A,
    debugger: &mut Debugger<'_, A>,
    places: &[Place],
) -> Result<Vec<Place, A>, DebugFault> {
    let mut list = Vec::new(alloc);
    for (place, _, _, _, _) in places {
        let shown = shown_at(alloc, debugger, *place)?;
        if list.push(shown).is_err() {
            return Err(DebugFault::Memory);
        }
    }
    Ok(list)
}

// What a new debugger shows at these places, one after another.
fn shown_anew<A: Allocator + Copy>(
    alloc: A,
    day: &Day<A>,
    places: &[Place],
) -> Result<Vec<Place, A>, DebugFault> {
    shown_along(alloc, &mut Debugger::new(alloc, day, 30_000)?, places)
}

// Compares what a new debugger shows at these places.
fn go_along<A: Allocator + Copy>(
    alloc: A,
    day: &Day<A>,
    places: &[Place],
) -> Result<Result<(), Fail>, DebugFault> {
    let list = shown_anew(alloc, day, places)?;
    Ok(same_list("the stock along the day", &list, places))
}

// Goes to the first five places under a refusal, and with memory where it is refused.
fn go_under<A: Allocator + Copy>(
    heap: &Refusing<Global>,
    alloc: A,
    day: &Day<A>,
    refusal: Refusal,
) -> Result<Tried, Fail> {
    let places = &SHOWN[..5];
    heap.restart(refusal);
    let along = go_along(alloc, day, places);
    let tried = heap.tried(along.is_err());
    match along {
        Ok(compared) => compared?,
        Err(fault) => {
            same("a refused growth", &fault, &DebugFault::Memory)?;
            go_along(alloc, day, places)??;
        }
    }
    Ok(tried)
}

#[test]
fn a_busy_stock_is_shown_at_each_place(rt: HostRuntime) -> Result<(), Fail> {
    let day = day_of(rt.alloc(), busy_file(rt.alloc())?)?;
    go_along(rt.alloc(), &day, &SHOWN)?
}

#[test]
fn a_busy_stock_is_shown_after_a_refused_growth(rt: HostRuntime) -> Result<(), Fail> {
    let file = busy_file(rt.alloc())?;
    let heap = Refusing::new(rt.alloc(), Refusal::Never);
    let growths = refuse_each(|refusal: Refusal| -> Result<Tried, Fail> {
        go_under(&heap, &heap, &day_of(&heap, file.to_vec(&heap)?)?, refusal)
    })?;
    same("some growths", &(growths > 20 && growths <= 200), &true)
}
