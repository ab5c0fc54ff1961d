//! Growths that are refused in turn: a call that is refused memory changes nothing, and some calls take none.
use crate::calls::{Call, ask, bid, level, make, make_all, same_books, same_results};
use itch_table::{Level, Order, Side, Top};
use order_book::Book;
use std::alloc::{AllocError, Allocator, Global};
use std::test::Fail;
use test_refusing::{Refusal, Refusing, Tried, refuse_any, refuse_each};
use test_support::{LISTINGS, Listing, same, same_list};

// These of the numbers from 1 to 100 are each other, and neither rise nor fall.
fn scattered(number: u32) -> u32 {
    number % 101 * 37 % 101
}

// The call of this number: the first 99 add orders, and the next 99 replace them.
fn numbered(number: u32) -> Call {
    if number < 100 {
        bid(u64::from(scattered(number)), 10, number % 7)
    } else {
        let original = u64::from(scattered(number - 99));
        Call::Replace(original, 1_000 + original, 20, number % 5)
    }
}

// A book after the calls with a lower number.
fn book_before<A: Allocator + Copy>(alloc: A, number: u32) -> Result<Book<A>, Fail> {
    let mut book = Book::new(alloc);
    for earlier in 1..number {
        make_all(&mut book, &[numbered(earlier)])?;
    }
    Ok(book)
}

// Makes a call of a book under a refusal. Where it is refused, the book is as its twin is, and the call is made with
// memory. In the end the book shows what the twin shows, whose call was never refused.
fn call_under<A: Allocator + Copy>(
    heap: &Refusing<Global>,
    alloc: A,
    book: &mut Book<A>,
    twin: &mut Book<A>,
    call: Call,
    refusal: Refusal,
) -> Result<Tried, Fail> {
    heap.restart(refusal);
    let returned = make(book, call)?;
    let tried = heap.tried(returned.is_err());
    if tried.refused {
        same_books(alloc, book, twin)?;
        same_results(book, twin)?;
        make_all(book, &[call])?;
    }
    make_all(twin, &[call])?;
    same_books(alloc, book, twin)?;
    Ok(tried)
}

// Makes the call of this number under a refusal.
fn try_call<A: Allocator + Copy>(
    heap: &Refusing<Global>,
    alloc: A,
    number: u32,
    refusal: Refusal,
) -> Result<Tried, Fail> {
    let mut book = book_before(alloc, number)?;
    let mut twin = book_before(alloc, number)?;
    call_under(heap, alloc, &mut book, &mut twin, numbered(number), refusal)
}

// Of the rows of 99 orders some need memory, and some find room.
#[test]
fn a_call_without_memory_changes_nothing(rt: HostRuntime) -> Result<(), Fail> {
    let heap = Refusing::new(rt.alloc(), Refusal::Never);
    for kind in [1..100u32, 100..199] {
        let mut growths = 0u64;
        for number in kind {
            let more = refuse_any(|refusal: Refusal| -> Result<Tried, Fail> {
                try_call(&heap, &heap, number, refusal)
            })?;
            growths = growths.saturating_add(more);
        }
        same(
            "that some needed memory",
            &(growths > 0, growths < 99),
            &(true, true),
        )?;
    }
    Ok(())
}

// Orders that fill the list of a new book, so that a replacement asks for memory.
fn without_room() -> [Call; 5] {
    [
        bid(1, 100, 10),
        bid(2, 50, 10),
        ask(3, 5, 20),
        ask(4, 5, 20),
        Call::Reduce(1, 40),
    ]
}

// A book shows these bids, and whether orders 2 and 5 live.
fn shows_bids<A: Allocator + Copy>(
    alloc: A,
    book: &Book<A>,
    bids: &[Level],
    live: (bool, bool),
) -> Result<(), Fail> {
    same_list("the bids", &book.levels(alloc, Side::Buy)?, bids)?;
    same(
        "whether the original lives, and the new order",
        &(book.order(2).is_some(), book.order(5).is_some()),
        &live,
    )
}

const REPLACEMENT: Call = Call::Replace(2, 5, 50, 11);

// Replaces order 2 of a new book under a refusal. Where that is refused, the order and the levels stay, and it is replaced with
// memory.
fn replace_under<A: Allocator + Copy>(
    heap: &Refusing<Global>,
    alloc: A,
    book: &mut Book<A>,
    refusal: Refusal,
) -> Result<Tried, Fail> {
    make_all(book, &without_room())?;
    heap.restart(refusal);
    let returned = make(book, REPLACEMENT)?;
    let tried = heap.tried(returned.is_err());
    if tried.refused {
        shows_bids(alloc, book, &[level(10, 110)], (true, false))?;
        make_all(book, &[REPLACEMENT])?;
    }
    shows_bids(alloc, book, &[level(11, 50), level(10, 60)], (false, true))?;
    Ok(tried)
}

#[test]
fn a_refused_replacement_leaves_order_and_levels(rt: HostRuntime) -> Result<(), Fail> {
    let heap = Refusing::new(rt.alloc(), Refusal::Never);
    refuse_each(|refusal: Refusal| -> Result<Tried, Fail> {
        replace_under(&heap, &heap, &mut Book::new(&heap), refusal)
    })?;
    Ok(())
}

// Orders of both sides, at three prices, one of which comes after one with a higher reference.
fn both_sides() -> [Call; 4] {
    [
        bid(2, 10, 90),
        bid(1, 10, 100),
        ask(3, 5, 110),
        bid(4, 1, 100),
    ]
}

// A book with orders of both sides.
fn both_sided<A: Allocator + Copy>(alloc: A) -> Result<Book<A>, Fail> {
    let mut book = Book::new(alloc);
    make_all(&mut book, &both_sides())?;
    Ok(book)
}

// The first of the orders of both sides, by their references.
const FIRST: Order = Order {
    reference: 1,
    side: Side::Buy,
    shares: 10,
    price: 100,
    attribution: None,
};

// The orders of both sides.
fn orders_of_both() -> [Order; 4] {
    [
        FIRST,
        Order {
            reference: 2,
            price: 90,
            ..FIRST
        },
        Order {
            reference: 3,
            side: Side::Sell,
            shares: 5,
            price: 110,
            attribution: Some(*b"ABCD"),
        },
        Order {
            reference: 4,
            shares: 1,
            ..FIRST
        },
    ]
}

// Makes a list of a book of both sides, and compares it. An error of the list itself says that memory was refused.
fn list<A: Allocator + Copy>(
    alloc: A,
    book: &Book<A>,
    listing: Listing,
) -> Result<Result<(), Fail>, AllocError> {
    match listing {
        Listing::Orders => {
            let orders = book.orders(alloc)?;
            Ok(same_list("the orders", &orders, &orders_of_both()))
        }
        Listing::Levels(Side::Buy) => {
            let bids = book.levels(alloc, Side::Buy)?;
            Ok(same_list("the bids", &bids, &[level(100, 11), level(90, 10)]))
        }
        Listing::Levels(Side::Sell) => {
            let asks = book.levels(alloc, Side::Sell)?;
            Ok(same_list("the asks", &asks, &[level(110, 5)]))
        }
    }
}

// A book shows what the orders of both sides make.
fn shows_both_sides<A: Allocator + Copy>(alloc: A, book: &Book<A>) -> Result<(), Fail> {
    let top = Top::of(level(100, 11), level(110, 5));
    same(
        "the count and the top",
        &(book.count(), book.top()),
        &(4, top),
    )?;
    for listing in LISTINGS {
        list(alloc, book, listing)??;
    }
    Ok(())
}

// Makes a list of a book of both sides under a refusal. The book stays as it is, and its lists are made again with
// memory.
fn list_under<A: Allocator + Copy>(
    heap: &Refusing<Global>,
    alloc: A,
    book: &Book<A>,
    listing: Listing,
    refusal: Refusal,
) -> Result<Tried, Fail> {
    heap.restart(refusal);
    let listed = list(alloc, book, listing);
    let tried = heap.tried(listed.is_err());
    if let Ok(compared) = listed {
        compared?;
    }
    shows_both_sides(alloc, book)?;
    Ok(tried)
}

// A copy shows what the orders of both sides make, and what its book shows.
fn same_copy<A: Allocator + Copy>(alloc: A, copy: &Book<A>, book: &Book<A>) -> Result<(), Fail> {
    shows_both_sides(alloc, copy)?;
    same_books(alloc, copy, book)
}

// The same of a new copy.
fn same_new_copy<A: Allocator + Copy>(alloc: A, book: &Book<A>) -> Result<(), Fail> {
    same_copy(alloc, &book.copy(alloc)?, book)
}

// The same of a copy, or of a new one where it was refused.
fn same_copy_or_next<A: Allocator + Copy>(
    alloc: A,
    copy: Result<Book<A>, AllocError>,
    book: &Book<A>,
) -> Result<(), Fail> {
    match copy {
        Ok(copy) => same_copy(alloc, &copy, book),
        Err(AllocError) => same_new_copy(alloc, book),
    }
}

// Makes a copy of a book of both sides under a refusal, and with memory where it is refused. It leaves the book as it
// is.
fn copy_under<A: Allocator + Copy>(
    heap: &Refusing<Global>,
    alloc: A,
    book: &Book<A>,
    refusal: Refusal,
) -> Result<Tried, Fail> {
    heap.restart(refusal);
    let copy = book.copy(alloc);
    let tried = heap.tried(copy.is_err());
    same_copy_or_next(alloc, copy, book)?;
    Ok(tried)
}

#[test]
fn a_list_or_a_copy_without_memory_is_none(rt: HostRuntime) -> Result<(), Fail> {
    let heap = Refusing::new(rt.alloc(), Refusal::Never);
    for listing in LISTINGS {
        refuse_each(|refusal: Refusal| -> Result<Tried, Fail> {
            list_under(&heap, &heap, &both_sided(&heap)?, listing, refusal)
        })?;
    }
    refuse_each(|refusal: Refusal| -> Result<Tried, Fail> {
        copy_under(&heap, &heap, &both_sided(&heap)?, refusal)
    })?;
    Ok(())
}

// A book without orders gets those of both sides.
fn grow<A: Allocator + Copy>(alloc: A, grown: &mut Book<A>, book: &Book<A>) -> Result<(), Fail> {
    make_all(grown, &both_sides())?;
    same_copy(alloc, grown, book)
}

// Copies a book without orders and one of both sides into memory of this allocator. The first gets the orders of the
// other then.
fn copies_in<A: Allocator + Copy>(alloc: A, empty: &Book<A>, book: &Book<A>) -> Result<(), Fail> {
    grow(alloc, &mut empty.copy(alloc)?, book)?;
    same_new_copy(alloc, book)
}

#[test]
fn lists_and_a_copy_take_memory_of_their_allocator(rt: HostRuntime) -> Result<(), Fail> {
    let heap = Refusing::new(rt.alloc(), Refusal::Never);
    let other = Refusing::new(rt.alloc(), Refusal::Never);
    let empty = Book::new(&heap);
    let book = both_sided(&heap)?;
    heap.restart(Refusal::From(1));
    copies_in(&other, &empty, &book)
}

// What a book of both sides shows then.
fn shows_fewer<A: Allocator + Copy>(book: &Book<A>) -> Result<(), Fail> {
    same(
        "the best bid, the asks, an order that is gone, and the count",
        &(
            book.top().bid_shares,
            book.level(Side::Sell, 110),
            book.order(4),
            book.count(),
        ),
        &(6, 5, None, 2),
    )
}

#[test]
fn shares_and_orders_go_without_memory(rt: HostRuntime) -> Result<(), Fail> {
    let heap = Refusing::new(rt.alloc(), Refusal::Never);
    let mut book = both_sided(&heap)?;
    heap.restart(Refusal::From(1));
    make_all(
        &mut book,
        &[
            Call::Reduce(1, 4),
            Call::Reduce(1, 0),
            Call::Reduce(4, 1),
            Call::Remove(2),
        ],
    )?;
    shows_fewer(&book)?;
    same("the growths", &heap.asked(), &0)
}

// A list that kept all of the orders that have gone would grow from a few rows to 10,000, and to do so by doubling
// takes more growths than are allowed here.
#[test]
fn orders_that_have_gone_take_no_more_memory(rt: HostRuntime) -> Result<(), Fail> {
    let heap = Refusing::new(rt.alloc(), Refusal::Never);
    let mut book = Book::new(&heap);
    for number in 1..=10_000u32 {
        let reference = u64::from(number);
        make_all(
            &mut book,
            &[bid(reference, 10, number), Call::Remove(reference)],
        )?;
    }
    let growths = heap.asked();
    same(
        "the count, and whether there are few growths",
        &(book.count(), growths > 0, growths < 8),
        &(0, true, true),
    )
}
