//! What a book shows after each of its calls.
use crate::calls::{Call, ask, bid, level, make_all, same_books};
use itch_table::{Level, Order, Side, Top};
use order_book::Book;
use std::alloc::Allocator;
use std::test::Fail;
use test_support::{same, same_list};

// The top of a book without asks.
fn best_bid(bid_price: u32, bid_shares: u64) -> Top {
    Top {
        bid_price,
        bid_shares,
        ask_price: 0,
        ask_shares: 0,
    }
}

// A book lists these levels of a side.
fn lists_levels<A: Allocator + Copy>(
    alloc: A,
    book: &Book<A>,
    side: Side,
    levels: &[Level],
) -> Result<(), Fail> {
    same_list("the levels", &book.levels(alloc, side)?, levels)
}

// A call, and what a book shows after it: its top, how many orders live, and the bids.
type Row<'a> = (Call, Top, u32, &'a [Level]);

// Makes calls on bids one after another, and compares what the book shows after each.
fn follow<A: Allocator + Copy>(alloc: A, book: &mut Book<A>, rows: &[Row<'_>]) -> Result<(), Fail> {
    for (call, top, count, levels) in rows {
        make_all(book, &[*call])?;
        same(
            "after a call",
            &(*call, book.top(), book.count()),
            &(*call, *top, *count),
        )?;
        lists_levels(alloc, book, Side::Buy, levels)?;
    }
    Ok(())
}

#[test]
fn levels_follow_the_orders(rt: HostRuntime) -> Result<(), Fail> {
    let rows: [Row<'_>; 6] = [
        (bid(1, 100, 10), best_bid(10, 100), 1, &[level(10, 100)]),
        (bid(2, 50, 10), best_bid(10, 150), 2, &[level(10, 150)]),
        (Call::Reduce(1, 40), best_bid(10, 110), 2, &[level(10, 110)]),
        (
            Call::Replace(2, 3, 50, 11),
            best_bid(11, 50),
            2,
            &[level(11, 50), level(10, 60)],
        ),
        (Call::Remove(1), best_bid(11, 50), 1, &[level(11, 50)]),
        (Call::Reduce(3, 50), best_bid(0, 0), 0, &[]),
    ];
    follow(rt.alloc(), &mut Book::new(rt.alloc()), &rows)
}

// Orders of both sides, which come in no order.
fn mixed() -> [Call; 5] {
    [
        ask(5, 20, 30),
        bid(3, 10, 20),
        ask(9, 1, 25),
        bid(4, 2, 21),
        ask(7, 4, 25),
    ]
}

// A book with these orders, which has taken the calls.
fn mixed_book<A: Allocator + Copy>(alloc: A, calls: &[Call]) -> Result<Book<A>, Fail> {
    let mut book = Book::new(alloc);
    make_all(&mut book, &mixed())?;
    make_all(&mut book, calls)?;
    Ok(book)
}

// A book lists orders with these references.
fn lists_orders<A: Allocator + Copy>(
    alloc: A,
    book: &Book<A>,
    references: &[u64],
) -> Result<(), Fail> {
    let orders = book.orders(alloc)?;
    let listed: Vec<u64, A> = orders.iter().map(|order| order.reference).collect(alloc)?;
    same_list("the references", &listed, references)
}

// A book of those orders lists them by their references, and their levels by their prices.
fn lists_in_order<A: Allocator + Copy>(alloc: A, book: &Book<A>) -> Result<(), Fail> {
    let top = Top {
        ask_price: 25,
        ask_shares: 5,
        ..best_bid(21, 2)
    };
    same(
        "the count and the top",
        &(book.count(), book.top()),
        &(5, top),
    )?;
    lists_orders(alloc, book, &[3, 4, 5, 7, 9])?;
    lists_levels(alloc, book, Side::Buy, &[level(21, 2), level(20, 10)])?;
    lists_levels(alloc, book, Side::Sell, &[level(25, 5), level(30, 20)])
}

#[test]
fn orders_and_levels_are_in_order(rt: HostRuntime) -> Result<(), Fail> {
    lists_in_order(rt.alloc(), &mixed_book(rt.alloc(), &[])?)
}

// Twenty orders come into a new book, and fifteen of them go; a free reference comes again, and an order moves to one
// below all others.
fn reuse_references<A: Allocator + Copy>(alloc: A, book: &mut Book<A>) -> Result<(), Fail> {
    for reference in 1..=20u64 {
        make_all(book, &[bid(reference, 10, 5)])?;
    }
    for reference in 1..=15u64 {
        make_all(book, &[Call::Remove(reference)])?;
    }
    lists_orders(alloc, book, &[16, 17, 18, 19, 20])?;
    let changes = [
        bid(7, 3, 6),
        Call::Replace(18, 2, 4, 6),
        Call::Reduce(7, 1),
        Call::Remove(20),
    ];
    make_all(book, &changes)?;
    lists_orders(alloc, book, &[2, 7, 16, 17, 19])
}

#[test]
fn references_that_are_free_come_again(rt: HostRuntime) -> Result<(), Fail> {
    let mut book = Book::new(rt.alloc());
    reuse_references(rt.alloc(), &mut book)?;
    let shares = (book.level(Side::Buy, 5), book.level(Side::Buy, 6));
    same(
        "the shares and the count",
        &(shares, book.count()),
        &((30, 6), 5),
    )
}

#[test]
fn a_level_is_of_one_side_and_one_price(rt: HostRuntime) -> Result<(), Fail> {
    let rows = [
        (Side::Sell, 25, 5),
        (Side::Sell, 30, 20),
        (Side::Sell, 20, 0),
        (Side::Buy, 20, 10),
        (Side::Buy, 21, 2),
        (Side::Buy, 25, 0),
        (Side::Buy, 0, 0),
    ];
    let book = mixed_book(rt.alloc(), &[])?;
    for (side, price, shares) in rows {
        same(
            "a level",
            &(side, price, book.level(side, price)),
            &(side, price, shares),
        )?;
    }
    Ok(())
}

#[test]
fn a_replacement_takes_over_side_and_participant(rt: HostRuntime) -> Result<(), Fail> {
    let mut book = Book::new(rt.alloc());
    make_all(&mut book, &[ask(1, 30, 500), Call::Replace(1, 2, 20, 400)])?;
    let moved = Order {
        reference: 2,
        side: Side::Sell,
        shares: 20,
        price: 400,
        attribution: Some(*b"ABCD"),
    };
    same(
        "the old reference and the new one",
        &(book.order(1), book.order(2), book.count()),
        &(None, Some(moved), 1),
    )
}

// A book shows what another shows that has these orders and has taken the calls.
fn shows_mixed<A: Allocator + Copy>(alloc: A, book: &Book<A>, calls: &[Call]) -> Result<(), Fail> {
    same_books(alloc, book, &mixed_book(alloc, calls)?)
}

// A copy shows its book as it was when it was made, until it is changed in the same way.
fn change_apart<A: Allocator + Copy>(
    alloc: A,
    book: &mut Book<A>,
    copy: &mut Book<A>,
) -> Result<(), Fail> {
    let changes = [Call::Remove(9), Call::Reduce(3, 4)];
    make_all(book, &changes)?;
    shows_mixed(alloc, copy, &[])?;
    make_all(copy, &changes)?;
    shows_mixed(alloc, copy, &changes)
}

#[test]
fn a_copy_stays_as_it_was_made(rt: HostRuntime) -> Result<(), Fail> {
    let mut book = mixed_book(rt.alloc(), &[])?;
    let mut copy = book.copy(rt.alloc())?;
    change_apart(rt.alloc(), &mut book, &mut copy)
}
