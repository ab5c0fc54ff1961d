//! The book of one stock.
ghost use Rattle.std.specs.Prelude.{◌≡◌, ◌-◌, ◌<◌, ◌≤◌, ◌^◌, Some, None, length, slice_index_or, IfOk, OnOk, OnErr, IsSome, IsSomeAnd};
ghost use Rattle.std.specs.FinMap as maps;
ghost use Rattle.itch_table.specs.Levels.{levels, no_level, shares_at, top};
ghost use Rattle.itch_table.specs.Machine.{row_found};
ghost use Rattle.order_book.specs.Orders.{order_in, orders_in, reduced, replaced, added};

use crate::levels::Levels;
use crate::table::OrderTable;
use itch_table::{Found, Level, Order, OrderRow, Side, Top};
use std::alloc::{AllocError, Allocator};
use std::marker::Model;

/// The live orders of one stock, each under its reference, and the levels that they make.
///
/// The levels are kept beside the orders, so that no call sums them over the orders. [`Book::orders`] and [`Book::copy`]
/// walk all orders, and so does now and then a call that takes one away, which then drops those that have gone.
///
/// What the calls do is of Nasdaq TotalView-ITCH 5.0, "Add Order Message" and "Modify Order Messages"; levels are of
/// this project. A book refuses nothing: its caller sees by [`Book::order`] that a reference is live, or isn't. Prices
/// are in 1/10,000 of a currency unit. A call that returns a `Result` may take memory; no other call takes any.
///
/// ```text
/// let mut book = Book::new(alloc);
/// book.add(Order { reference: 1, side: Side::Buy, shares: 100, price: 10, attribution: None })?;
/// book.replace(1, 2, 50, 11)?;
/// book.reduce(2, 20);
/// assert_eq!((book.level(Side::Buy, 10), book.level(Side::Buy, 11)), (0, 30));
/// assert_eq!(book.remove(2).shares, 30);
/// ```
#[derive(Drop)]
pub struct Book<A: Allocator> {
    levels: Levels<A>,
    orders: OrderTable<A>,
}

impl<A: Allocator> Model for Book<A> {
    ghost use Rattle.std.specs.Coded.{coded_ℕ};
    ghost use Rattle.std.specs.FinMap as maps;
    ghost use Rattle.std.specs.Ordering.{nat_cmp};
    ghost use Rattle.itch_table.specs.contracts.order.OrderRow as order_row;
    ghost use Rattle.order_book.specs.Kept.{IsBook};
    ghost use Rattle.order_book.specs.Orders.{Orders};

    ghost Value = { Orders };

    ghost coded = { maps.code {R = nat_cmp} coded_ℕ order_row.the_row.coded };

    ghost view = { λ b. b.orders };

    ghost invariant = { λ b. IsBook b.orders b.levels };
}

impl<A: Allocator + Copy> Book<A> {
    /// A book without orders. It takes no memory yet.
    pub fn new(alloc: A) -> Book<A>
        ensures { result ≡ maps.empty }
    {
        Book {
            orders: OrderTable::new(alloc),
            levels: Levels::new(alloc),
        }
    }

    /// The order that lives under a reference.
    pub fn order(&self, reference: u64) -> Option<Order>
        ensures { result ≡ order_in self.now reference }
    {
        let found = self.find(reference)?;
        Some(found.row.under(reference))
    }

    /// The order that lives under a reference, as [`Book::reduce_found`], [`Book::remove_found`] and
    /// [`Book::replace_found`] take it, so that it isn't looked for twice.
    #[inline(always)]
    pub fn find(&self, reference: u64) -> Option<Found>
        ensures { row_found result ≡ maps.get self.now reference }
    {
        self.orders.find(reference)
    }

    /// How many orders live: at most 2^32 - 1.
    pub fn count(&self) -> u32
        ensures { result ≡ maps.len self.now }
    {
        self.orders.len() as u32
    }

    /// Adds an order that has shares, under a reference that isn't live, to a book of fewer than 2^32 - 1 orders.
    /// An error leaves the book as it was.
    #[inline(always)]
    pub fn add(&mut self, order: Order) -> Result<(), AllocError>
        requires new { order_in self.old order.reference ≡ None }
        requires some { 1 ≤ order.shares }
        requires few { maps.len self.old < 2 ^ 32 - 1 }
        ensures ok { OnOk result (self.new ≡ added self.old order) }
        ensures err { OnErr result (self.new ≡ self.old) }
    {
        self.levels.reserve(order.side)?;
        self.orders.insert(order)?;
        self.levels.raise(order.side, order.price, order.shares);
        Ok(())
    }

    /// Puts a new order, which has shares, in the place of a live one, whose side and market participant it takes
    /// over. The new reference isn't live before, and the old one isn't afterwards. An error leaves the book as it was.
    pub fn replace(&mut self, old: u64, new: u64, shares: u32, price: u32) -> Result<(), AllocError>
        requires live { IsSome (order_in self.old old) }
        requires new { order_in self.old new ≡ None }
        requires some { 1 ≤ shares }
        ensures ok { OnOk result (self.new ≡ replaced self.old old new shares price) }
        ensures err { OnErr result (self.new ≡ self.old) }
    {
        let found = self.find(old).unwrap();
        self.replace_found(old, found, new, shares, price)
    }

    /// The same, of an order that was found.
    pub fn replace_found(
        &mut self,
        old: u64,
        found: Found,
        new: u64,
        shares: u32,
        price: u32,
    ) -> Result<(), AllocError>
        requires live { maps.get self.old old ≡ Some found.row }
        requires new { order_in self.old new ≡ None }
        requires some { 1 ≤ shares }
        ensures ok { OnOk result (self.new ≡ replaced self.old old new shares price) }
        ensures err { OnErr result (self.new ≡ self.old) }
    {
        let row = found.row;
        let placed = OrderRow {
            shares,
            price,
            ..row
        };
        self.levels.reserve(row.side)?;
        self.orders.insert(placed.under(new))?;
        self.orders.remove(old, found.hint);
        self.levels.raise(row.side, price, shares);
        self.levels.lower(row.side, row.price, row.shares);
        Ok(())
    }

    /// Takes shares off a live order that has at least that many. An order with none left is gone.
    pub fn reduce(&mut self, reference: u64, shares: u32)
        requires { IsSomeAnd (order_in self.old reference) (λ order. shares ≤ order.shares) }
        ensures { self.new ≡ reduced self.old reference shares }
    {
        let found = self.find(reference).unwrap();
        self.reduce_found(reference, found, shares);
    }

    /// The same, of an order that was found.
    pub fn reduce_found(&mut self, reference: u64, found: Found, shares: u32)
        requires live { maps.get self.old reference ≡ Some found.row }
        requires enough { shares ≤ found.row.shares }
        ensures { self.new ≡ reduced self.old reference shares }
    {
        let row = self.orders.reduce(reference, found.hint, shares);
        self.levels.lower(row.side, row.price, shares);
    }

    /// Removes a live order, and returns what it was.
    pub fn remove(&mut self, reference: u64) -> Order
        requires { IsSome (order_in self.old reference) }
        ensures order { order_in self.old reference ≡ Some result }
        ensures gone { self.new ≡ maps.remove self.old reference }
    {
        let found = self.find(reference).unwrap();
        self.remove_found(reference, found);
        found.row.under(reference)
    }

    /// The same, of an order that was found.
    #[inline(always)]
    pub fn remove_found(&mut self, reference: u64, found: Found)
        requires { maps.get self.old reference ≡ Some found.row }
        ensures { self.new ≡ maps.remove self.old reference }
    {
        let row = self.orders.remove(reference, found.hint);
        self.levels.lower(row.side, row.price, row.shares);
    }

    /// The shares of a side's orders at a price, 0 where there are none.
    pub fn level(&self, side: Side, price: u32) -> u64
        ensures { result ≡ shares_at (orders_in self.now) side price }
    {
        self.levels.shares(side, price)
    }

    /// The best bid and the best ask, with the shares there; zeros where a side is empty.
    pub fn top(&self) -> Top
        ensures { result ≡ top (orders_in self.now) }
    {
        Top::of(self.levels.best(Side::Buy), self.levels.best(Side::Sell))
    }

    /// A side's level at a place, counted from 0 at the best one, or zeros where there is none.
    pub fn nth_level(&self, side: Side, place: usize) -> Level
        ensures { result ≡ slice_index_or (levels (orders_in self.now) side) place no_level }
    {
        self.levels.nth(side, place)
    }

    /// A side's levels: bids by falling price, asks by rising price.
    pub fn levels(&self, alloc: A, side: Side) -> Result<Vec<Level, A>, AllocError>
        ensures { IfOk result (λ list. list.items ≡ levels (orders_in self.now) side) }
    {
        self.levels.list(alloc, side)
    }

    /// The live orders, by rising reference.
    pub fn orders(&self, alloc: A) -> Result<Vec<Order, A>, AllocError>
        ensures list { IfOk result (λ list. list.items ≡ orders_in self.now) }
        // They are fewer than messages can be.
        ensures few { length (orders_in self.now) < 2 ^ 32 }
    {
        self.orders.list(alloc)
    }

    /// A book with the same orders, whose memory is that of `alloc`.
    pub fn copy(&self, alloc: A) -> Result<Book<A>, AllocError>
        ensures { IfOk result (λ book. book ≡ self.now) }
    {
        Ok(Book {
            orders: self.orders.copy(alloc)?,
            levels: self.levels.copy(alloc)?,
        })
    }
}
