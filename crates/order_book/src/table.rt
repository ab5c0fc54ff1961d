//! The live orders of one stock.
ghost use Rattle.std.specs.Prelude.{◌≡◌, ◌<◌, ◌≤◌, ◌^◌, Some, None, IfOk, OnErr, OnOk, IsSome, IsSomeAnd};
ghost use Rattle.std.specs.FinMap as maps;
ghost use Rattle.itch_table.specs.Machine.{row_found};
ghost use Rattle.order_book.specs.Orders.{added, orders_in, reduced_by};
ghost use Rattle.order_book.specs.Parts.{AreApart, joined};

use crate::rising::RisingOrders;
use crate::rows::{as_orders, copied, found_among, reduce_row};
use itch_table::{Found, Order, OrderRow};
use std::alloc::{AllocError, Allocator};
use std::collections::BTreeMap;
use std::marker::Model;

/// The live orders of one stock, each under its reference.
///
/// On a real day references rise. An order whose reference is above those of all in a list, and not too far above the
/// first, goes into that list, where few places in memory are touched to find it again, unless its price is 2^31 or
/// more or its attribution is four zero bytes; any other goes into a tree. So no orders, however they were chosen, cost
/// much more than a look-up in the tree.
#[derive(Drop)]
pub(crate) struct OrderTable<A: Allocator> {
    // What every message about an order reads stands first, in few lines of memory.
    rising: RisingOrders<A>,
    count: usize,
    others: BTreeMap<u64, OrderRow, A>,
}

impl<A: Allocator> Model for OrderTable<A> {
    ghost use Rattle.std.specs.Coded.{coded_ℕ};
    ghost use Rattle.std.specs.FinMap as maps;
    ghost use Rattle.std.specs.Ordering.{nat_cmp};
    ghost use Rattle.itch_table.specs.contracts.order.OrderRow as order_row;
    ghost use Rattle.order_book.specs.Orders.{Orders};
    ghost use Rattle.order_book.specs.Parts.{IsTable, joined};

    ghost Value = { Orders };

    ghost coded = { maps.code {R = nat_cmp} coded_ℕ order_row.the_row.coded };

    ghost view = { λ t. joined t.rising (maps.from_entries t.others.entries) };

    ghost invariant = { λ t. IsTable t.rising (maps.from_entries t.others.entries) t.count };
}

// Takes shares off an order that has at least that many, in the part in which it lives, and returns it as it was.
fn reduce_either<A: Allocator + Copy>(
    rising: &mut RisingOrders<A>,
    others: &mut BTreeMap<u64, OrderRow, A>,
    reference: u64,
    hint: usize,
    shares: u32,
) -> OrderRow
    requires apart { AreApart rising.old (maps.from_entries others.old.entries) }
    requires live { IsSomeAnd (maps.get (joined rising.old (maps.from_entries others.old.entries)) reference)
        (λ row. shares ≤ row.shares) }
    ensures row { maps.get (joined rising.old (maps.from_entries others.old.entries)) reference
        ≡ Some result }
    ensures left { joined rising.new (maps.from_entries others.new.entries) ≡
        reduced_by (joined rising.old (maps.from_entries others.old.entries)) reference result shares }
    ensures apart { AreApart rising.new (maps.from_entries others.new.entries) }
{
    match rising.reduce(reference, hint, shares) {
        Some(row) => row,
        None => reduce_row(others, reference, shares),
    }
}

impl<A: Allocator + Copy> OrderTable<A> {
    /// No orders. It takes no memory yet.
    pub fn new(alloc: A) -> OrderTable<A>
        ensures { result ≡ maps.empty }
    {
        OrderTable {
            rising: RisingOrders::new(alloc),
            others: BTreeMap::new(alloc),
            count: 0,
        }
    }

    /// The order that lives under a reference.
    #[inline(always)]
    pub fn find(&self, reference: u64) -> Option<Found>
        ensures { row_found result ≡ maps.get self.now reference }
    {
        match self.rising.find(reference) {
            Some(found) => Some(found),
            None => found_among(&self.others, reference),
        }
    }

    /// How many orders live.
    pub fn len(&self) -> usize
        ensures { result ≡ maps.len self.now }
    {
        self.count
    }

    /// Adds an order that has shares, under a reference that isn't live, to fewer than 2^32 orders. An error leaves
    /// the orders as they were.
    #[inline(always)]
    pub fn insert(&mut self, order: Order) -> Result<(), AllocError>
        requires new { maps.get self.old order.reference ≡ None }
        requires some { 1 ≤ order.shares }
        requires few { maps.len self.old < 2 ^ 32 }
        ensures ok { OnOk result (self.new ≡ added self.old order) }
        ensures err { OnErr result (self.new ≡ self.old) }
    {
        if !self.rising.push(order)? {
            self.others.insert(order.reference, order.row())?;
        }
        self.count += 1;
        Ok(())
    }

    /// Takes shares off a live order that has at least that many, and returns the order as it was. One with none left
    /// is gone. The hint is that of a search for it.
    pub fn reduce(&mut self, reference: u64, hint: usize, shares: u32) -> OrderRow
        requires { IsSomeAnd (maps.get self.old reference) (λ row. shares ≤ row.shares) }
        ensures row { maps.get self.old reference ≡ Some result }
        ensures left { self.new ≡ reduced_by self.old reference result shares }
    {
        let row = reduce_either(&mut self.rising, &mut self.others, reference, hint, shares);
        if row.shares == shares {
            self.count -= 1;
        }
        row
    }

    /// Removes a live order, and returns what it was. The hint is that of a search for it.
    #[inline(always)]
    pub fn remove(&mut self, reference: u64, hint: usize) -> OrderRow
        requires { IsSome (maps.get self.old reference) }
        ensures row { maps.get self.old reference ≡ Some result }
        ensures gone { self.new ≡ maps.remove self.old reference }
    {
        self.count -= 1;
        match self.rising.remove(reference, hint) {
            Some(row) => row,
            None => self.others.remove(&reference).unwrap(),
        }
    }

    /// The orders, by rising reference.
    pub fn list(&self, alloc: A) -> Result<Vec<Order, A>, AllocError>
        ensures { IfOk result (λ list. list.items ≡ orders_in self.now) }
    {
        let rising = self.rising.list(alloc)?;
        if self.others.is_empty() {
            return Ok(rising);
        }
        let mut rows = copied(alloc, &self.others)?;
        rows.extend(rising.iter().map(|order| (order.reference, order.row())))?;
        as_orders(alloc, &rows)
    }

    /// The same orders, in memory of `alloc`.
    pub fn copy(&self, alloc: A) -> Result<OrderTable<A>, AllocError>
        ensures { IfOk result (λ copy. copy ≡ self.now) }
    {
        Ok(OrderTable {
            rising: self.rising.copy(alloc)?,
            others: copied(alloc, &self.others)?,
            count: self.count,
        })
    }
}
