//! What the rows of one stock amount to: its orders, its levels, the best of them.
ghost use Rattle.std.specs.Prelude.{◌≡◌, ◌<◌, ◌^◌, length, filter, map, IfOk};
ghost use Rattle.itch_table.specs.World.{is_under, order, order_of, orders_of, status};
ghost use Rattle.itch_table.specs.Levels.{best, levels, top};

use crate::levels::{best_with, levels_of};
use crate::order::{Level, Order, OrderKey, OrderRow, Side, Top};
use crate::rows::Rows;
use crate::status::Status;
use crate::store::Store;
use std::alloc::{AllocError, Allocator};
use std::collections::btree_map::Range;

// An order row with the reference of its key.
fn order_from(key: &OrderKey, row: &OrderRow) -> Order
    ensures { result ≡ order_of key.now row.now }
{
    row.under(key.reference)
}

// The orders of a stock among these rows.
fn orders_among<A: Allocator + Copy>(
    alloc: A,
    rows: Range<'_, OrderKey, OrderRow>,
    locate: u16,
) -> Result<Vec<Order, A>, AllocError>
    ensures { IfOk result (λ list.
        list.items ≡ map (λ e. order_of e.0 e.1) (filter (λ e. is_under locate e.0) rows.entry)) }
{
    rows.filter(|(key, _)| key.locate == locate)
        .map(|(key, row)| order_from(key, row))
        .collect(alloc)
}

impl<A: Allocator + Copy> Rows<A> {
    /// The order that lives under a locate code and a reference.
    pub fn live_order(&self, locate: u16, reference: u64) -> Option<Order>
        ensures { result ≡ order self.now locate reference }
    {
        let found = self.order(locate, reference)?;
        Some(order_from(&OrderKey { locate, reference }, &found.row))
    }

    /// What is known of a stock beside its book.
    pub fn status(&self, locate: u16) -> Status
        ensures { result ≡ status self.now locate }
    {
        Status::of(self.stock(locate).copied())
    }

    /// A stock's live orders, by rising reference.
    pub fn orders(&self, alloc: A, locate: u16) -> Result<Vec<Order, A>, AllocError>
        ensures { IfOk result (λ list. list.items ≡ orders_of self.now locate) }
    {
        orders_among(alloc, self.rows_near(locate), locate)
    }

    /// A side's levels, the best first.
    pub fn levels(&self, alloc: A, locate: u16, side: Side) -> Result<Vec<Level, A>, AllocError>
        requires { length (orders_of self.now locate) < 2 ^ 32 }
        ensures { IfOk result (λ list. list.items ≡ levels (orders_of self.now locate) side) }
    {
        let orders = self.orders(alloc, locate)?;
        levels_of(alloc, &orders, side)
    }

    // The best level of a side, or zeros.
    fn best(&self, locate: u16, side: Side) -> Level
        requires { length (orders_of self.now locate) < 2 ^ 32 }
        ensures { result ≡ best (orders_of self.now locate) side }
    {
        let mut best = Level {
            price: 0,
            shares: 0,
        };
        for (key, row) in self.rows_near(locate) {
            if key.locate == locate {
                best = best_with(best, side, &order_from(key, row));
            }
        }
        best
    }

    /// The best level of each side.
    pub fn top(&self, locate: u16) -> Top
        requires { length (orders_of self.now locate) < 2 ^ 32 }
        ensures { result ≡ top (orders_of self.now locate) }
    {
        Top::of(self.best(locate, Side::Buy), self.best(locate, Side::Sell))
    }
}
