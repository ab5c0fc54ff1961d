//! The rows of all stocks.
ghost use Rattle.std.specs.Prelude.{◌≡◌, ◌<◌, ◌^◌, ℕ, false, Some, IsSome, length, map, filter, IfOk, OnOk, OnErr};
ghost use Rattle.std.specs.List.{list_any};
ghost use Rattle.std.specs.BTreeMap.{IsOrdered, keys};
ghost use Rattle.std.specs.Ordering.{nat_cmp};
ghost use Rattle.std.specs.FinMap as maps;
ghost use Rattle.itch_table.specs.World.{empty_world, is_spent, is_under, key, live, locates, totals};
ghost use Rattle.itch_table.specs.Table.{with_new_order, with_order, with_spent, without_order};

use crate::order::{Found, OrderKey, OrderRow};
use crate::status::{StockRow, Totals};
use crate::store::Store;
use crate::trades::{TradeRow, break_trades, has_unbroken, totals_under};
use std::alloc::{AllocError, Allocator};
use std::collections::btree_map::Range;
use std::collections::{BTreeMap, BTreeSet};
use std::marker::Model;

/// The live orders of all stocks, the references that they have had, the trades, what is known of each stock, and the
/// last event.
#[derive(Drop)]
pub(crate) struct Rows<A: Allocator> {
    orders: BTreeMap<OrderKey, OrderRow, A>,
    spent: BTreeSet<OrderKey, A>,
    trades: Vec<(u16, TradeRow), A>,
    stocks: BTreeMap<u16, StockRow, A>,
    event: Option<u8>,
}

impl<A: Allocator> Model for Rows<A> {
    ghost use Rattle.std.specs.FinMap as maps;
    ghost use Rattle.itch_table.specs.CodedWorld.{coded_world};
    ghost use Rattle.itch_table.specs.World.{World};
    ghost use Rattle.itch_table.specs.KeySets.{set_of};

    ghost Value = { World };

    ghost coded = { coded_world };

    ghost view = { λ r. record {
      orders = maps.from_entries r.orders.entries;
      spent = set_of r.spent.keys;
      trades = r.trades.items;
      stocks = maps.from_entries r.stocks.entries;
      event = r.event;
    } };
}

impl<A: Allocator + Copy> Rows<A> {
    /// No rows.
    pub fn new(alloc: A) -> Rows<A>
        ensures { result ≡ empty_world }
    {
        Rows {
            orders: BTreeMap::new(alloc),
            spent: BTreeSet::new(alloc),
            trades: Vec::new(alloc),
            stocks: BTreeMap::new(alloc),
            event: None,
        }
    }

    /// The last event.
    pub fn event(&self) -> Option<u8>
        ensures { result ≡ self.now.event }
    {
        self.event
    }

    /// Whether an order of a stock has had a reference.
    pub fn is_spent(&self, locate: u16, reference: u64) -> bool
        ensures { result ≡ is_spent self.now locate reference }
    {
        self.spent.contains(&OrderKey { locate, reference })
    }

    // Sets an order, which may need a new row.
    fn set_order(&mut self, locate: u16, reference: u64, row: OrderRow) -> Result<(), AllocError>
        ensures ok { OnOk result (self.new ≡ with_order self.old locate reference row) }
        ensures err { OnErr result (self.new ≡ self.old) }
    {
        match self.orders.insert(OrderKey { locate, reference }, row) {
            Ok(_) => Ok(()),
            Err(_) => Err(AllocError),
        }
    }

    // Spends a reference.
    fn spend(&mut self, locate: u16, reference: u64) -> Result<(), AllocError>
        ensures ok { OnOk result (self.new ≡ with_spent self.old locate reference) }
        ensures err { OnErr result (self.new ≡ self.old) }
    {
        match self.spent.insert(OrderKey { locate, reference }) {
            Ok(_) => Ok(()),
            Err(_) => Err(AllocError),
        }
    }

    // Takes back that a reference is spent.
    fn unspend(&mut self, locate: u16, reference: u64)
        ensures { self.new ≡
            record self.old { spent = maps.remove self.old.spent (key locate reference) } }
    {
        self.spent.remove(&OrderKey { locate, reference });
    }

    // Adds an order under a reference that no order of the stock has had.
    fn set_new_order(
        &mut self,
        locate: u16,
        reference: u64,
        row: OrderRow,
    ) -> Result<(), AllocError>
        requires { is_spent self.old locate reference ≡ false }
        ensures ok { OnOk result (self.new ≡ with_new_order self.old locate reference row) }
        ensures err { OnErr result (self.new ≡ self.old) }
    {
        self.spend(locate, reference)?;
        match self.set_order(locate, reference, row) {
            Ok(()) => Ok(()),
            Err(error) => {
                self.unspend(locate, reference);
                Err(error)
            }
        }
    }

    // Sets an order that lives already, which takes no memory.
    fn update_order(&mut self, locate: u16, reference: u64, row: OrderRow)
        requires { IsSome (live self.old locate reference) }
        ensures { self.new ≡ with_order self.old locate reference row }
    {
        if let Some(known) = self.orders.get_mut(&OrderKey { locate, reference }) {
            *known = row;
        }
    }

    // Removes an order, where it lives.
    fn unset_order(&mut self, locate: u16, reference: u64)
        ensures { self.new ≡ without_order self.old locate reference }
    {
        self.orders.remove(&OrderKey { locate, reference });
    }

    /// A stock's totals over its trades.
    pub fn totals(&self, locate: u16) -> Totals
        requires { length self.now.trades < 2 ^ 32 }
        ensures { result ≡ totals self.now locate }
    {
        totals_under(&self.trades, locate)
    }

    /// A part of the order rows that has all of a stock's, in order.
    pub fn rows_near(&self, locate: u16) -> Range<'_, OrderKey, OrderRow>
        ensures { filter (λ e. is_under locate e.0) result ≡
            filter (λ e. is_under locate e.0) (maps.entries self.now.orders) }
    {
        let first = OrderKey {
            locate,
            reference: 0,
        };
        match locate.checked_add(1) {
            Some(locate) => self.orders.range(first..OrderKey { locate, ..first }),
            None => self.orders.range(first..),
        }
    }

    /// The locate codes that have a directory row, rising.
    pub fn locates(&self, alloc: A) -> Result<Vec<u16, A>, AllocError>
        ensures { IfOk result (λ list. list.items ≡ locates self.now) }
    {
        keys_of(alloc, &self.stocks)
    }
}

impl<A: Allocator + Copy> Store for Rows<A> {
    ghost use Rattle.itch_table.specs.Held.{all_stocks};

    ghost held = { all_stocks };

    ghost has_room = { λ _. Unit {0} };

    fn stock(&self, locate: u16) -> Option<&StockRow> {
        self.stocks.get(&locate)
    }

    fn order(&self, locate: u16, reference: u64) -> Option<Found> {
        let row = self.orders.get(&OrderKey { locate, reference }).copied()?;
        Some(Found { row, hint: 0 })
    }

    fn is_fresh(&self, locate: u16, reference: u64) -> bool {
        !self.is_spent(locate, reference) && self.order(locate, reference).is_none()
    }

    fn has_unbroken(&self, locate: u16, match_no: u64) -> bool {
        has_unbroken(&self.trades, locate, match_no)
    }

    fn set_event(&mut self, event: u8) {
        self.event = Some(event);
    }

    fn set_stock(&mut self, locate: u16, row: StockRow) -> Result<(), AllocError> {
        match self.stocks.insert(locate, row) {
            Ok(_) => Ok(()),
            Err(_) => Err(AllocError),
        }
    }

    fn update_stock(&mut self, locate: u16, row: StockRow) {
        if let Some(known) = self.stocks.get_mut(&locate) {
            *known = row;
        }
    }

    fn add_order(&mut self, locate: u16, reference: u64, row: OrderRow) -> Result<(), AllocError> {
        self.set_new_order(locate, reference, row)
    }

    fn reduce_order(&mut self, locate: u16, reference: u64, found: Found, shares: u32) {
        let row = found.row;
        if row.shares == shares {
            self.unset_order(locate, reference);
        } else {
            let left = OrderRow {
                shares: row.shares - shares,
                ..row
            };
            self.update_order(locate, reference, left);
        }
    }

    fn remove_order(&mut self, locate: u16, reference: u64, _found: Found) {
        self.unset_order(locate, reference);
    }

    fn replace_order(
        &mut self,
        locate: u16,
        old: u64,
        found: Found,
        new: u64,
        shares: u32,
        price: u32,
    ) -> Result<(), AllocError> {
        let placed = OrderRow {
            shares,
            price,
            ..found.row
        };
        self.set_new_order(locate, new, placed)?;
        self.unset_order(locate, old);
        Ok(())
    }

    fn add_trade(&mut self, locate: u16, trade: TradeRow) -> Result<(), AllocError> {
        self.trades.push((locate, trade))?;
        Ok(())
    }

    fn break_trades(&mut self, locate: u16, match_no: u64) {
        break_trades(&mut self.trades, locate, match_no);
    }
}

// The keys of the map, rising.
fn keys_of<A: Allocator + Copy>(
    alloc: A,
    stocks: &BTreeMap<u16, StockRow, A>,
) -> Result<Vec<u16, A>, AllocError>
    ensures list { IfOk result (λ list. list.items ≡ keys stocks.now) }
    ensures ordered { IsOrdered nat_cmp stocks.now }
{
    stocks.keys().copied().collect(alloc)
}
