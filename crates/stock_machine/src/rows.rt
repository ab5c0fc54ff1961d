//! The rows of one stock.
ghost use Rattle.std.specs.Prelude.{◌≡◌, ◌<◌, ◌^◌, Some, None, IfOk, length, slice_index_or};
ghost use Rattle.itch_table.specs.World.{empty_world, is_spent, order, orders_of, status, totals};
ghost use Rattle.itch_table.specs.Levels.{levels, no_level, shares_at, top};

use crate::spent::SpentReferences;
use crate::trades::Trades;
use itch_table::{
    Found, Level, Order, OrderRow, Side, Status, StockRow, Store, Top, Totals, TradeRow,
};
use order_book::Book;
use std::alloc::{AllocError, Allocator};
use std::marker::Model;

/// A stock's live orders, the references that they have had, its trades, and what is known of it.
#[derive(Drop)]
pub(crate) struct Rows<A: Allocator> {
    // In the order of memory: what most messages read lies in few lines, as docs/DECISIONS.md explains.
    known: Option<StockRow>,
    locate: u16,
    spent: SpentReferences<A>,
    book: Book<A>,
    trades: Trades<A>,
}

impl<A: Allocator> Model for Rows<A> {
    ghost use Rattle.std.specs.Coded.{codes};
    ghost use Rattle.itch_table.specs.CodedWorld.{coded_world};
    ghost use Rattle.stock_machine.specs.StockRows.{LiveAreSpent, StockRows, stock_rows};

    ghost Value = { StockRows };

    ghost coded = { Prim.hlevel (codes, coded_world) };

    ghost view = { λ r. stock_rows r.locate r.book r.spent r.trades r.known };

    // So no order lives under a reference that isn't spent.
    ghost invariant = { λ r. LiveAreSpent r.book r.spent };
}

impl<A: Allocator + Copy> Rows<A> {
    /// No rows.
    pub fn new(alloc: A, locate: u16) -> Rows<A>
        ensures locate { result.locate ≡ locate }
        ensures world { result.world ≡ empty_world }
    {
        Rows {
            locate,
            book: Book::new(alloc),
            spent: SpentReferences::new(alloc),
            trades: Trades::new(alloc),
            known: None,
        }
    }

    /// The stock's locate code.
    pub fn locate(&self) -> u16
        ensures { result ≡ self.now.locate }
    {
        self.locate
    }

    /// The order that lives under a reference.
    pub fn live_order(&self, reference: u64) -> Option<Order>
        ensures { result ≡ order self.now.world self.now.locate reference }
    {
        self.book.order(reference)
    }

    /// Whether an order has had a reference.
    pub fn is_spent(&self, reference: u64) -> bool
        ensures { result ≡ is_spent self.now.world self.now.locate reference }
    {
        self.spent.contains(reference)
    }

    /// The shares of a side's orders at a price.
    pub fn level(&self, side: Side, price: u32) -> u64
        ensures { result ≡ shares_at (orders_of self.now.world self.now.locate) side price }
    {
        self.book.level(side, price)
    }

    /// The best level of each side.
    pub fn top(&self) -> Top
        ensures { result ≡ top (orders_of self.now.world self.now.locate) }
    {
        self.book.top()
    }

    /// The totals over the trades.
    pub fn totals(&self) -> Totals
        ensures { result ≡ totals self.now.world self.now.locate }
    {
        self.trades.totals()
    }

    /// What is known of the stock beside its book.
    pub fn status(&self) -> Status
        ensures { result ≡ status self.now.world self.now.locate }
    {
        Status::of(self.known)
    }

    /// A side's level at a place, counted from 0 at the best one, or zeros where there is none.
    pub fn nth_level(&self, side: Side, place: usize) -> Level
        ensures { result ≡
            slice_index_or (levels (orders_of self.now.world self.now.locate) side) place no_level }
    {
        self.book.nth_level(side, place)
    }

    /// A side's levels, the best first.
    pub fn levels(&self, alloc: A, side: Side) -> Result<Vec<Level, A>, AllocError>
        ensures { IfOk result (λ list.
            list.items ≡ levels (orders_of self.now.world self.now.locate) side) }
    {
        self.book.levels(alloc, side)
    }

    /// The live orders, by rising reference.
    pub fn orders(&self, alloc: A) -> Result<Vec<Order, A>, AllocError>
        ensures list { IfOk result (λ list. list.items ≡ orders_of self.now.world self.now.locate) }
        ensures few { length (orders_of self.now.world self.now.locate) < 2 ^ 32 }
    {
        self.book.orders(alloc)
    }

    /// The same rows, in memory of their own.
    pub fn copy(&self, alloc: A) -> Result<Rows<A>, AllocError>
        ensures { IfOk result (λ rows. rows ≡ self.now) }
    {
        let book = self.book.copy(alloc)?;
        let spent = self.spent.copy(alloc)?;
        let trades = self.trades.copy(alloc)?;
        Ok(Rows {
            locate: self.locate,
            book,
            spent,
            trades,
            known: self.known,
        })
    }
}

impl<A: Allocator + Copy> Store for Rows<A> {
    ghost use Rattle.stock_machine.specs.StockRows.{HasRoomForRows, held_by_one};

    ghost held = { held_by_one };

    ghost has_room = { λ r. HasRoomForRows r.world };

    fn stock(&self, _locate: u16) -> Option<&StockRow> {
        self.known.as_ref()
    }

    #[inline(always)]
    fn order(&self, _locate: u16, reference: u64) -> Option<Found> {
        self.book.find(reference)
    }

    #[inline(always)]
    fn is_fresh(&self, _locate: u16, reference: u64) -> bool {
        !self.spent.contains(reference)
    }

    fn has_unbroken(&self, _locate: u16, match_no: u64) -> bool {
        self.trades.has_unbroken(match_no)
    }

    fn set_event(&mut self, _event: u8) {}

    fn set_stock(&mut self, _locate: u16, row: StockRow) -> Result<(), AllocError> {
        self.known = Some(row);
        Ok(())
    }

    fn update_stock(&mut self, _locate: u16, row: StockRow) {
        self.known = Some(row);
    }

    #[inline(always)]
    fn add_order(&mut self, _locate: u16, reference: u64, row: OrderRow) -> Result<(), AllocError> {
        self.spent.insert(reference)?;
        match self.book.add(row.under(reference)) {
            Ok(()) => Ok(()),
            Err(error) => {
                self.spent.remove(reference);
                Err(error)
            }
        }
    }

    fn reduce_order(&mut self, _locate: u16, reference: u64, found: Found, shares: u32) {
        self.book.reduce_found(reference, found, shares);
    }

    fn remove_order(&mut self, _locate: u16, reference: u64, found: Found) {
        self.book.remove_found(reference, found);
    }

    fn replace_order(
        &mut self,
        _locate: u16,
        old: u64,
        found: Found,
        new: u64,
        shares: u32,
        price: u32,
    ) -> Result<(), AllocError> {
        self.spent.insert(new)?;
        match self.book.replace_found(old, found, new, shares, price) {
            Ok(()) => Ok(()),
            Err(error) => {
                self.spent.remove(new);
                Err(error)
            }
        }
    }

    fn add_trade(&mut self, _locate: u16, trade: TradeRow) -> Result<(), AllocError> {
        self.trades.push(trade)
    }

    fn break_trades(&mut self, _locate: u16, match_no: u64) {
        self.trades.break_all(match_no);
    }
}
