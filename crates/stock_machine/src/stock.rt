//! The machine of one stock.
ghost use Rattle.std.specs.Prelude.{◌≡◌, ◌+◌, ◌-◌, ◌<◌, ◌^◌, IfOk, OnOk, OnErr, length, slice_index_or};
ghost use Rattle.itch_table.specs.declared.outcome.Part.{Part};
ghost use Rattle.itch_table.specs.World.{empty_world, is_spent, order, orders_of, status, totals};
ghost use Rattle.itch_table.specs.Held.{one_stock};
ghost use Rattle.itch_table.specs.Levels.{levels, no_level, shares_at, top};
ghost use Rattle.itch_table.specs.Machine.{MayGrow};
ghost use Rattle.itch_table.specs.Parts.{part};
ghost use Rattle.itch_table.specs.Table.{step};

use crate::rows::Rows;
use itch_table::{Level, Order, Outcome, Side, Status, Top, Totals, follow};
use std::alloc::{AllocError, Allocator};
use std::marker::Model;

/// A machine that takes the messages of one stock and follows the table of instructions over that stock's rows.
///
/// What a day does to a stock depends on that stock's messages alone, so this machine holds after them what a machine
/// for all stocks holds of that stock after the whole day. Prices are in 1/10,000 of a currency unit.
///
/// The effects of messages are those of Nasdaq TotalView-ITCH 5.0, "Stock Related Messages", "Add Order Message",
/// "Modify Order Messages" and "Trade Messages".
#[derive(Drop)]
pub struct Stock<A: Allocator> {
    steps: u32,
    rows: Rows<A>,
}

impl<A: Allocator> Model for Stock<A> {
    ghost use Rattle.std.specs.Coded.{codes};
    ghost use Rattle.itch_table.specs.CodedWorld.{coded_world};
    ghost use Rattle.itch_table.specs.Machine.{IsWithin};
    ghost use Rattle.stock_machine.specs.StockRows.{StockMachine};

    ghost Value = { StockMachine };

    ghost coded = { Prim.hlevel (codes, coded_world) };

    ghost view = { λ s. record { locate = s.rows.locate; world = s.rows.world; steps = s.steps } };

    // Each live order and each trade was added by a step of its own.
    ghost invariant = { λ s. IsWithin s.rows.world s.steps };
}

impl<A: Allocator + Copy> Stock<A> {
    /// The machine of the stock with this locate code, before its first message. It takes no memory yet.
    pub fn new(alloc: A, locate: u16) -> Stock<A>
        ensures locate { result.locate ≡ locate }
        ensures world { result.world ≡ empty_world }
        ensures steps { result.steps ≡ 0 }
    {
        Stock {
            rows: Rows::new(alloc, locate),
            steps: 0,
        }
    }

    /// The stock's locate code.
    pub fn locate(&self) -> u16
        ensures { result ≡ self.now.locate }
    {
        self.rows.locate()
    }

    /// How many messages were taken.
    pub fn steps(&self) -> u32
        ensures { result ≡ self.now.steps }
    {
        self.steps
    }

    /// The order that lives under a reference.
    pub fn order(&self, reference: u64) -> Option<Order>
        ensures { result ≡ order self.now.world self.now.locate reference }
    {
        self.rows.live_order(reference)
    }

    /// Whether an order of the stock has had a reference, so that no later one may take it.
    pub fn spent(&self, reference: u64) -> bool
        ensures { result ≡ is_spent self.now.world self.now.locate reference }
    {
        self.rows.is_spent(reference)
    }

    /// The shares of a side's orders at a price, in 1/10,000 of a currency unit; 0 where there are none.
    pub fn level(&self, side: Side, price: u32) -> u64
        ensures { result ≡ shares_at (orders_of self.now.world self.now.locate) side price }
    {
        self.rows.level(side, price)
    }

    /// The best bid and the best ask, with the shares there; zeros where a side is empty. Prices are in 1/10,000 of a
    /// currency unit.
    pub fn top(&self) -> Top
        ensures { result ≡ top (orders_of self.now.world self.now.locate) }
    {
        self.rows.top()
    }

    /// The sums over the stock's trades that no later message broke, in shares and in 1/10,000 of a currency unit.
    pub fn totals(&self) -> Totals
        ensures { result ≡ totals self.now.world self.now.locate }
    {
        self.rows.totals()
    }

    /// What is known of the stock beside its book.
    pub fn status(&self) -> Status
        ensures { result ≡ status self.now.world self.now.locate }
    {
        self.rows.status()
    }

    /// A side's level at a place, counted from 0 at the best one, or zeros where there is none. Its price is in 1/10,000
    /// of a currency unit.
    pub fn nth_level(&self, side: Side, place: usize) -> Level
        ensures { result ≡
            slice_index_or (levels (orders_of self.now.world self.now.locate) side) place no_level }
    {
        self.rows.nth_level(side, place)
    }

    /// A side's levels: bids by falling price, asks by rising price.
    pub fn levels(&self, alloc: A, side: Side) -> Result<Vec<Level, A>, AllocError>
        ensures { IfOk result (λ list.
            list.items ≡ levels (orders_of self.now.world self.now.locate) side) }
    {
        self.rows.levels(alloc, side)
    }

    /// The live orders, by rising reference.
    pub fn orders(&self, alloc: A) -> Result<Vec<Order, A>, AllocError>
        ensures list { IfOk result (λ list. list.items ≡ orders_of self.now.world self.now.locate) }
        // They are fewer than messages can be.
        ensures few { length (orders_of self.now.world self.now.locate) < 2 ^ 32 }
    {
        self.rows.orders(alloc)
    }

    /// A machine that stands where this one stands, whose memory is that of `alloc`.
    pub fn copy(&self, alloc: A) -> Result<Stock<A>, AllocError>
        ensures { IfOk result (λ stock. stock ≡ self.now) }
    {
        let rows = self.rows.copy(alloc)?;
        Ok(Stock {
            rows,
            steps: self.steps,
        })
    }

    /// Takes the stock's next message, a payload whose part is the stock's locate code, and returns what became of it.
    ///
    /// A message that is refused changes nothing but the number of steps. An error comes only where the message would
    /// be applied and is of type `A`, `F`, `U`, `E`, `C`, `P` or `Q`, and it leaves the machine as it was.
    ///
    /// At most 2^32 - 1 messages are taken: the caller passes the next one while `steps()` is below that.
    ///
    /// ```text
    /// let mut stock = Stock::new(alloc, 1);
    /// for payload in day.payloads() {
    ///     if part(payload) == Part::Locate(1) {
    ///         stock.step(payload)?;
    ///     }
    /// }
    /// ```
    pub fn step(&mut self, payload: &[u8]) -> Result<Outcome, AllocError>
        requires own { part payload.now ≡ Part.Locate self.old.locate }
        requires few { self.old.steps < 2 ^ 32 - 1 }
        ensures ok { IfOk result (λ outcome. (outcome, self.new.world) ≡ step self.old.world payload.now) }
        ensures locate { self.new.locate ≡ self.old.locate }
        ensures steps { OnOk result (self.new.steps ≡ self.old.steps + 1) }
        ensures err { OnErr result (self.new ≡ self.old) }
        ensures grows { OnErr result (MayGrow (one_stock self.old.locate self.old.world) payload.now) }
    {
        let outcome = follow(&mut self.rows, payload)?;
        self.steps += 1;
        Ok(outcome)
    }
}
