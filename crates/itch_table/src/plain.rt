//! The plain machine.
ghost use Rattle.std.specs.Prelude.{◌≡◌, ◌+◌, ◌-◌, ◌<◌, ◌^◌, ℕ, List, length, IfOk, OnOk, OnErr};
ghost use Rattle.itch_table.specs.World.{empty_world, is_spent, locates, order, orders_of, status, totals};
ghost use Rattle.itch_table.specs.Levels.{levels, top};
ghost use Rattle.itch_table.specs.Table.{step};
ghost use Rattle.itch_table.specs.Held.{all_stocks};
ghost use Rattle.itch_table.specs.Machine.{MayGrow};

use crate::following::follow;
use crate::order::{Level, Order, Side, Top};
use crate::outcome::Outcome;
use crate::rows::Rows;
use crate::status::{Status, Totals};
use crate::store::Store;
use std::alloc::{AllocError, Allocator};
use std::marker::Model;

/// A machine that takes a day's messages one by one and follows the table of instructions over the rows of all stocks.
///
/// It keeps the rows alone, and computes levels and lists from them at each call.
#[derive(Drop)]
pub struct Plain<A: Allocator> {
    rows: Rows<A>,
    steps: u32,
}

impl<A: Allocator> Model for Plain<A> {
    ghost use Rattle.std.specs.Coded.{codes};
    ghost use Rattle.itch_table.specs.CodedWorld.{coded_world};
    ghost use Rattle.itch_table.specs.Machine.{Machine, IsWithin};

    ghost Value = { Machine };

    ghost coded = { Prim.hlevel (codes, coded_world) };

    ghost view = { λ p. record { world = p.rows; steps = p.steps } };

    // Each live order and each trade was added by a step of its own.
    ghost invariant = { λ p. IsWithin p.rows p.steps };
}

impl<A: Allocator + Copy> Plain<A> {
    /// A machine before the first message. It takes no memory yet.
    pub fn new(alloc: A) -> Plain<A>
        ensures world { result.world ≡ empty_world }
        ensures steps { result.steps ≡ 0 }
    {
        Plain {
            rows: Rows::new(alloc),
            steps: 0,
        }
    }

    /// How many messages were taken.
    pub fn steps(&self) -> u32
        ensures { result ≡ self.now.steps }
    {
        self.steps
    }

    /// The event code of the last system message that was applied.
    pub fn event(&self) -> Option<u8>
        ensures { result ≡ self.now.world.event }
    {
        self.rows.event()
    }

    /// The order that lives under a locate code and a reference.
    pub fn order(&self, locate: u16, reference: u64) -> Option<Order>
        ensures { result ≡ order self.now.world locate reference }
    {
        self.rows.live_order(locate, reference)
    }

    /// Whether an order has had a reference under a locate code, so that no later one may take it.
    pub fn spent(&self, locate: u16, reference: u64) -> bool
        ensures { result ≡ is_spent self.now.world locate reference }
    {
        self.rows.is_spent(locate, reference)
    }

    /// What is known of a stock beside its book.
    pub fn status(&self, locate: u16) -> Status
        ensures { result ≡ status self.now.world locate }
    {
        self.rows.status(locate)
    }

    /// The sums over a stock's trades that no later message broke.
    pub fn totals(&self, locate: u16) -> Totals
        ensures { result ≡ totals self.now.world locate }
    {
        self.rows.totals(locate)
    }

    /// The best bid and the best ask of a stock, with the shares there; zeros where a side is empty. Prices are in
    /// 1/10,000 of a currency unit.
    pub fn top(&self, locate: u16) -> Top
        ensures { result ≡ top (orders_of self.now.world locate) }
    {
        self.rows.top(locate)
    }

    /// A side's levels: bids by falling price, asks by rising price.
    pub fn levels(&self, alloc: A, locate: u16, side: Side) -> Result<Vec<Level, A>, AllocError>
        ensures { IfOk result (λ list. list.items ≡ levels (orders_of self.now.world locate) side) }
    {
        self.rows.levels(alloc, locate, side)
    }

    /// A stock's live orders, by rising reference.
    pub fn orders(&self, alloc: A, locate: u16) -> Result<Vec<Order, A>, AllocError>
        ensures list { IfOk result (λ list. list.items ≡ orders_of self.now.world locate) }
        // They are fewer than messages can be.
        ensures few { length (orders_of self.now.world locate) < 2 ^ 32 }
    {
        self.rows.orders(alloc, locate)
    }

    /// The locate codes that have a directory row, rising.
    pub fn locates(&self, alloc: A) -> Result<Vec<u16, A>, AllocError>
        ensures { IfOk result (λ list. list.items ≡ locates self.now.world) }
    {
        self.rows.locates(alloc)
    }

    /// Takes the next message of the day, a payload of any bytes, and returns what became of it.
    ///
    /// A message that is refused or passed over changes nothing but the number of steps. An error comes only where the
    /// message would be applied and is one that may need a new row, and it leaves the machine as it was.
    ///
    /// At most 2^32 - 1 messages are taken: the caller passes the next one while `steps()` is below that.
    ///
    /// ```rust
    /// let mut machine = Plain::new(rt.alloc());
    /// for payload in day.payloads() {
    ///     if let Outcome::Refused(fault) = machine.step(payload)? {
    ///         println!(rt; "message {} refused F{}", machine.steps(), fault.number())?;
    ///     }
    /// }
    /// ```
    pub fn step(&mut self, payload: &[u8]) -> Result<Outcome, AllocError>
        requires { self.old.steps < 2 ^ 32 - 1 }
        ensures ok { IfOk result (λ outcome. (outcome, self.new.world) ≡ step self.old.world payload.now) }
        ensures steps { OnOk result (self.new.steps ≡ self.old.steps + 1) }
        ensures err { OnErr result (self.new ≡ self.old) }
        ensures grows { OnErr result (MayGrow (all_stocks self.old.world) payload.now) }
    {
        let outcome = follow(&mut self.rows, payload)?;
        self.steps += 1;
        Ok(outcome)
    }
}
