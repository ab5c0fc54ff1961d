//! The levels of both sides.
ghost use Rattle.std.specs.Prelude.{◌≡◌, ◌+◌, ◌<◌, ◌≤◌, ◌^◌, IfOk, OnOk, slice_index_or};
ghost use Rattle.std.specs.FinMap as maps;
ghost use Rattle.itch_table.specs.Levels.{first_level, no_level};
ghost use Rattle.itch_table.specs.declared.order.Side.{Side};
ghost use Rattle.order_book.specs.Kept.{AreChanged, SameLevels, levels_on, shown, lowered, raised, room_on, shares_on};

use crate::ladder::Ladder;
use itch_table::{Level, Side};
use std::alloc::{AllocError, Allocator};
use std::marker::Model;

/// The levels of both sides.
#[derive(Drop)]
pub(crate) struct Levels<A: Allocator> {
    bids: Ladder<A>,
    asks: Ladder<A>,
}

impl<A: Allocator> Model for Levels<A> {
    ghost use Rattle.std.specs.Prelude.{◌≡◌};
    ghost use Rattle.std.specs.Coded.{codes, coded_ℕ};
    ghost use Rattle.std.specs.FinMap as maps;
    ghost use Rattle.std.specs.Ordering.{nat_cmp};
    ghost use Rattle.itch_table.specs.contracts.order.Side as side_row;
    ghost use Rattle.itch_table.specs.declared.order.Side.TheVariants.{Buy, Sell};
    ghost use Rattle.order_book.specs.Kept.{BothSides};

    ghost Value = { BothSides };

    ghost coded = { Prim.hlevel (
      codes,
      maps.code {R = nat_cmp} coded_ℕ coded_ℕ,
      side_row.the_row.coded,
    ) };

    ghost view = { λ l. record { bids = l.bids; asks = l.asks } };

    ghost invariant = { λ l. (l.bids.side ≡ Buy) × (l.asks.side ≡ Sell) };
}

impl<A: Allocator + Copy> Levels<A> {
    /// Sides without levels. They take no memory yet.
    pub fn new(alloc: A) -> Levels<A>
        ensures { (side : Side) → levels_on result side ≡ maps.empty }
    {
        Levels {
            bids: Ladder::new(alloc, Side::Buy),
            asks: Ladder::new(alloc, Side::Sell),
        }
    }

    /// The shares of a side at a price, 0 where there are none.
    pub fn shares(&self, side: Side, price: u32) -> u64
        ensures { result ≡ shares_on (levels_on self.now side) price }
    {
        match side {
            Side::Buy => self.bids.shares(price),
            Side::Sell => self.asks.shares(price),
        }
    }

    /// The best level of a side, or zeros.
    pub fn best(&self, side: Side) -> Level
        ensures { result ≡ first_level (shown side (levels_on self.now side)) }
    {
        match side {
            Side::Buy => self.bids.best(),
            Side::Sell => self.asks.best(),
        }
    }

    /// The level of a side at a place, counted from 0 at the best one, or zeros where there is none.
    pub fn nth(&self, side: Side, place: usize) -> Level
        ensures { result ≡ slice_index_or (shown side (levels_on self.now side)) place no_level }
    {
        match side {
            Side::Buy => self.bids.nth(place),
            Side::Sell => self.asks.nth(place),
        }
    }

    /// A side's levels, with the best first.
    pub fn list(&self, alloc: A, side: Side) -> Result<Vec<Level, A>, AllocError>
        ensures { IfOk result (λ list. list.items ≡ shown side (levels_on self.now side)) }
    {
        match side {
            Side::Buy => self.bids.list(alloc),
            Side::Sell => self.asks.list(alloc),
        }
    }

    /// The same levels, in memory of `alloc`.
    pub fn copy(&self, alloc: A) -> Result<Levels<A>, AllocError>
        ensures { IfOk result (λ copy. SameLevels self.now copy) }
    {
        Ok(Levels {
            bids: self.bids.copy(alloc)?,
            asks: self.asks.copy(alloc)?,
        })
    }

    /// Makes room for one more level of a side.
    #[inline(always)]
    pub fn reserve(&mut self, side: Side) -> Result<(), AllocError>
        ensures same { SameLevels self.old self.new }
        ensures room { OnOk result (1 ≤ room_on self.new side) }
    {
        match side {
            Side::Buy => self.bids.reserve(),
            Side::Sell => self.asks.reserve(),
        }
    }

    /// Adds shares to a side at a price, at least one, where there is room for one more level.
    #[inline(always)]
    pub fn raise(&mut self, side: Side, price: u32, shares: u32)
        requires some { 1 ≤ shares }
        requires room { 1 ≤ room_on self.old side }
        requires fits { shares_on (levels_on self.old side) price + shares < 2 ^ 64 }
        ensures { AreChanged self.old self.new side (λ levels. raised levels price shares) }
    {
        match side {
            Side::Buy => self.bids.raise(price, shares),
            Side::Sell => self.asks.raise(price, shares),
        }
    }

    /// Takes shares off a side at a price that has at least that many. A level with none left is gone.
    #[inline(always)]
    pub fn lower(&mut self, side: Side, price: u32, shares: u32)
        requires { shares ≤ shares_on (levels_on self.old side) price }
        ensures { AreChanged self.old self.new side (λ levels. lowered levels price shares) }
    {
        match side {
            Side::Buy => self.bids.lower(price, shares),
            Side::Sell => self.asks.lower(price, shares),
        }
    }
}
