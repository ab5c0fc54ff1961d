//! The levels of one side.
ghost use Rattle.std.specs.Prelude.{◌≡◌, ◌+◌, ◌<◌, ◌≤◌, ◌^◌, IfErr, IfOk, OnOk, slice_index_or};
ghost use Rattle.std.specs.FinMap as maps;
ghost use Rattle.itch_table.specs.Levels.{first_level, no_level};
ghost use Rattle.order_book.specs.Kept.{AreInOrder, IsFound, IsGap, shown, lowered, price_cmp, raised, rank, shares_on};

use itch_table::{Level, Side};
use std::alloc::{AllocError, Allocator};
use std::cmp::Ordering;
use std::marker::Model;

/// The levels of one side, each price once.
///
/// They stand in a list in the order of their prices, with the best last: where levels come and go most, near the best,
/// few others are moved.
#[derive(Drop)]
pub(crate) struct Ladder<A: Allocator> {
    side: Side,
    levels: Vec<Level, A>,
}

impl<A: Allocator> Model for Ladder<A> {
    ghost use Rattle.std.specs.Prelude.{◌-◌};
    ghost use Rattle.std.specs.Coded.{codes, coded_ℕ};
    ghost use Rattle.std.specs.FinMap as maps;
    ghost use Rattle.std.specs.Ordering.{nat_cmp};
    ghost use Rattle.std.specs.Vec.{vec_capacity, vec_len};
    ghost use Rattle.itch_table.specs.contracts.order.Side as side_row;
    ghost use Rattle.order_book.specs.Kept.{AreInOrder, SideLevels, by_price};

    ghost Value = { SideLevels };

    ghost coded = { Prim.hlevel (
      codes,
      maps.code {R = nat_cmp} coded_ℕ coded_ℕ,
      side_row.the_row.coded,
    ) };

    ghost view = { λ l. record {
      side = l.side;
      levels = by_price l.levels.items;
      room = vec_capacity l.levels - vec_len l.levels;
    } };

    ghost invariant = { λ l. AreInOrder l.side l.levels.items };
}

// How many levels are looked at one by one, the best first, before a binary search of all.
const NEAR: usize = 8;

// How a price stands to another, where a worse one is less.
fn compare(side: Side, price: u32, other: u32) -> Ordering
    ensures { result ≡ price_cmp side price other }
{
    match side {
        Side::Buy => price.cmp(&other),
        Side::Sell => other.cmp(&price),
    }
}

// A price's rank on its side, where a better price has a higher one: near levels are compared by it without a branch on
// the side.
fn rank(side: Side, price: u32) -> u32
    ensures { result ≡ rank side price }
{
    match side {
        Side::Buy => price,
        Side::Sell => u32::MAX - price,
    }
}

// The same as `index_of`, by binary search.
fn search(levels: &[Level], side: Side, price: u32) -> Result<usize, usize>
    requires { AreInOrder side levels.now }
    ensures found { IfOk result (IsFound levels.now price) }
    ensures missing { IfErr result (IsGap side levels.now price) }
{
    levels.binary_search_by(|level| compare(side, level.price, price))
}

// The index of the level at a price, or else the index at which it would stand. Most changes are near the best level.
fn index_of(levels: &[Level], side: Side, price: u32) -> Result<usize, usize>
    requires { AreInOrder side levels.now }
    ensures found { IfOk result (IsFound levels.now price) }
    ensures missing { IfErr result (IsGap side levels.now price) }
{
    let mut end = levels.len();
    for _ in 0..NEAR {
        if end == 0 {
            return Err(0);
        }
        let other = levels[end - 1].price;
        if other == price {
            return Ok(end - 1);
        }
        if rank(side, other) < rank(side, price) {
            return Err(end);
        }
        end -= 1;
    }
    search(levels, side, price)
}

impl<A: Allocator + Copy> Ladder<A> {
    /// A side without levels. It takes no memory yet.
    pub fn new(alloc: A, side: Side) -> Ladder<A>
        ensures side { result.side ≡ side }
        ensures levels { result.levels ≡ maps.empty }
    {
        Ladder {
            side,
            levels: Vec::new(alloc),
        }
    }

    /// The shares at a price, 0 where there are none.
    pub fn shares(&self, price: u32) -> u64
        ensures { result ≡ shares_on self.now.levels price }
    {
        match index_of(&self.levels, self.side, price) {
            Ok(index) => self.levels[index].shares,
            Err(_) => 0,
        }
    }

    /// The best level, or zeros.
    pub fn best(&self) -> Level
        ensures { result ≡ first_level (shown self.now.side self.now.levels) }
    {
        self.levels.last().copied().unwrap_or(Level {
            price: 0,
            shares: 0,
        })
    }

    /// The level at a place, counted from 0 at the best one, or zeros where there is none.
    pub fn nth(&self, place: usize) -> Level
        ensures { result ≡ slice_index_or (shown self.now.side self.now.levels) place no_level }
    {
        let count = self.levels.len();
        if place < count {
            self.levels[count - 1 - place]
        } else {
            Level {
                price: 0,
                shares: 0,
            }
        }
    }

    /// The levels, with the best first.
    pub fn list(&self, alloc: A) -> Result<Vec<Level, A>, AllocError>
        ensures { IfOk result (λ list. list.items ≡ shown self.now.side self.now.levels) }
    {
        self.levels.iter().rev().copied().collect(alloc)
    }

    /// The same levels, in memory of `alloc`.
    pub fn copy(&self, alloc: A) -> Result<Ladder<A>, AllocError>
        ensures side { IfOk result (λ copy. copy.side ≡ self.now.side) }
        ensures levels { IfOk result (λ copy. copy.levels ≡ self.now.levels) }
    {
        Ok(Ladder {
            side: self.side,
            levels: self.levels.iter().copied().collect(alloc)?,
        })
    }

    /// Makes room for one more level.
    pub fn reserve(&mut self) -> Result<(), AllocError>
        ensures side { self.new.side ≡ self.old.side }
        ensures levels { self.new.levels ≡ self.old.levels }
        ensures room { OnOk result (1 ≤ self.new.room) }
    {
        self.levels.reserve(1)
    }

    /// Adds shares at a price, at least one, where there is room for one more level.
    #[inline(always)]
    pub fn raise(&mut self, price: u32, shares: u32)
        requires some { 1 ≤ shares }
        requires room { 1 ≤ self.old.room }
        requires fits { shares_on self.old.levels price + shares < 2 ^ 64 }
        ensures side { self.new.side ≡ self.old.side }
        ensures levels { self.new.levels ≡ raised self.old.levels price shares }
    {
        let shares = u64::from(shares);
        match index_of(&self.levels, self.side, price) {
            Ok(index) => self.levels[index].shares += shares,
            Err(index) => self.levels.insert(index, Level { price, shares }).unwrap(),
        }
    }

    /// Takes shares off a price that has at least that many. A level with none left is gone.
    #[inline(always)]
    pub fn lower(&mut self, price: u32, shares: u32)
        requires { shares ≤ shares_on self.old.levels price }
        ensures side { self.new.side ≡ self.old.side }
        ensures levels { self.new.levels ≡ lowered self.old.levels price shares }
    {
        if let Ok(index) = index_of(&self.levels, self.side, price) {
            let left = self.levels[index].shares - u64::from(shares);
            if left == 0 {
                self.levels.remove(index);
            } else {
                self.levels[index].shares = left;
            }
        }
    }
}
