//! One stock along a day.
ghost use Rattle.std.specs.Prelude.{◌≡◌, ◌++◌, ◌∷◌, [], ◌*◌, ◌<◌, ◌≤◌, IfOk, OnOk, length};
ghost use Rattle.day_core.specs.Owners.{machine_of};
ghost use Rattle.checkpoints.specs.Copies.{IsTrack, copies_of, machine_after_own, numbers_of};

use crate::index::StockIndex;
use crate::own::{advance, numbers_of};
use binaryfile::Day;
use std::alloc::{AllocError, Allocator};
use std::marker::Model;
use stock_machine::Stock;

/// One stock along a day: its machine after any number of the day's messages.
///
/// The stock's messages are kept by their numbers, four bytes each, and a copy of its machine before the first and
/// after every `every` of them, so that fewer than `every` are stepped for any `n`. It is seen as the day, the stock's
/// locate code and how many messages lie from one copy to the next.
#[derive(Drop)]
pub struct Track<'d, A: Allocator> {
    day: &'d Day<A>,
    locate: u16,
    every: usize,
    numbers: Vec<u32, A>,
    copies: Vec<Stock<A>, A>,
}

impl<'d, A: Allocator> Model for Track<'d, A> {
    ghost use Rattle.checkpoints.specs.Copies.{IsTrack, Tracked};

    ghost Value = { Tracked };

    ghost view = { λ t. record { day = t.day.now.payloads; locate = t.locate; every = t.every } };

    ghost invariant = { λ t. IsTrack t.day.now.payloads t.locate t.every t.numbers.items t.copies.items };
}

// Adds a copy of a stock's machine.
fn add_copy<A: Allocator + Copy>(
    alloc: A,
    copies: &mut Vec<Stock<A>, A>,
    stock: &Stock<A>,
) -> Result<(), AllocError>
    ensures { OnOk result (copies.new.items ≡ copies.old.items ++ stock.now ∷ []) }
{
    copies.push(stock.copy(alloc)?)?;
    Ok(())
}

// Leads a new machine along the stock's messages, and adds copies of it: before the first message, and after every `every`
// of them. A copy takes no more memory than it needs.
fn add_copies<A: Allocator + Copy>(
    alloc: A,
    day: &Day<A>,
    locate: u16,
    every: usize,
    numbers: &[u32],
    stock: &mut Stock<A>,
    copies: &mut Vec<Stock<A>, A>,
) -> Result<(), AllocError>
    requires some { 0 < every }
    requires numbers { numbers.now ≡ numbers_of day.now.payloads locate }
    requires new { stock.old ≡ machine_after_own day.now.payloads locate (0 * every) }
    requires none { copies.old.items ≡ [] }
    ensures { OnOk result (copies.new.items ≡ copies_of day.now.payloads locate every) }
{
    add_copy(alloc, copies, stock)?;
    for last in 0..numbers.len() / every {
        let (from, to) = (last * every, (last + 1) * every);
        advance(stock, day, numbers, from, to)?;
        add_copy(alloc, copies, stock)?;
    }
    Ok(())
}

// A stock's machine before its first message, and after every `every` of its messages.
fn copies_of<A: Allocator + Copy>(
    alloc: A,
    day: &Day<A>,
    locate: u16,
    every: usize,
    numbers: &[u32],
) -> Result<Vec<Stock<A>, A>, AllocError>
    requires some { 0 < every }
    requires numbers { numbers.now ≡ numbers_of day.now.payloads locate }
    ensures { IfOk result (λ copies. copies.items ≡ copies_of day.now.payloads locate every) }
{
    let mut copies = Vec::new(alloc);
    let mut stock = Stock::new(alloc, locate);
    add_copies(alloc, day, locate, every, numbers, &mut stock, &mut copies)?;
    Ok(copies)
}

impl<'d, A: Allocator + Copy> Track<'d, A> {
    // The track of a stock by the numbers of its messages.
    fn along(
        alloc: A,
        day: &'d Day<A>,
        locate: u16,
        every: usize,
        numbers: Vec<u32, A>,
    ) -> Result<Track<'d, A>, AllocError>
        requires some { 0 < every }
        requires numbers { numbers.items ≡ numbers_of day.now.payloads locate }
        ensures { IfOk result (λ track. track ≡ record {
          day = day.now.payloads;
          locate = locate;
          every = every;
        }) }
    {
        let copies = copies_of(alloc, day, locate, every, &numbers)?;
        Ok(Track {
            day,
            locate,
            every,
            numbers,
            copies,
        })
    }

    /// Goes through the day once, and keeps a copy of the stock's machine after every `every` of its messages. `every`
    /// is at least 1.
    pub fn make(
        alloc: A,
        day: &'d Day<A>,
        locate: u16,
        every: u32,
    ) -> Result<Track<'d, A>, AllocError>
        requires { 0 < every }
        ensures { IfOk result (λ track. track ≡ record {
          day = day.now.payloads;
          locate = locate;
          every = every;
        }) }
    {
        let numbers = numbers_of(alloc, day, locate)?;
        Track::along(alloc, day, locate, every as usize, numbers)
    }

    /// What [`Track::make`] makes, by an index of the day and without going through the day. `every` is at least 1.
    pub fn from_index(
        alloc: A,
        index: &StockIndex<'d, A>,
        locate: u16,
        every: usize,
    ) -> Result<Track<'d, A>, AllocError>
        requires { 0 < every }
        ensures { IfOk result (λ track. track ≡ record { day = index.now; locate = locate; every = every }) }
    {
        let numbers = Vec::from_slice(alloc, index.numbers(locate))?;
        Track::along(alloc, index.day(), locate, every, numbers)
    }

    /// The stock's machine after the first `n` messages of the day, which has at least `n`.
    pub fn at(&self, alloc: A, n: u32) -> Result<Stock<A>, AllocError>
        requires { n ≤ length self.now.day }
        ensures { IfOk result (λ stock. stock ≡ machine_of self.now.day self.now.locate n) }
    {
        let taken = self.numbers.partition_point(|number| *number <= n);
        let last = taken / self.every;
        let mut stock = self.copies[last].copy(alloc)?;
        advance(
            &mut stock,
            self.day,
            &self.numbers,
            last * self.every,
            taken,
        )?;
        Ok(stock)
    }
}

impl<'d, A: Allocator> Track<'d, A> {
    /// The stock's locate code.
    pub fn locate(&self) -> u16
        ensures { result ≡ self.now.locate }
    {
        self.locate
    }
}
