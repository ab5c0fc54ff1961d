//! The messages of every stock of a day.
ghost use Rattle.std.specs.Prelude.{◌≡◌, ◌≢◌, ◌<◌, ◌++◌, ◌∷◌, [], ℕ, IfOk, OnOk, length, map};
ghost use Rattle.checkpoints.specs.Copies.{IsIndex, listed, numbers_of};

use binaryfile::Day;
use itch_table::{Part, part};
use std::alloc::{AllocError, Allocator};
use std::marker::Model;

/// The numbers of the messages of every stock of a day, made in one pass over the day.
///
/// They take four bytes for each message, mostly less than twice as much where lists have just grown, and a few words
/// for each locate code up to the greatest one. It is seen as the day.
#[derive(Drop)]
pub struct StockIndex<'d, A: Allocator> {
    day: &'d Day<A>,
    // A list for each locate code up to the greatest one of the day.
    lists: Vec<Vec<u32, A>, A>,
}

impl<'d, A: Allocator> Model for StockIndex<'d, A> {
    ghost use Rattle.std.specs.Prelude.{ℕ, List, map};
    ghost use Rattle.checkpoints.specs.Copies.{IsIndex};

    ghost Value = { List (List ℕ) };

    ghost view = { λ x. x.day.now.payloads };

    ghost invariant = { λ x. IsIndex x.day.now.payloads (map (λ list. list.items) x.lists.items) };
}

// Adds empty lists, so that there is one for a locate code.
fn reach<A: Allocator + Copy>(
    alloc: A,
    lists: &mut Vec<Vec<u32, A>, A>,
    locate: u16,
) -> Result<(), AllocError>
    ensures there { OnOk result (locate < length lists.new.items) }
    ensures listed { OnOk result ((code : ℕ) →
        listed (map (λ list. list.items) lists.new.items) code
        ≡ listed (map (λ list. list.items) lists.old.items) code) }
{
    for _ in lists.len()..usize::from(locate) + 1 {
        lists.push(Vec::new(alloc))?;
    }
    Ok(())
}

// Adds a message to the list of its stock.
fn add_number<A: Allocator + Copy>(
    alloc: A,
    lists: &mut Vec<Vec<u32, A>, A>,
    locate: u16,
    number: u32,
) -> Result<(), AllocError>
    ensures own { OnOk result (listed (map (λ list. list.items) lists.new.items) locate
        ≡ listed (map (λ list. list.items) lists.old.items) locate ++ number ∷ []) }
    ensures others { OnOk result ((code : ℕ) → code ≢ locate →
        listed (map (λ list. list.items) lists.new.items) code
        ≡ listed (map (λ list. list.items) lists.old.items) code) }
{
    reach(alloc, lists, locate)?;
    lists[usize::from(locate)].push(number)?;
    Ok(())
}

// Each stock's messages of a day, in a list at its locate code.
fn lists_of<A: Allocator + Copy>(alloc: A, day: &Day<A>) -> Result<Vec<Vec<u32, A>, A>, AllocError>
    ensures { IfOk result (λ lists. IsIndex day.now.payloads (map (λ list. list.items) lists.items)) }
{
    let mut lists = Vec::new(alloc);
    let mut number = 0;
    for payload in day.payloads() {
        number += 1;
        if let Part::Locate(locate) = part(payload) {
            add_number(alloc, &mut lists, locate, number)?;
        }
    }
    Ok(lists)
}

impl<'d, A: Allocator + Copy> StockIndex<'d, A> {
    /// Goes through the day once.
    pub fn new(alloc: A, day: &'d Day<A>) -> Result<StockIndex<'d, A>, AllocError>
        ensures { IfOk result (λ index. index ≡ day.now.payloads) }
    {
        Ok(StockIndex {
            day,
            lists: lists_of(alloc, day)?,
        })
    }
}

impl<'d, A: Allocator> StockIndex<'d, A> {
    /// The day.
    pub(crate) fn day(&self) -> &'d Day<A>
        ensures { result.now.payloads ≡ self.now }
    {
        self.day
    }

    /// The numbers of a stock's messages, rising; none of a stock without messages.
    pub fn numbers(&self, locate: u16) -> &[u32]
        ensures { result.now ≡ numbers_of self.now locate }
    {
        match self.lists.get(usize::from(locate)) {
            Some(list) => list,
            None => &[],
        }
    }
}
