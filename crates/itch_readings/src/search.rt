//! The search for a stock that is named.
ghost use Rattle.std.specs.Prelude.{ℕ, ◌≡◌, List, [], IfOk, MatchOption, length};
ghost use Rattle.itch_readings.specs.Searching.{FindsNext, HasSearched, KnowsRows};
ghost use Rattle.itch_readings.specs.Naming.{NamesNone, NamesStock};
ghost use Rattle.itch_readings.specs.declared.naming.StockName.TheVariants.{Symbol};

use crate::naming::{StockName, symbol_in};
use binaryfile::Day;
use itch_table::{LOCATES, Part, is_of_stock, part};
use std::alloc::{AllocError, Allocator};
use std::marker::Model;

// The locate code of the stock that begins with a payload, where it is named by its symbol: the payload is the stock's
// first directory message, and gives it that symbol. The list tells which stocks have had a directory message.
fn begun_with(listed: &mut [bool], symbol: &[u8; 8], payload: &[u8]) -> Option<u16>
    requires { length listed.old ≡ 0x1_0000 }
    ensures { (day : List (List ℕ)) → NamesNone day (Symbol symbol.now)
        → KnowsRows day (Symbol symbol.now) listed.old
        → FindsNext day payload.now (record { name = Symbol symbol.now; listed = listed.old })
        (record { name = Symbol symbol.now; listed = listed.new }) result }
{
    let Some(own) = symbol_in(payload) else {
        return None;
    };
    let Part::Locate(locate) = part(payload) else {
        return None;
    };
    if listed[locate as usize] {
        return None;
    }
    listed[locate as usize] = true;
    if own == *symbol { Some(locate) } else { None }
}

/// The search for a stock that is named, among the messages of a day in their order.
///
/// A locate code names its stock, which begins with its first message. A symbol names the stock of the first directory
/// message (Nasdaq TotalView-ITCH 5.0, "Stock Directory") that gives the symbol and is applied; the stock begins with that
/// message, and its messages before are all refused.
#[derive(Drop)]
pub struct StockSearch<A: Allocator> {
    name: StockName,
    // By locate code, whether the stock has had a directory message; where the stock is named by its symbol.
    listed: Vec<bool, A>,
}

impl<A: Allocator> Model for StockSearch<A> {
    ghost use Rattle.std.specs.Prelude.{◌≡◌, length};
    ghost use Rattle.itch_readings.specs.Searching.{Search};

    ghost Value = { Search };

    ghost view = { λ s. record { name = s.name; listed = s.listed.items } };

    ghost invariant = { λ s. length s.listed.items ≡ 0x1_0000 };
}

impl<A: Allocator + Copy> StockSearch<A> {
    /// Before the first message of a day. It takes 64 KiB of `alloc`; an error says that they were refused.
    pub fn new(alloc: A, name: StockName) -> Result<StockSearch<A>, AllocError>
        ensures name { IfOk result (λ search. search.name ≡ name) }
        ensures searched { IfOk result (HasSearched []) }
    {
        let listed = vec![in alloc; false; LOCATES]?;
        Ok(StockSearch { name, listed })
    }
}

impl<A: Allocator> StockSearch<A> {
    /// Takes the next message of the day. It gives the locate code of the stock that is named where the stock begins with
    /// this message, and then the search has ended.
    pub fn take(&mut self, payload: &[u8]) -> Option<u16>
        ensures name { self.new.name ≡ self.old.name }
        ensures next { (day : List (List ℕ)) → HasSearched day self.old
            → FindsNext day payload.now self.old self.new result }
    {
        match self.name {
            StockName::Locate(locate) if is_of_stock(payload, locate) => Some(locate),
            StockName::Locate(_) => None,
            StockName::Symbol(symbol) => begun_with(&mut self.listed, &symbol, payload),
        }
    }
}

/// The locate code of the stock of a day that is named; none where the day hasn't the stock. The memory is that of `alloc`.
///
/// A locate code names its stock. A symbol names the stock of the first directory message (Nasdaq TotalView-ITCH 5.0, "Stock
/// Directory") that gives the symbol and is applied.
pub fn find_stock<A: Allocator + Copy>(
    alloc: A,
    day: &Day<A>,
    name: StockName,
) -> Result<Option<u16>, AllocError>
    ensures { IfOk result (λ found. MatchOption found
        (NamesNone day.now.payloads name)
        (λ locate. (n : ℕ) × NamesStock day.now.payloads name n locate)) }
{
    let mut search = StockSearch::new(alloc, name)?;
    for payload in day.payloads() {
        if let Some(locate) = search.take(payload) {
            return Ok(Some(locate));
        }
    }
    Ok(None)
}
