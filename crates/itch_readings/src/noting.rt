//! A stock that is named, whose messages are noted one by one.
ghost use Rattle.std.specs.Prelude.{ℕ, ◌≡◌, ◌+◌, ◌-◌, ◌<◌, ◌^◌, ◌++◌, ◌∷◌, List, [], IfOk, IfSome, MatchOption, OnOk, length};
ghost use Rattle.itch_table.specs.After.{after};
ghost use Rattle.itch_table.specs.Projection.{only};
ghost use Rattle.itch_readings.specs.Naming.{NamesNone, NamesStock};
ghost use Rattle.itch_readings.specs.Noting.{HasNoted, HasTaken, TakesNext};
ghost use Rattle.itch_readings.specs.Searching.{HasSearched};

use crate::naming::StockName;
use crate::notes::{Notes, note_next};
use crate::search::StockSearch;
use crate::segments::TakesSegments;
use binaryfile::Day;
use itch_table::{is_of_stock, own_rows_suffice, stocks_are_independent};
use std::alloc::{AllocError, Allocator};
use stock_machine::Stock;

// The machine of the stock that is named, where the stock begins with the next message.
fn begun_by<A: Allocator + Copy>(
    alloc: A,
    search: &mut StockSearch<A>,
    payload: &[u8],
) -> Option<Stock<A>>
    ensures name { search.new.name ≡ search.old.name }
    ensures next { (day : List (List ℕ)) → HasSearched day search.old → MatchOption result
        (HasSearched (day ++ payload.now ∷ []) search.new)
        (λ stock. NamesStock (day ++ payload.now ∷ []) search.old.name (length day + 1) stock.locate
        × (stock.world ≡ only stock.locate (after day (length day))) × (stock.steps ≡ 0)) }
{
    let locate = search.take(payload)?;
    Some(Stock::new(alloc, locate))
}

/// A stock that is named, as far as a day was read, and the notes of its messages.
#[derive(Drop)]
pub struct Noted<A: Allocator, N: Drop> {
    /// The search for the stock, which ends where the stock begins.
    pub search: StockSearch<A>,
    /// How many messages were taken.
    pub messages: u32,
    /// The stock's machine, from the message on with which the stock begins.
    pub stock: Option<Stock<A>>,
    /// The notes of its messages.
    pub notes: N,
}

impl<A: Allocator + Copy, N: Notes + Drop> Noted<A, N> {
    /// Before the first message of a day, with these notes, which are of no message.
    pub fn new(alloc: A, name: StockName, notes: N) -> Result<Noted<A, N>, AllocError>
        requires { N.noted notes notes [] }
        ensures notes { IfOk result (λ noted. noted.notes ≡ notes) }
        ensures name { IfOk result (λ noted. noted.search.name ≡ name) }
        ensures none { IfOk result (λ noted. HasTaken N.noted noted.notes [] noted.search.name
            noted.search noted.messages noted.stock noted.notes) }
    {
        let search = StockSearch::new(alloc, name)?;
        Ok(Noted {
            search,
            messages: 0,
            stock: None,
            notes,
        })
    }

    // Counts the next message, and makes the stock's machine where the stock begins with it.
    fn count(&mut self, alloc: A, payload: &[u8])
        requires { self.old.messages < 2 ^ 32 - 1 }
        ensures { (first : N) (day : List (List ℕ)) (name : StockName)
            → HasTaken N.noted first day name self.old.search self.old.messages self.old.stock self.old.notes
            → TakesNext N.noted first day payload.now name self.new.search
            self.new.messages self.new.stock self.new.notes }
    {
        self.messages += 1;
        if self.stock.is_none() {
            self.stock = begun_by(alloc, &mut self.search, payload);
        }
    }

    // Takes note of the message that was counted, where it is the stock's.
    fn note_own(&mut self, payload: &[u8]) -> Result<(), AllocError>
        requires { IfSome self.old.stock (λ stock. stock.steps < 2 ^ 32 - 1) }
        ensures { OnOk result ((first : N) (day : List (List ℕ)) (name : StockName)
            → TakesNext N.noted first day payload.now name self.old.search
            self.old.messages self.old.stock self.old.notes
            → HasTaken N.noted first (day ++ payload.now ∷ []) name self.new.search
            self.new.messages self.new.stock self.new.notes) }
    {
        // Laws that the proof cites: they do nothing.
        stocks_are_independent();
        own_rows_suffice();
        let Some(stock) = &mut self.stock else {
            return Ok(());
        };
        if !is_of_stock(payload, stock.locate()) {
            return Ok(());
        }
        note_next(&mut self.notes, self.messages, payload, stock)
    }

    /// Takes the next message of the day. With those before it they are fewer than 2^32. After an error, which says that
    /// memory was refused, what was taken is of no use.
    pub fn take(&mut self, alloc: A, payload: &[u8]) -> Result<(), AllocError>
        requires { (first : N) × (day : List (List ℕ)) × (name : StockName)
            × HasTaken N.noted first day name self.old.search self.old.messages self.old.stock self.old.notes
            × (length day + 1 < 2 ^ 32) }
        ensures { OnOk result ((first : N) (day : List (List ℕ)) (name : StockName)
            → HasTaken N.noted first day name self.old.search self.old.messages self.old.stock self.old.notes
            → HasTaken N.noted first (day ++ payload.now ∷ []) name self.new.search
            self.new.messages self.new.stock self.new.notes) }
    {
        self.count(alloc, payload);
        self.note_own(payload)
    }

    /// The stock's machine and the notes, or none where no stock has begun.
    pub fn into_parts(self) -> Option<(Stock<A>, N)>
        ensures { (first : N) (day : List (List ℕ)) (name : StockName)
            → HasTaken N.noted first day name self.search self.messages self.stock self.notes
            → MatchOption result (NamesNone day name) (λ parts. (n : ℕ)
            × NamesStock day name n parts.0.locate × HasNoted N.noted first day n parts.0 parts.1) }
    {
        let Noted { stock, notes, .. } = self;
        match stock {
            Some(stock) => Some((stock, notes)),
            None => None,
        }
    }
}

impl<A: Allocator + Copy, N: Notes + Drop> TakesSegments<A> for Noted<A, N> {
    ghost has_taken = { λ first now day. HasTaken N.noted first.notes day first.search.name
        now.search now.messages now.stock now.notes };

    fn take_segment(&mut self, alloc: A, segment: &Day<A>) -> Result<(), AllocError> {
        for payload in segment.payloads() {
            self.take(alloc, payload)?;
        }
        Ok(())
    }
}
