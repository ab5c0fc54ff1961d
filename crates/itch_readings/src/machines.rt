//! The machines of all stocks of a day.
ghost use Rattle.std.specs.Prelude.{◌≡◌, ◌-◌, ◌<◌, ◌^◌, IfOk, IfSome, List, None, OnOk, length, slice_index_or};
ghost use Rattle.std.specs.List.{All};
ghost use Rattle.std.specs.Option.{option_map};
ghost use Rattle.itch_table.specs.declared.outcome.Part.{Part};
ghost use Rattle.itch_table.specs.Parts.{part};
ghost use Rattle.itch_readings.specs.AllStocks.{NotesInSlot, NotesOne};

use crate::notes::{Notes, note_next};
use itch_table::LOCATES;
use std::alloc::{AllocError, Allocator};
use std::marker::Model;
use stock_machine::Stock;

/// The machines of a day's stocks by locate code, each from the stock's first message on. It is seen as these.
#[derive(Drop)]
pub struct Machines<A: Allocator> {
    slots: Vec<Option<Box<Stock<A>, A>>, A>,
}

impl<A: Allocator> Model for Machines<A> {
    ghost use Rattle.std.specs.Prelude.{◌≡◌, List, Option, length, map};
    ghost use Rattle.std.specs.Coded.{codes};
    ghost use Rattle.std.specs.Option.{option_map};
    ghost use Rattle.itch_table.specs.CodedWorld.{coded_world};
    ghost use Rattle.stock_machine.specs.StockRows.{StockMachine};

    ghost Value = { List (Option StockMachine) };

    ghost coded = { Prim.hlevel (codes, coded_world) };

    ghost view = { λ m. map (option_map (λ stock. stock.value)) m.slots.items };

    ghost invariant = { λ m. length m.slots.items ≡ 0x1_0000 };
}

// Steps the machine in a slot, or a new one where there is none, by the stock's next message, and takes note of it.
fn note_in<A: Allocator + Copy, N: Notes>(
    alloc: A,
    slot: &mut Option<Box<Stock<A>, A>>,
    locate: u16,
    notes: &mut N,
    number: u32,
    payload: &[u8],
) -> Result<(), AllocError>
    requires own { part payload.now ≡ Part.Locate locate }
    requires same { IfSome slot.old (λ stock. stock.value.locate ≡ locate) }
    requires few { IfSome slot.old (λ stock. stock.value.steps < 2 ^ 32 - 1) }
    ensures { OnOk result (NotesInSlot N.noted number payload.now locate
        (option_map (λ stock. stock.value) slot.old) (option_map (λ stock. stock.value) slot.new)
        notes.old notes.new) }
{
    if let Some(stock) = slot {
        return note_next(notes, number, payload, stock);
    }
    let mut stock = Box::new(alloc, Stock::new(alloc, locate))?;
    note_next(notes, number, payload, &mut stock)?;
    *slot = Some(stock);
    Ok(())
}

impl<A: Allocator + Copy> Machines<A> {
    /// Those of no stock. They take 512 KiB of `alloc`; an error says that these were refused.
    pub fn new(alloc: A) -> Result<Machines<A>, AllocError>
        ensures long { IfOk result (λ machines. length machines ≡ 0x1_0000) }
        ensures none { IfOk result (λ machines. All (λ slot. slot ≡ None) machines) }
    {
        let mut slots = Vec::with_capacity(alloc, LOCATES)?;
        for _slot in 0..LOCATES {
            slots.push(None)?;
        }
        Ok(Machines { slots })
    }

    /// Steps a stock's machine by the stock's next message, of this number in the day, and takes note of it. After an error,
    /// which says that memory was refused, the machine and the notes are of no use.
    pub fn note_next<N: Notes>(
        &mut self,
        alloc: A,
        locate: u16,
        notes: &mut N,
        number: u32,
        payload: &[u8],
    ) -> Result<(), AllocError>
        requires own { part payload.now ≡ Part.Locate locate }
        requires same { IfSome (slice_index_or self.old locate None) (λ stock. stock.locate ≡ locate) }
        requires few { IfSome (slice_index_or self.old locate None) (λ stock. stock.steps < 2 ^ 32 - 1) }
        ensures { OnOk result
            (NotesOne N.noted number payload.now locate self.old self.new notes.old notes.new) }
    {
        let slot = &mut self.slots[usize::from(locate)];
        note_in(alloc, slot, locate, notes, number, payload)
    }
}
