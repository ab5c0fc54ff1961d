//! The cells of a day's stocks.
ghost use Rattle.std.specs.Prelude.{◌≡◌, ◌<◌, IfOk, Some, length, slice_get};
ghost use Rattle.itch_table.specs.Shows.{locates_of_day};
ghost use Rattle.top_cell.specs.Boards.{AreApart, AreNew, CellId, new_writer};
ghost use Rattle.top_cell.specs.Rule.{day_stock};

use crate::kinds::{Naming, Opens};
use crate::rule::{CellTable, SharedCell};
use crate::writer::TopWriter;
use binaryfile::Day;
use day_core::locates;
use std::alloc::{AllocError, Allocator};
use std::marker::{Brand, Model};

// The cell of a stock. It is seen as the stock's locate code and the identity of the cell's table.
#[derive(Drop)]
struct Cell<A: Allocator> {
    locate: u16,
    table: CellTable<A>,
}

impl<A: Allocator> Model for Cell<A> {
    ghost use Rattle.std.specs.Prelude.{◌≡◌};
    ghost use Rattle.top_cell.specs.Boards.{CellId, cell_id};

    ghost Value = { CellId };

    ghost view = { λ c. cell_id c.locate c.table.shared.table_id };

    ghost invariant = { λ c. c.table.shared.table_id.words ≡ 5 };
}

impl<A: Allocator> Cell<A> {
    // Its count and its words.
    fn shared(&self) -> &SharedCell
        ensures table { result.now.table_id ≡ self.now.table }
        ensures five { result.now.table_id.words ≡ 5 }
    {
        &self.table.shared
    }
}

/// A cell for each stock of a day, by rising locate code. Threads share it by reference.
///
/// It is seen as its cells, each the locate code of its stock and the identity of its table.
#[derive(Drop)]
pub struct Board<A: Allocator> {
    cells: Vec<Cell<A>, A>,
}

impl<A: Allocator> Model for Board<A> {
    ghost use Rattle.std.specs.Prelude.{List};
    ghost use Rattle.top_cell.specs.Boards.{AreApart, CellId};

    ghost Value = { List CellId };

    ghost view = { λ b. b.cells.items };

    ghost invariant = { λ b. AreApart b.cells.items };
}

impl<A: Allocator> Board<A> {
    // The count and the words of a cell.
    pub(crate) fn cell(&self, index: u16) -> &SharedCell
        requires { index < length self.now }
        ensures table { (cell : CellId) → slice_get self.now index ≡ Some cell
            → result.now.table_id ≡ cell.table }
        ensures five { result.now.table_id.words ≡ 5 }
        ensures apart { AreApart self.now }
    {
        self.cells[usize::from(index)].shared()
    }
}

// Opens a new cell, as that of a stock of the day, and returns it with its writer.
fn open<J: Naming, A: Allocator>(
    alloc: A,
    day: &Day<A>,
    locate: u16,
    index: u16,
) -> Result<(Cell<A>, TopWriter), AllocError>
    requires stock { J.stock ≡ day_stock day.now.payloads locate }
    ensures cell { IfOk result (λ made. made.0.locate ≡ locate) }
    ensures writer { IfOk result (λ made. made.1 ≡ new_writer day.now.payloads locate index made.0) }
{
    // For the proof alone: it says that the day has fewer than 2^32 messages.
    let _few = day.payloads();
    let (table, mut seat) = CellTable::of_words(alloc, &[0; 5], &())?;
    table.shared.load::<Opens<J>>(&mut seat, 0);
    let writer = TopWriter {
        seat,
        index,
        locate,
        message: 0,
    };
    Ok((Cell { locate, table }, writer))
}

impl<A: Allocator + Copy> Board<A> {
    /// A cell for each stock that has messages in the day, and the writer of each, by rising locate code. Each writer
    /// is before the first message, and each cell shows zeros.
    pub fn new(alloc: A, day: &Day<A>) -> Result<(Board<A>, Vec<TopWriter, A>), AllocError>
        ensures { IfOk result (λ made.
            AreNew day.now.payloads (locates_of_day day.now.payloads) made.0 made.1.items) }
    {
        let locates = locates(alloc, day)?;
        let mut cells = Vec::with_capacity(alloc, locates.len())?;
        let mut writers = Vec::with_capacity(alloc, locates.len())?;
        for locate in &locates {
            let index = writers.len() as u16;
            let (cell, writer) = open::<Brand, A>(alloc, day, *locate, index)?;
            cells.push(cell)?;
            writers.push(writer)?;
        }
        Ok((Board { cells }, writers))
    }
}
