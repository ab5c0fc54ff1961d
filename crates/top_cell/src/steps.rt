//! The single steps by which a writer changes its cell, for laws and for tests. [`TopWriter::publish`] makes them all
//! at once.
ghost use Rattle.std.specs.Prelude.{◌≡◌, ◌+◌, ◌<◌, ◌≤◌, length};
ghost use Rattle.itch_table.specs.Shows.{top_after};
ghost use Rattle.top_cell.specs.Boards.{IsOn};

use crate::board::Board;
use crate::rule::Seat;
use crate::writer::TopWriter;
use crate::writing::{begin_write, end_write, put_word};
use itch_table::Top;
use std::alloc::Allocator;
use std::marker::{Brand, Model};

/// A writer in the middle of a change, during which each glance at its cell is busy. It has to be spent by `end`.
///
/// It is seen as the writer's cell, the number of the message at which the writer stands, that of the message to which
/// it changes the cell, and how many of the four words it has put.
pub struct Opened {
    seat: Seat,
    index: u16,
    locate: u16,
    message: u32,
    words: [u64; 4],
    put: usize,
}

impl Model for Opened {
    ghost use Rattle.top_cell.specs.Boards.{ChangeAt, place};
    ghost use Rattle.top_cell.specs.Rule.{number_of};
    ghost use Rattle.top_cell.specs.Seats.{IsChangesSeat};

    ghost Value = { ChangeAt };

    ghost view = { λ w. record {
      place = place w.seat w.index;
      from = number_of w.seat.me.0;
      to = w.message;
      put = w.put;
    } };

    ghost invariant = { λ w. IsChangesSeat w.seat w.locate w.message w.words w.put };
}

/// Begins a change to the best bid and ask after a message, which is later than the writer's. The caller passes what
/// [`TopWriter::publish`] requires.
pub fn begin<A: Allocator>(writer: TopWriter, board: &Board<A>, message: u32, top: Top) -> Opened
    requires own { IsOn board.now writer.place }
    requires later { writer.message < message }
    requires within { message ≤ length writer.place.day }
    requires top { top ≡ top_after writer.place.day writer.place.locate message }
    ensures { result ≡ record { place = writer.place; from = writer.message; to = message; put = 0 } }
{
    let TopWriter {
        mut seat,
        index,
        locate,
        message: _,
    } = writer;
    let words = top.to_words(message);
    begin_write::<Brand>(board.cell(index), &mut seat, &words);
    Opened {
        seat,
        index,
        locate,
        message,
        words,
        put: 0,
    }
}

impl Opened {
    /// Puts the next word, where fewer than four were put.
    pub fn put<A: Allocator>(&mut self, board: &Board<A>)
        requires own { IsOn board.now self.old.place }
        requires left { self.old.put < 4 }
        ensures { self.new ≡ record self.old { put = self.old.put + 1 } }
    {
        let word = self.words[self.put];
        put_word(board.cell(self.index), &mut self.seat, self.put, word);
        self.put += 1;
    }

    /// Ends the change, where all four words were put.
    pub fn end<A: Allocator>(self, board: &Board<A>) -> TopWriter
        requires own { IsOn board.now self.place }
        requires all { self.put ≡ 4 }
        ensures { result ≡ record { place = self.place; message = self.to } }
    {
        let Opened {
            mut seat,
            index,
            locate,
            message,
            words: _,
            put: _,
        } = self;
        end_write(board.cell(index), &mut seat);
        TopWriter {
            seat,
            index,
            locate,
            message,
        }
    }
}
