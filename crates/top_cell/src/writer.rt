//! The writer of a cell.
ghost use Rattle.std.specs.Prelude.{◌≡◌, ◌≤◌, length};
ghost use Rattle.itch_table.specs.Shows.{top_after};
ghost use Rattle.top_cell.specs.Boards.{IsOn, new_screen};

use crate::board::Board;
use crate::kinds::Splits;
use crate::rule::Seat;
use crate::screen::Screen;
use crate::writing::write;
use itch_table::Top;
use std::alloc::Allocator;
use std::marker::Model;

/// The one writer of a cell, which sets its words after each message of its stock.
///
/// It is seen as the cell that it belongs to, with the day and the stock that the cell shows, and the number of the
/// message at which it stands: the words show the stock after that message.
#[derive(Drop)]
pub struct TopWriter {
    pub(crate) seat: Seat,
    pub(crate) index: u16,
    pub(crate) locate: u16,
    pub(crate) message: u32,
}

impl Model for TopWriter {
    ghost use Rattle.top_cell.specs.Boards.{WriterAt, place};
    ghost use Rattle.top_cell.specs.Seats.{IsWritersSeat};

    ghost Value = { WriterAt };

    ghost view = { λ w. record { place = place w.seat w.index; message = w.message } };

    ghost invariant = { λ w. IsWritersSeat w.seat w.locate w.message };
}

impl TopWriter {
    /// The locate code of its stock.
    pub fn locate(&self) -> u16
        ensures { result ≡ self.now.place.locate }
    {
        self.locate
    }

    /// The number of the message at which it stands; 0 before the first.
    pub fn message(&self) -> u32
        ensures { result ≡ self.now.message }
    {
        self.message
    }

    /// Shows the stock's best bid and ask after a message of the day, which isn't earlier than the last one that was
    /// published. A message is published also where the best bid and ask stay as they were; one at which the writer
    /// stands already changes nothing. The caller passes the writer's own board, and the best bid and ask that the
    /// day's stock has after the message.
    ///
    /// It waits for nobody, whatever screens do.
    pub fn publish<A: Allocator>(&mut self, board: &Board<A>, message: u32, top: Top)
        requires own { IsOn board.now self.old.place }
        requires later { self.old.message ≤ message }
        requires within { message ≤ length self.old.place.day }
        requires top { top ≡ top_after self.old.place.day self.old.place.locate message }
        ensures { self.new ≡ record self.old { message = message } }
    {
        if message == self.message {
            return;
        }
        let words = top.to_words(message);
        write(board.cell(self.index), &mut self.seat, &words);
        self.message = message;
    }

    /// A screen of the writer's stock, which stands where the writer stands: it never shows an earlier message. The
    /// caller passes the writer's own board.
    pub fn screen<A: Allocator>(&mut self, board: &Board<A>) -> Screen
        requires { IsOn board.now self.old.place }
        ensures same { self.new ≡ self.old }
        ensures screen { result ≡ new_screen self.old.place self.old.message result.seat }
    {
        let cell = board.cell(self.index);
        Screen {
            seat: cell.split_seat::<Splits>(&mut self.seat),
            index: self.index,
            locate: self.locate,
            message: self.message,
        }
    }
}
