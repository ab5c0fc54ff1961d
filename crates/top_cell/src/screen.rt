//! The readers of a cell.
ghost use Rattle.std.specs.Prelude.{◌≡◌, ◌⊎◌, ◌+◌, ◌*◌, ◌%◌, ◌<◌, ◌≤◌, IfErr, IfOk, max};
ghost use Rattle.itch_table.specs.Shows.{Shows};
ghost use Rattle.top_cell.specs.Boards.{IsOn, new_screen};
ghost use Rattle.top_cell.specs.Readings.{words_read};

use crate::board::Board;
use crate::kinds::{Joins, Splits};
use crate::reading::Reading;
use crate::rule::Seat;
use crate::trying::try_times;
use std::alloc::Allocator;
use std::marker::Model;
use std::sync::Wait;

/// One that reads a cell. It stands at the message that it has read last, and never reads an earlier one.
///
/// It is seen as the cell that it belongs to, with the day and the stock that the cell shows, its seat there, the
/// number of the message at which it stands, how often it has loaded the count or a word of the cell, how often it has
/// loaded the count, has begun a try to read and has won one, the last count that it has loaded, and the even one at
/// which its last try began. None of these counts ever falls.
#[derive(Drop)]
pub struct Screen {
    pub(crate) seat: Seat,
    pub(crate) index: u16,
    pub(crate) locate: u16,
    pub(crate) message: u32,
}

impl Model for Screen {
    ghost use Rattle.top_cell.specs.Boards.{ScreenAt, place};
    ghost use Rattle.top_cell.specs.Rule.{sight_of};
    ghost use Rattle.top_cell.specs.Seats.{IsScreensSeat};

    ghost Value = { ScreenAt };

    ghost view = { λ s. record {
      place = place s.seat s.index;
      seat = s.seat.id;
      message = s.message;
      loads = (sight_of s.seat.me.0).loads;
      looks = (sight_of s.seat.me.0).looks;
      tries = (sight_of s.seat.me.0).tries;
      wins = (sight_of s.seat.me.0).wins;
      last = (sight_of s.seat.me.0).last;
      began = (sight_of s.seat.me.0).began;
    } };

    ghost invariant = { λ s. IsScreensSeat s.seat s.locate s.message };
}

/// That the writer was changing the cell at each try of a glance.
#[derive(Debug, Clone, Copy, PartialEq, Eq)]
pub struct Busy {
    /// How often the writer had begun or ended a change, when the glance looked last: odd while it was changing the
    /// cell, and else even and more than when the glance's last try began. It is no lower than any count that the
    /// screen has loaded before.
    pub count: u64,
}

impl Screen {
    /// The locate code of its stock.
    pub fn locate(&self) -> u16
        ensures { result ≡ self.now.place.locate }
    {
        self.locate
    }

    /// The number of the message at which it stands; 0 before the first.
    pub fn message(&self) -> u32
        ensures { result ≡ self.now.message }
    {
        self.message
    }

    /// Tries up to `tries` times, at least once, to read the stock's best bid and ask after some message, which isn't
    /// earlier than the one at which the screen stood and becomes it. Each try is six loads at most. The caller passes
    /// the screen's own board, here and below.
    ///
    /// It waits for nobody. An error says that the writer was changing the cell at each try; the screen then stands
    /// where it stood. Where no change is under way from the beginning to the end of a try, it succeeds.
    ///
    /// By the rule of a cell, what a screen has found at its seat in a call stood there at some moment of the call: the
    /// counts that it has loaded, and the message of a try that it has won or an earlier one. So a reading is of no
    /// earlier message than the cell showed when the call began, and a glance during which the count is even and
    /// doesn't change isn't busy.
    pub fn glance<A: Allocator>(&mut self, board: &Board<A>, tries: u32) -> Result<Reading, Busy>
        requires own { IsOn board.now self.old.place }
        requires tries { 1 ≤ tries }
        ensures place { self.new.place ≡ self.old.place }
        ensures seat { self.new.seat ≡ self.old.seat }
        ensures shows { IfOk result (λ reading.
            Shows self.old.place.day self.old.place.locate reading.message (words_read reading)) }
        ensures later { IfOk result (λ reading. self.old.message ≤ reading.message) }
        ensures stands { IfOk result (λ reading. self.new.message ≡ reading.message) }
        ensures whole { IfOk result (λ _. self.old.loads + 6 ≤ self.new.loads) }
        ensures won { IfOk result (λ _. self.old.wins < self.new.wins) }
        ensures busy { IfErr result (λ busy. (self.new.message ≡ self.old.message)
            × (busy.count ≡ self.new.last) × ((busy.count % 2 ≡ 1)
            ⊎ ((self.old.tries < self.new.tries) × (self.new.began < busy.count)))) }
        ensures lost { IfErr result (λ _. (self.old.looks + tries ≤ self.new.looks)
            × (self.new.wins ≡ self.old.wins)) }
        ensures looked { self.old.looks < self.new.looks }
        ensures counts { (self.old.last ≤ self.new.last) × (self.old.began ≤ self.new.began)
            × (self.old.tries ≤ self.new.tries) × (self.old.wins ≤ self.new.wins) }
        ensures even { IfOk result (λ _. (self.new.last ≡ self.new.began) × (self.new.last % 2 ≡ 0)) }
        ensures loads { (self.old.loads < self.new.loads) × (self.new.loads ≤ self.old.loads + 6 * tries) }
    {
        match try_times(board.cell(self.index), &mut self.seat, tries) {
            Ok(words) => {
                let reading = Reading::of(&words);
                self.message = reading.message;
                Ok(reading)
            }
            Err(count) => Err(Busy { count }),
        }
    }

    /// The stock's best bid and ask after some message, which isn't earlier than the one at which the screen stood
    /// and becomes it, nor than the one that the cell showed when the call began.
    ///
    /// It glances until it sees the cell outside a change, and may wait for changes that are under way.
    pub fn read<R: Wait, A: Allocator>(&mut self, rt: &R, board: &Board<A>) -> Reading
        requires { IsOn board.now self.old.place }
        ensures place { self.new.place ≡ self.old.place }
        ensures seat { self.new.seat ≡ self.old.seat }
        ensures shows { Shows self.old.place.day self.old.place.locate result.message (words_read result) }
        ensures later { self.old.message ≤ result.message }
        ensures stands { self.new.message ≡ result.message }
        ensures won { self.old.wins < self.new.wins }
        ensures looked { self.old.looks < self.new.looks }
        ensures counts { (self.old.last ≤ self.new.last) × (self.old.began ≤ self.new.began)
            × (self.old.tries ≤ self.new.tries) }
        ensures even { (self.new.last ≡ self.new.began) × (self.new.last % 2 ≡ 0) }
        ensures loads { self.old.loads < self.new.loads }
    {
        for _ in rt.forever() {
            if let Ok(reading) = self.glance(board, 1) {
                return reading;
            }
        }
        unreachable!()
    }

    /// A second screen of the stock, which stands where this one stands.
    pub fn split<A: Allocator>(&mut self, board: &Board<A>) -> Screen
        requires { IsOn board.now self.old.place }
        ensures same { self.new ≡ self.old }
        ensures screen { result ≡ new_screen self.old.place self.old.message result.seat }
    {
        let cell = board.cell(self.index);
        Screen {
            seat: cell.split_seat::<Splits>(&mut self.seat),
            index: self.index,
            locate: self.locate,
            message: self.message,
        }
    }

    /// Takes in another screen of the same stock, and stands at the later message of the two. The board is that of
    /// both.
    pub fn join<A: Allocator>(&mut self, board: &Board<A>, other: Screen)
        requires own { IsOn board.now self.old.place }
        requires other { IsOn board.now other.place }
        requires same { other.place.locate ≡ self.old.place.locate }
        ensures { self.new ≡ record self.old { message = max self.old.message other.message } }
    {
        let Screen {
            seat,
            index: _,
            locate: _,
            message,
        } = other;
        let cell = board.cell(self.index);
        cell.join_seat::<Joins>(&mut self.seat, seat);
        self.message = self.message.max(message);
    }
}
