//! The steps of a writer.
ghost use Rattle.std.specs.Prelude.{◌≡◌, ◌+◌, ◌<◌, slice_index};
ghost use Rattle.top_cell.specs.Rule.{IsIdle, IsWriting, ShowsOf, Turns, change_of, number_in, number_of, stock_of};
ghost use Rattle.top_cell.specs.Seats.{HasFewMessages, IsSameSeat, IsSeatOf};
ghost use Rattle.top_cell.specs.Kinds.{WriterBegun, WriterEnded, WriterHasPut};

use crate::kinds::{Coming, WriterBegins, WriterEnds, WriterPuts};
use crate::rule::{Seat, SharedCell};
use std::marker::Brand;

/// Makes the count odd. These words, which show a later message, are to come.
pub(crate) fn begin_write<J: Coming>(cell: &SharedCell, seat: &mut Seat, words: &[u64; 4])
    requires seat { IsSeatOf cell.now.table_id seat.old }
    requires named { J.words ≡ words.now }
    requires idle { IsIdle seat.old.me.0 × HasFewMessages seat.old.me.0 }
    requires words { ShowsOf (stock_of seat.old.me.0) (number_in words.now) words.now
        × (number_of seat.old.me.0 < number_in words.now) }
    ensures same { IsSameSeat seat.old seat.new }
    ensures turns { Turns (WriterBegun words.now) seat.old.me seat.new.me }
{
    cell.fetch_add::<WriterBegins<J>>(seat, 0, 1);
}

/// Puts the next of the new words.
pub(crate) fn put_word(cell: &SharedCell, seat: &mut Seat, index: usize, word: u64)
    requires seat { IsSeatOf cell.now.table_id seat.old }
    requires writing { IsWriting seat.old.me.0 × (index < 4) × (index ≡ (change_of seat.old.me.0).put) }
    requires word { word ≡ slice_index (change_of seat.old.me.0).new index }
    ensures same { IsSameSeat seat.old seat.new }
    ensures turns { Turns WriterHasPut seat.old.me seat.new.me }
{
    cell.store::<WriterPuts>(seat, index + 1, word);
}

/// Makes the count even again, where all four words were put.
pub(crate) fn end_write(cell: &SharedCell, seat: &mut Seat)
    requires seat { IsSeatOf cell.now.table_id seat.old }
    requires writing { IsWriting seat.old.me.0 × ((change_of seat.old.me.0).put ≡ 4)
        × HasFewMessages seat.old.me.0 }
    ensures same { IsSameSeat seat.old seat.new }
    ensures turns { Turns WriterEnded seat.old.me seat.new.me }
{
    cell.fetch_add::<WriterEnds>(seat, 0, 1);
}

/// Makes a whole change to these words, which show a later message.
pub(crate) fn write(cell: &SharedCell, seat: &mut Seat, words: &[u64; 4])
    requires seat { IsSeatOf cell.now.table_id seat.old }
    requires idle { IsIdle seat.old.me.0 × HasFewMessages seat.old.me.0 }
    requires words { ShowsOf (stock_of seat.old.me.0) (number_in words.now) words.now
        × (number_of seat.old.me.0 < number_in words.now) }
    ensures same { IsSameSeat seat.old seat.new }
    ensures stands { IsIdle seat.new.me.0 × (stock_of seat.new.me.0 ≡ stock_of seat.old.me.0)
        × (number_of seat.new.me.0 ≡ number_in words.now) }
    ensures slots { seat.new.me.1 ≡ seat.old.me.1 }
{
    begin_write::<Brand>(cell, seat, words);
    for index in 0..4 {
        put_word(cell, seat, index, words[index]);
    }
    end_write(cell, seat);
}
