//! The tries of a screen.
ghost use Rattle.std.specs.Prelude.{◌≡◌, ◌+◌, ◌*◌, ◌<◌, ◌≤◌, [], IfOk, IfErr, Some};
ghost use Rattle.top_cell.specs.Rule.{IsScreen, sight, sight_of, stock_of};
ghost use Rattle.top_cell.specs.Seats.{IsSameSeat, IsSeatOf};
ghost use Rattle.top_cell.specs.Tries.{AreLost, Busied, CountsRise, Got, Lost, Won};
ghost use Rattle.top_cell.specs.declared.rule.View.TheVariants.{ScreenOf};

use crate::kinds::{ReaderBegins, ReaderEnds, ReaderTakes};
use crate::rule::{Seat, SharedCell};

// Takes the four words in an open try that has none.
fn take_words(cell: &SharedCell, seat: &mut Seat) -> [u64; 4]
    requires seat { IsSeatOf cell.now.table_id seat.old }
    requires begun { (seat.old.me.0 ≡ ScreenOf (stock_of seat.old.me.0) (sight_of seat.old.me.0))
        × ((sight_of seat.old.me.0).taken ≡ Some []) }
    ensures same { IsSameSeat seat.old seat.new }
    ensures took { let v = sight_of seat.old.me.0 in seat.new.me.0
        ≡ ScreenOf (stock_of seat.old.me.0)
        (sight v.number (v.loads + 4) v.looks v.tries v.wins v.last v.began (Some result)) }
    ensures slots { seat.new.me.1 ≡ seat.old.me.1 }
{
    let mut words = [0; 4];
    for index in 0..4 {
        words[index] = cell.load::<ReaderTakes>(seat, index + 1);
    }
    words
}

// Tries once to read the words. An error is the last count that was loaded, where the writer was changing them.
fn try_once(cell: &SharedCell, seat: &mut Seat) -> Result<[u64; 4], u64>
    requires seat { IsSeatOf cell.now.table_id seat.old }
    requires screen { IsScreen seat.old.me.0 }
    ensures same { IsSameSeat seat.old seat.new }
    ensures screen { IsScreen seat.new.me.0 × (stock_of seat.new.me.0 ≡ stock_of seat.old.me.0)
        × (seat.new.me.1 ≡ seat.old.me.1) }
    ensures ok { IfOk result (λ words. Got seat.old.me.0 words seat.new.me.0) }
    ensures err { IfErr result (λ count. Lost seat.old.me.0 count seat.new.me.0) }
    ensures counts { CountsRise seat.old.me.0 seat.new.me.0 }
{
    let began = cell.load::<ReaderBegins>(seat, 0);
    if began % 2 == 1 {
        return Err(began);
    }
    let words = take_words(cell, seat);
    let count = cell.load::<ReaderEnds>(seat, 0);
    if count == began {
        Ok(words)
    } else {
        Err(count)
    }
}

/// Tries up to `tries` times to read the words. An error is the last count that was loaded, where the writer was in
/// the way of each try.
pub(crate) fn try_times(cell: &SharedCell, seat: &mut Seat, tries: u32) -> Result<[u64; 4], u64>
    requires seat { IsSeatOf cell.now.table_id seat.old }
    requires screen { IsScreen seat.old.me.0 }
    requires tries { 1 ≤ tries }
    ensures same { IsSameSeat seat.old seat.new }
    ensures screen { IsScreen seat.new.me.0 × (stock_of seat.new.me.0 ≡ stock_of seat.old.me.0)
        × (seat.new.me.1 ≡ seat.old.me.1) }
    ensures ok { IfOk result (λ words. Won seat.old.me.0 words seat.new.me.0) }
    ensures err { IfErr result (λ count. Busied seat.old.me.0 count seat.new.me.0) }
    ensures lost { IfErr result (λ _. AreLost seat.old.me.0 tries seat.new.me.0) }
    ensures counts { CountsRise seat.old.me.0 seat.new.me.0 }
    ensures loads { (sight_of seat.new.me.0).loads ≤ (sight_of seat.old.me.0).loads + 6 * tries }
{
    let mut count = 0;
    for _ in 0..tries {
        match try_once(cell, seat) {
            Ok(words) => return Ok(words),
            Err(found) => count = found,
        }
    }
    Err(count)
}
