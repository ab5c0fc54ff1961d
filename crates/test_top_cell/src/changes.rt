//! A message that is shown by the single steps of a change, with a glance between any two of them.
ghost use Rattle.std.specs.Prelude.{◌≡◌, ◌+◌, ◌<◌, IfOk};
ghost use Rattle.test_top_cell.specs.Showing.{AreChanging, AreInStep};
ghost use Rattle.top_cell.specs.Boards.{IsOn};

use binaryfile::Day;
use itch_table::Plain;
use std::alloc::Allocator;
use std::test::Fail;
use top_cell::steps::{Opened, begin};
use top_cell::{Board, Busy, Reading, Screen, TopWriter};

/// What a glance returns.
pub type Glance = Result<Reading, Busy>;

// Takes the next message of a day, and begins to change the writer's cell to it.
fn begin_next<A: Allocator + Copy>(
    day: &Day<A>,
    machine: &mut Plain<A>,
    board: &Board<A>,
    writer: TopWriter,
) -> Result<Opened, Fail>
    requires { AreInStep day.now.payloads board.now machine.old writer }
    ensures { IfOk result (λ opened.
        AreChanging day.now.payloads board.now machine.new opened × (opened.put ≡ 0)) }
{
    let message = machine.steps();
    if message == day.len() {
        return Err(Fail::new("no message is left"));
    }
    machine.step(day.payload(message + 1))?;
    let top = machine.top(writer.locate());
    Ok(begin(writer, board, message + 1, top))
}

// Puts the next word, and then glances.
fn put_and_glance<A: Allocator>(
    opened: &mut Opened,
    board: &Board<A>,
    screen: &mut Screen,
) -> (Glance, u32)
    requires opened { IsOn board.now opened.old.place × (opened.old.put < 4) }
    requires screen { IsOn board.now screen.old.place }
    ensures opened { opened.new ≡ record opened.old { put = opened.old.put + 1 } }
    ensures screen { screen.new.place ≡ screen.old.place }
{
    opened.put(board);
    (screen.glance(board, 3), screen.message())
}

// Ends a change, of which all words were put. The day and the machine are there for the proof alone.
fn end_change<A: Allocator>(
    _day: &Day<A>,
    _machine: &Plain<A>,
    opened: Opened,
    board: &Board<A>,
) -> TopWriter
    requires changing { AreChanging _day.now.payloads board.now _machine.now opened }
    requires all { opened.put ≡ 4 }
    ensures { AreInStep _day.now.payloads board.now _machine.now result }
{
    opened.end(board)
}

/// Shows the next message of a day by single steps. Returns the writer, and what a glance of three tries has returned
/// after the first step and after each word, with the message at which the screen stood then.
pub fn show_by_steps<A: Allocator + Copy>(
    day: &Day<A>,
    machine: &mut Plain<A>,
    board: &Board<A>,
    writer: TopWriter,
    screen: &mut Screen,
) -> Result<(TopWriter, [(Glance, u32); 5]), Fail>
    requires writer { AreInStep day.now.payloads board.now machine.old writer }
    requires screen { IsOn board.now screen.old.place }
    ensures writer { IfOk result (λ shown. AreInStep day.now.payloads board.now machine.new shown.0) }
    ensures screen { screen.new.place ≡ screen.old.place }
{
    let mut opened = begin_next(day, machine, board, writer)?;
    let begun = (screen.glance(board, 3), screen.message());
    let one = put_and_glance(&mut opened, board, screen);
    let two = put_and_glance(&mut opened, board, screen);
    let three = put_and_glance(&mut opened, board, screen);
    let four = put_and_glance(&mut opened, board, screen);
    let writer = end_change(day, machine, opened, board);
    Ok((writer, [begun, one, two, three, four]))
}
