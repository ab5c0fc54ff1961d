//! A stock that is shown on screens while its day is replayed.
ghost use Rattle.std.specs.Prelude.{◌≡◌, ◌+◌, IfOk, OnErr, OnOk, length, min};
ghost use Rattle.test_top_cell.specs.Showing.{AreInStep};

use binaryfile::Day;
use itch_table::Plain;
use std::alloc::{AllocError, Allocator};
use top_cell::{Board, TopWriter};

/// Takes the next message of a day, and shows the best bid and ask of the writer's stock after it. Returns whether
/// there was one.
///
/// After an error the machine and the cell are as they were.
pub fn show_next<A: Allocator + Copy>(
    day: &Day<A>,
    machine: &mut Plain<A>,
    board: &Board<A>,
    writer: &mut TopWriter,
) -> Result<bool, AllocError>
    requires { AreInStep day.now.payloads board.now machine.old writer.old }
    ensures in_step { AreInStep day.now.payloads board.now machine.new writer.new }
    ensures place { writer.new.place ≡ writer.old.place }
    ensures machine { OnErr result (machine.new ≡ machine.old) }
    ensures writer { OnErr result (writer.new ≡ writer.old) }
    ensures taken { OnOk result
        (machine.new.steps ≡ min (machine.old.steps + 1) (length day.now.payloads)) }
{
    let message = machine.steps();
    if message == day.len() {
        return Ok(false);
    }
    machine.step(day.payload(message + 1))?;
    writer.publish(board, message + 1, machine.top(writer.locate()));
    Ok(true)
}

/// Replays the rest of a day, and shows the best bid and ask of the writer's stock after each of its messages.
///
/// Screens of the stock may read the board meanwhile, each in a thread of its own. An error says that memory was
/// refused; the cell then shows the last message that was taken.
pub fn show_rest<A: Allocator + Copy>(
    day: &Day<A>,
    mut machine: Plain<A>,
    board: &Board<A>,
    mut writer: TopWriter,
) -> Result<TopWriter, AllocError>
    requires { AreInStep day.now.payloads board.now machine writer }
    ensures { IfOk result (λ shown. shown ≡ record writer { message = length day.now.payloads }) }
{
    for _ in machine.steps()..day.len() {
        show_next(day, &mut machine, board, &mut writer)?;
    }
    Ok(writer)
}
