//! Screens of new boards.
ghost use Rattle.std.specs.Prelude.{◌≡◌, All, IfOk};
ghost use Rattle.top_cell.specs.Boards.{IsOn};

use std::alloc::Allocator;
use std::test::Fail;
use top_cell::{Board, Screen, TopWriter};

/// A screen of the first stock of a board.
pub fn first_screen<A: Allocator>(
    board: &Board<A>,
    writers: &mut Vec<TopWriter, A>,
) -> Result<Screen, Fail>
    requires { All (λ w. IsOn board.now w.place) writers.old.items }
    ensures same { writers.new.items ≡ writers.old.items }
    ensures screen { IfOk result (λ screen. IsOn board.now screen.place) }
{
    if writers.is_empty() {
        return Err(Fail::new("no stock"));
    }
    Ok(writers[0].screen(board))
}
