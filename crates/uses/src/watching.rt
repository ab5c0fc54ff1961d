//! What a program that runs a day beside its replay may look like: a gate that counts, and a display.
ghost use Rattle.std.specs.Prelude.{◌≡◌, ◌+◌, ◌<◌, ◌≤◌, All, IfSome};
ghost use Rattle.top_cell.specs.Boards.{IsOn};
ghost use Rattle.itch_watch.specs.Watching.{IsReading};

use std::alloc::Allocator;
use std::sync::Wait;
use std::sync::atomic::{AtomicU64, Ordering};
use std::thread::Threads;
use stock_workers::Gate;
use top_cell::{Board, Reading, Screen};

/// A gate that counts the messages to which workers have come.
#[derive(Drop)]
pub struct Counter {
    messages: AtomicU64,
}

impl Counter {
    /// A gate to which no worker has come yet.
    pub fn new() -> Counter {
        Counter {
            messages: AtomicU64::new(0),
        }
    }

    /// To how many messages workers have come so far. Any thread may ask, also while the workers run.
    pub fn messages(&self) -> u64 {
        self.messages.load(Ordering::SeqCst)
    }
}

impl Gate for Counter {
    fn at<R: Threads + Wait + Sync>(&self, _rt: &R, _worker: u32, _message: u32) {
        self.messages.fetch_add(1, Ordering::SeqCst);
    }
}

/// What the next frame of a display shows: the stock's best bid and ask now or, where its writer is changing the cell
/// at each of four tries, those of the frame before. It makes at most 24 loads and waits for nobody, so a display that
/// has to be drawn by a fixed time can call it. The caller passes the screen's own board.
pub fn next_frame<A: Allocator>(board: &Board<A>, screen: &mut Screen, before: Reading) -> Reading
    requires on { IsOn board.now screen.old.place }
    requires before { IsReading screen.old.place.day screen.old.place.locate before }
    ensures shows { IsReading screen.new.place.day screen.new.place.locate result }
    ensures place { screen.new.place ≡ screen.old.place }
    ensures looked { screen.old.looks < screen.new.looks }
    ensures loads { screen.new.loads ≤ screen.old.loads + 24 }
{
    match screen.glance(board, 4) {
        Ok(reading) => reading,
        Err(_) => before,
    }
}

#[cfg(test)]
mod tests {
    use super::*;
    use binaryfile::Day;
    use itch_text::assemble;
    use std::test::Fail;
    use stock_workers::run;
    use top_cell::TopWriter;

    // A stock with a bid, and then an ask.
    const TEXT: &[u8] =
        b"directory locate=1 tracking=0 time=0 stock=\"AAPL\" category=\"Q\" status=\"N\" lot=100 lots_only=\"N\" issue_class=\"C\" issue_subtype=\"Z\" authenticity=\"P\" short_sale=\"N\" ipo=\"N\" luld=\"1\" etp=\"N\" leverage=0 inverse=\"N\"\n\
          add locate=1 tracking=0 time=1 reference=1 side=\"B\" shares=100 stock=\"AAPL\" price=1010000\n\
          add locate=1 tracking=0 time=2 reference=2 side=\"S\" shares=50 stock=\"AAPL\" price=1020000\n";

    // A screen of the first stock of a board; none where the board has no stock.
    fn first_screen<A: Allocator>(
        board: &Board<A>,
        writers: &mut Vec<TopWriter, A>,
    ) -> Option<Screen>
        requires { All (λ w. IsOn board.now w.place) writers.old.items }
        ensures same { writers.new.items ≡ writers.old.items }
        ensures screen { IfSome result (λ screen. IsOn board.now screen.place) }
    {
        if writers.is_empty() {
            return None;
        }
        Some(writers[0].screen(board))
    }

    #[test]
    fn a_frame_shows_the_last_message(rt: HostRuntime) -> Result<(), Fail> {
        let alloc = rt.alloc();
        let day = Day::from_bytes(alloc, assemble(alloc, TEXT)?, 10)?;
        let (board, mut writers) = Board::new(alloc, &day)?;
        let Some(mut screen) = first_screen(&board, &mut writers) else {
            return Err(Fail::new("no stock"));
        };
        let first = screen.read(&rt, &board);
        let gate = Counter::new();
        run(&rt, alloc, &day, &board, writers, 2, &gate)?;
        let frame = next_frame(&board, &mut screen, first);
        assert_eq!(rt;
            (
                first.message,
                frame.message,
                frame.bid_price,
                gate.messages()
            ),
            (0, 3, 1_010_000, 3)
        );
        Ok(())
    }
}
