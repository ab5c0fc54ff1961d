//! Schedules: turns of a day's workers and looks of screens, in any order.
ghost use Rattle.std.specs.Prelude.{◌≡◌, ◌++◌, ◌<◌, ◌⊎◌, ◌↔◌, IfOk, IsErrOf, OnOk, replicate};
ghost use Rattle.day_core.specs.Turns.{workers_of};
ghost use Rattle.day_core.specs.Schedules.{Changes, seen_by, seen_of};

use crate::splitting::SplitFault;
use crate::turns::Turns;
use binaryfile::Day;
use std::alloc::{AllocError, Allocator};
use std::thread::Threads;

/// An event of a schedule.
#[derive(Debug, Clone, Copy, PartialEq, Eq)]
pub enum Event {
    /// The next message of this worker is done, where it has one left. Workers are numbered from 0.
    Turn(u32),
    /// A screen looks at a stock.
    Look {
        /// Which screen.
        screen: u32,
        /// The stock's locate code.
        locate: u16,
    },
}

/// What a screen sees in one look.
#[derive(Debug, Clone, Copy, PartialEq, Eq)]
pub struct Seen {
    /// Which screen.
    pub screen: u32,
    /// The stock's locate code.
    pub locate: u16,
    /// The stock's best bid and ask as four words: the number of the last message done that is of the stock; the bid's
    /// price times 2^32 and the ask's price, in 1/10,000 of a currency unit; the bid's shares; and the ask's. Four
    /// zeros before the first message.
    pub words: [u64; 4],
}

// Lets one event happen, and notes what it shows.
fn happen<A: Allocator + Copy>(
    turns: &mut Turns<'_, A>,
    event: Event,
    seen: &mut Vec<Seen, A>,
) -> Result<(), AllocError>
    ensures changes { OnOk result (Changes turns.old event turns.new) }
    ensures seen { OnOk result (seen.new.items ≡ seen.old.items ++ seen_of turns.old event) }
{
    match event {
        Event::Turn(worker) => {
            turns.turn(worker)?;
        }
        Event::Look { screen, locate } => {
            let words = turns.look(locate);
            seen.push(Seen {
                screen,
                locate,
                words,
            })?;
        }
    }
    Ok(())
}

// Lets events happen from the first turn on, and returns what they show.
fn watch<A: Allocator + Copy>(
    alloc: A,
    turns: Turns<'_, A>,
    events: &[Event],
) -> Result<Vec<Seen, A>, AllocError>
    requires some { 0 < workers_of turns }
    requires first { turns ≡ record { day = turns.day; done = replicate (workers_of turns) 0 } }
    ensures { IfOk result (λ seen.
        seen.items ≡ seen_by turns.entry.day (workers_of turns.entry) events.now) }
{
    let mut turns = turns;
    let mut seen = Vec::new(alloc);
    for event in events {
        happen(&mut turns, *event, &mut seen)?;
    }
    Ok(seen)
}

/// Runs a whole schedule of a day that is split for this many workers, from 1 to 64: what the looks see, in order.
///
/// A turn of a worker that has done all of its messages, or of a number that is no worker's, does nothing. A look shows
/// the stock's best bid and ask after the last of its messages that its worker has done by then, so that looks at a
/// stock never go back ([`looks_never_go_back`](crate::looks_never_go_back)).
/// [`SplitFault::Workers`] where the number of workers is another, which is looked at first, and else
/// [`SplitFault::Memory`] where memory is refused.
pub fn play<R: Threads + Sync, A: Allocator + Copy + Send + Sync>(
    rt: &R,
    alloc: A,
    day: &Day<A>,
    workers: u32,
    events: &[Event],
) -> Result<Vec<Seen, A>, SplitFault>
    ensures seen { IfOk result (λ seen. seen.items ≡ seen_by day.now.payloads workers events.now) }
    ensures workers { IsErrOf result SplitFault.Workers ↔ ((workers ≡ 0) ⊎ (64 < workers)) }
{
    let turns = Turns::new(rt, alloc, day, workers)?;
    Ok(watch(alloc, turns, events)?)
}
