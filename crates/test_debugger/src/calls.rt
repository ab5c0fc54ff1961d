//! Calls of a debugger in a table, each with its result.
ghost use Rattle.std.specs.Prelude.{◌<◌};

use binaryfile::Day;
use debugger::{Break, DebugFault, Debugger, Stop};
use itch_table::{Outcome, Top, Totals};
use std::alloc::Allocator;
use std::test::Fail;
use stock_machine::Stock;
use test_support::same;

/// A call of a debugger.
#[derive(Debug, Clone, Copy, PartialEq, Eq)]
pub enum Call {
    Goto(u32),
    Step,
    Back,
    Onward,
    Rearward,
    AddBreak(Break),
    RemoveBreak(usize),
    Stock(u16),
    Event,
}

/// What a call returns.
#[derive(Debug, Clone, Copy, PartialEq, Eq)]
pub enum Returned {
    /// A move by a number, with the position and the outcome there.
    Moved(u32, Option<Outcome>),
    /// A search.
    Stopped(Stop),
    /// The index of the breakpoint that was added.
    Added(usize),
    /// The breakpoint that was removed.
    Removed(Option<Break>),
    /// A stock's best bid and ask, its totals, its trading state, and whether reference 1 is spent.
    Shown(Top, Totals, Option<u8>, bool),
    /// The last event.
    Event(Option<u8>),
}

// The result of a move by a number.
fn moved<A: Allocator>(debugger: &Debugger<'_, A>) -> Returned {
    Returned::Moved(debugger.position(), debugger.outcome())
}

// What is shown of a stock.
fn shown<A: Allocator + Copy>(stock: &Stock<A>) -> Returned {
    let state = stock.status().trading.map(|trading| trading.state);
    Returned::Shown(stock.top(), stock.totals(), state, stock.spent(1))
}

// What is shown of a stock of this locate code.
fn shown_of<A: Allocator + Copy>(
    alloc: A,
    debugger: &mut Debugger<'_, A>,
    locate: u16,
) -> Result<Returned, DebugFault> {
    Ok(shown(&debugger.stock(alloc, locate)?))
}

impl Call {
    /// Makes the call.
    pub fn make<A: Allocator + Copy>(
        &self,
        alloc: A,
        debugger: &mut Debugger<'_, A>,
    ) -> Result<Returned, DebugFault> {
        match *self {
            Call::Goto(n) => debugger.goto(alloc, n)?,
            Call::Step => debugger.step(alloc)?,
            Call::Back => debugger.back(alloc)?,
            Call::Onward => return Ok(Returned::Stopped(debugger.onward(alloc)?)),
            Call::Rearward => return Ok(Returned::Stopped(debugger.rearward(alloc)?)),
            Call::AddBreak(added) => return Ok(Returned::Added(debugger.add_break(alloc, added)?)),
            Call::RemoveBreak(index) => return Ok(Returned::Removed(debugger.remove_break(index))),
            Call::Stock(locate) => return shown_of(alloc, debugger, locate),
            Call::Event => return Ok(Returned::Event(debugger.event())),
        }
        Ok(moved(debugger))
    }
}

/// A call, and what it returns.
pub type Line = (Call, Result<Returned, DebugFault>);

/// Makes calls one after another, and compares their results.
pub fn follow<A: Allocator + Copy>(
    alloc: A,
    debugger: &mut Debugger<'_, A>,
    script: &[Line],
) -> Result<(), Fail> {
    for (call, wanted) in script {
        let found = call.make(alloc, debugger);
        same("a call", &(*call, found), &(*call, *wanted))?;
    }
    Ok(())
}

/// Makes calls of a new debugger of a day, which keeps a copy of a stock after this many of its messages.
pub fn follow_new<A: Allocator + Copy>(
    alloc: A,
    day: &Day<A>,
    every: u32,
    script: &[Line],
) -> Result<(), Fail>
    requires { 0 < every }
{
    follow(alloc, &mut Debugger::new(alloc, day, every)?, script)
}
