//! What no contract says of tracks: how much is stepped, and which are kept. Both are counted by growths.
ghost use Rattle.std.specs.Prelude.{◌≡◌};

use binaryfile::Day;
use checkpoints::Track;
use debugger::Debugger;
use itch_table::{Part, part};
use std::alloc::{Allocator, Global};
use std::test::Fail;
use stock_machine::Stock;
use test_refusing::{Refusal, Refusing};
use test_support::{AAPL, Ticker, add_entry, day_of, same, system};

// How many messages of the stock lie from one copy of its machine to the next.
const EVERY: u32 = 8;

// How many trades are made of the stock's order.
const EXECUTIONS: u64 = 62;

// A day of one stock: its directory message, an order, and executions of one share each.
fn executed_day<A: Allocator + Copy>(alloc: A) -> Result<Day<A>, Fail> {
    let mut file = Vec::new(alloc);
    add_entry(alloc, &mut file, &AAPL.directory())?;
    add_entry(alloc, &mut file, &AAPL.add(1, b'B', 1_000, 100))?;
    for match_no in 1..=EXECUTIONS {
        add_entry(alloc, &mut file, &AAPL.execute(1, 1, match_no))?;
    }
    day_of(alloc, file)
}

// Steps the machine of a day's only stock up to a place.
fn step_to<A: Allocator + Copy>(stock: &mut Stock<A>, day: &Day<A>, n: u32) -> Result<(), Fail> {
    let taken = stock.steps() as usize;
    for payload in day.payloads().take(n as usize).skip(taken) {
        if part(payload) != Part::Locate(stock.locate()) || stock.steps() == u32::MAX {
            return Err(Fail::new("the payload isn't the stock's next one"));
        }
        stock.step(payload)?;
    }
    Ok(())
}

// How many growths a copy of the machine at a place asks for, and its steps from there to another.
fn copy_growths<A: Allocator + Copy>(
    heap: &Refusing<Global>,
    alloc: A,
    day: &Day<A>,
    stock: &mut Stock<A>,
    place: u32,
    n: u32,
) -> Result<u64, Fail> {
    step_to(stock, day, place)?;
    heap.restart(Refusal::Never);
    step_to(&mut stock.copy(alloc)?, day, n)?;
    Ok(heap.asked())
}

// How many growths a track asks for at a place, where the stock has taken all messages up to it.
fn track_growths<A: Allocator + Copy>(
    heap: &Refusing<Global>,
    alloc: A,
    day: &Day<A>,
    track: &Track<'_, A>,
    n: u32,
) -> Result<u64, Fail>
    requires { track.now.day ≡ day.now.payloads }
{
    if n > day.len() {
        return Err(Fail::new("no such place"));
    }
    heap.restart(Refusal::Never);
    let steps = track.at(alloc, n)?.steps();
    same("the stock's steps", &steps, &n)?;
    Ok(heap.asked())
}

// Compares how many growths a track asks for at each place with those of a copy of the machine at the last place of a copy,
// and of its steps from there.
fn same_growths<A: Allocator + Copy>(
    heap: &Refusing<Global>,
    alloc: A,
    day: &Day<A>,
    track: &Track<'_, A>,
) -> Result<(), Fail>
    requires { track.now.day ≡ day.now.payloads }
{
    for n in 0..=day.len() {
        let found = track_growths(heap, alloc, day, track, n)?;
        let wanted = copy_growths(
            heap,
            alloc,
            day,
            &mut Stock::new(alloc, 1),
            n - n % EVERY,
            n,
        )?;
        same("a place, and the growths", &(n, found), &(n, wanted))?;
    }
    Ok(())
}

// Compares the growths of a new track.
fn same_growths_anew<A: Allocator + Copy>(
    heap: &Refusing<Global>,
    alloc: A,
    day: &Day<A>,
) -> Result<(), Fail> {
    same_growths(heap, alloc, day, &Track::make(alloc, day, 1, EVERY)?)
}

// A copy has no room to spare, and each step adds a trade. So a track that began at an earlier copy than the last one
// would ask for more growths, at the places of copies at least.
#[test]
fn a_track_steps_from_the_last_copy(rt: HostRuntime) -> Result<(), Fail> {
    let heap = Refusing::new(rt.alloc(), Refusal::Never);
    same_growths_anew(&heap, &heap, &executed_day(&heap)?)
}

// How many tracks are kept of the stocks that were asked for last.
const KEPT: u16 = 64;

// A day of one stock more than that: of each the directory message and an order. Its last message is of no stock.
fn wide_day<A: Allocator + Copy>(alloc: A) -> Result<Day<A>, Fail> {
    let mut file = Vec::new(alloc);
    for locate in 1..=KEPT + 1 {
        let ticker = Ticker { locate, ..AAPL };
        add_entry(alloc, &mut file, &ticker.directory())?;
        add_entry(alloc, &mut file, &ticker.add(1, b'B', 10, 100))?;
    }
    add_entry(alloc, &mut file, &system(0, b'O'))?;
    day_of(alloc, file)
}

// A stock's locate code, and how many messages it has taken.
fn seen_of<A: Allocator + Copy>(stock: &Stock<A>) -> (u16, u32) {
    (stock.locate(), stock.steps())
}

// How many growths a debugger asks for to show a stock.
fn growths_of<A: Allocator + Copy>(
    heap: &Refusing<Global>,
    alloc: A,
    debugger: &mut Debugger<'_, A>,
    locate: u16,
) -> Result<u64, Fail> {
    heap.restart(Refusal::Never);
    let found = seen_of(&debugger.stock(alloc, locate)?);
    same("a stock", &found, &(locate, 2))?;
    Ok(heap.asked())
}

// Asks for stocks from one locate code to another, and compares of each whether its track was made anew: that asks for
// more growths than by a track that was kept.
fn ask_each<A: Allocator + Copy>(
    heap: &Refusing<Global>,
    alloc: A,
    debugger: &mut Debugger<'_, A>,
    locates: (u16, u16),
    least: u64,
    made: bool,
) -> Result<(), Fail> {
    for locate in locates.0..=locates.1 {
        let growths = growths_of(heap, alloc, debugger, locate)?;
        same(
            "whether a track is made",
            &(locate, growths > least),
            &(locate, made),
        )?;
    }
    Ok(())
}

// Where a stock more is asked for than tracks are kept, the one that wasn't asked for the longest has none any more, and
// all others have theirs.
fn ask_all<A: Allocator + Copy>(
    heap: &Refusing<Global>,
    alloc: A,
    debugger: &mut Debugger<'_, A>,
) -> Result<(), Fail> {
    debugger.goto(alloc, debugger.last())?;
    let made = growths_of(heap, alloc, debugger, 1)?;
    let least = growths_of(heap, alloc, debugger, 1)?;
    same("fewer growths by a kept track", &(least < made), &true)?;
    for (first, last, made) in [
        (2, KEPT, true),
        (1, 1, false),
        (KEPT + 1, KEPT + 1, true),
        (3, KEPT + 1, false),
        (1, 1, false),
        (2, 2, true),
    ] {
        ask_each(heap, alloc, debugger, (first, last), least, made)?;
    }
    Ok(())
}

// Asks a new debugger.
fn ask_new<A: Allocator + Copy>(
    heap: &Refusing<Global>,
    alloc: A,
    day: &Day<A>,
) -> Result<(), Fail> {
    ask_all(heap, alloc, &mut Debugger::new(alloc, day, 1_000)?)
}

#[test]
fn the_oldest_track_is_dropped(rt: HostRuntime) -> Result<(), Fail> {
    let heap = Refusing::new(rt.alloc(), Refusal::Never);
    ask_new(&heap, &heap, &wide_day(&heap)?)
}
