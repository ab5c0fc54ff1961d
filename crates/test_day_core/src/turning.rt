//! Turns of a day's workers, one by one and all of them.
use crate::days::two_stocks;
use crate::showing::{Shown, bid, shown_by, stock_with};
use binaryfile::Day;
use day_core::{Piece, Turns, merge};
use itch_table::{Fault, Outcome};
use std::alloc::{Allocator, Global};
use std::test::Fail;
use std::thread::Threads;
use test_refusing::{Refusal, Refusing, Tried, refuse_any};
use test_support::{AAPL, MSFT, OF_TWO_STOCKS, same, same_list};

// What a worker has done once it has no message left.
fn pieces_of<A: Allocator + Copy>(
    alloc: A,
    day: &Day<A>,
    turns: &mut Turns<'_, A>,
    worker: u32,
) -> Result<Vec<Piece, A>, Fail> {
    let mut pieces = Vec::new(alloc);
    for _ in 0..day.len() {
        if let Some(piece) = turns.turn(worker)? {
            pieces.push(piece)?;
        }
    }
    same("no message left", &turns.turn(worker)?, &None)?;
    Ok(pieces)
}

// The same of each of this many workers, the last one first.
fn pieces_of_all<A: Allocator + Copy>(
    alloc: A,
    day: &Day<A>,
    turns: &mut Turns<'_, A>,
    workers: u32,
) -> Result<Vec<Vec<Piece, A>, A>, Fail> {
    let mut lists = Vec::new(alloc);
    for worker in (0..workers).rev() {
        lists.push(pieces_of(alloc, day, turns, worker)?)?;
    }
    Ok(lists)
}

// The turns of this many workers make the outcomes and the last words of the two stocks.
fn make_by<A: Allocator + Copy>(
    alloc: A,
    day: &Day<A>,
    turns: &mut Turns<'_, A>,
    workers: u32,
) -> Result<(), Fail> {
    let lists = pieces_of_all(alloc, day, turns, workers)?;
    let last = [turns.look(1), turns.look(2), turns.look(3)];
    let wanted = [[7, 0, 0, 0], [4, 200 << 32, 20, 0], [6, 0, 0, 0]];
    same("the words", &(workers, last), &(workers, wanted))?;
    same_list(
        "the outcomes",
        &merge(alloc, day.len(), lists)?,
        &OF_TWO_STOCKS,
    )
}

// New workers, this many, make them.
fn make_day<R: Threads + Sync, A: Allocator + Copy + Send + Sync>(
    rt: &R,
    alloc: A,
    day: &Day<A>,
    workers: u32,
) -> Result<(), Fail> {
    make_by(
        alloc,
        day,
        &mut Turns::new(rt, alloc, day, workers)?,
        workers,
    )
}

#[test]
fn any_number_of_workers_makes_the_same_day(rt: HostRuntime) -> Result<(), Fail> {
    let day = two_stocks(rt.alloc())?;
    for workers in [1, 2, 3, 64] {
        make_day(&rt, rt.alloc(), &day, workers)?;
    }
    Ok(())
}

// What the machines of stocks 1 to 3 say.
type Stocks = (Option<Shown>, Option<Shown>, Option<Shown>);

// What the machine of a stock says.
fn shown_at<A: Allocator + Copy>(
    alloc: A,
    turns: &Turns<'_, A>,
    locate: u16,
) -> Result<Option<Shown>, Fail> {
    match turns.stock(locate) {
        Some(stock) => Ok(Some(shown_by(alloc, stock)?)),
        None => Ok(None),
    }
}

fn stocks_of<A: Allocator + Copy>(alloc: A, turns: &Turns<'_, A>) -> Result<Stocks, Fail> {
    Ok((
        shown_at(alloc, turns, 1)?,
        shown_at(alloc, turns, 2)?,
        shown_at(alloc, turns, 3)?,
    ))
}

// What a turn of the only worker of the two stocks returns, and what the stocks say then.
type After = (Option<Piece>, Stocks);

fn done(message: u32, outcome: Outcome) -> Option<Piece> {
    Some(Piece { message, outcome })
}

// The three machines.
fn said(one: Shown, two: Shown, three: Shown) -> Stocks {
    (Some(one), Some(two), Some(three))
}

// All of its turns.
fn turns_of_two_stocks() -> [After; 8] {
    let (one, two) = (Some(AAPL.directory_row()), Some(MSFT.directory_row()));
    let (ten, twenty) = (Some(bid(7, 10, 100)), Some(bid(7, 20, 200)));
    let unlisted = Outcome::Refused(Fault::NoDirectory);
    let unknown = Outcome::Refused(Fault::ReferenceUnknown);
    let applied = Outcome::Applied;
    let first = stock_with(1, 1, one, None, None);
    let bought = stock_with(1, 2, one, ten, None);
    let deleted = stock_with(1, 3, one, None, None);
    let last = stock_with(1, 4, one, None, None);
    let new = stock_with(2, 0, None, None, None);
    let second = stock_with(2, 1, two, None, None);
    let kept = stock_with(2, 2, two, twenty, None);
    let third = stock_with(3, 0, None, None, None);
    let refused = stock_with(3, 1, None, None, None);
    [
        (done(1, applied), said(first, new, third)),
        (done(2, applied), said(first, second, third)),
        (done(3, applied), said(bought, second, third)),
        (done(4, applied), said(bought, kept, third)),
        (done(5, applied), said(deleted, kept, third)),
        (done(6, unlisted), said(deleted, kept, refused)),
        (done(7, unknown), said(last, kept, refused)),
        (None, said(last, kept, refused)),
    ]
}

// Takes the last of these turns of the only worker of the two stocks under a refusal. Where it is refused, the stocks say
// what they said before, and it is taken with memory.
fn turn_under<A: Allocator + Copy + Send + Sync>(
    heap: &Refusing<Global>,
    alloc: A,
    turns: &mut Turns<'_, A>,
    last: &After,
    refusal: Refusal,
) -> Result<Tried, Fail> {
    let (piece, stocks) = last;
    let before = stocks_of(alloc, turns)?;
    heap.restart(refusal);
    let mut returned = turns.turn(0);
    let tried = heap.tried(returned.is_err());
    if tried.refused {
        same("a refused turn", &stocks_of(alloc, turns)?, &before)?;
        returned = turns.turn(0);
    }
    same("a turn", &returned, &Ok(*piece))?;
    same("after a turn", &stocks_of(alloc, turns)?, stocks)?;
    Ok(tried)
}

// The turns before it.
fn take_earlier<A: Allocator + Copy>(
    turns: &mut Turns<'_, A>,
    earlier: &[After],
) -> Result<(), Fail> {
    for (wanted, _) in earlier {
        same("an earlier turn", &turns.turn(0)?, wanted)?;
    }
    Ok(())
}

fn try_turn<R: Threads + Sync, A: Allocator + Copy + Send + Sync>(
    rt: &R,
    heap: &Refusing<Global>,
    alloc: A,
    all: &[After],
    refusal: Refusal,
) -> Result<Tried, Fail> {
    let Some((last, earlier)) = all.split_last() else {
        return Err(Fail::new("no turn"));
    };
    let day = two_stocks(alloc)?;
    let mut turns = Turns::new(rt, alloc, &day, 1)?;
    take_earlier(&mut turns, earlier)?;
    turn_under(heap, alloc, &mut turns, last, refusal)
}

// Only the two orders need memory.
#[test]
fn a_turn_without_memory_is_tried_again(rt: HostRuntime) -> Result<(), Fail> {
    let heap = Refusing::new(rt.alloc(), Refusal::Never);
    let turns = turns_of_two_stocks();
    for (last, needs) in [
        (1usize, false),
        (2, false),
        (3, true),
        (4, true),
        (5, false),
        (6, false),
        (7, false),
        (8, false),
    ] {
        let some = turns.get(..last).unwrap_or(&[]);
        let growths = refuse_any(|refusal: Refusal| -> Result<Tried, Fail> {
            try_turn(&rt, &heap, &heap, some, refusal)
        })?;
        same("growths", &(last, growths > 0), &(last, needs))?;
    }
    Ok(())
}

// A turn of one of two workers: what it does, and the words of stocks 1 and 2 then.
type Step = (u32, Option<Piece>, [u64; 4], [u64; 4]);

// Turns of both workers in an order of their own. There is no worker 2, and worker 0 has two messages.
fn steps_in_any_order() -> [Step; 9] {
    let (applied, none) = (Outcome::Applied, [0; 4]);
    let (bought, also) = ([3, 100 << 32, 10, 0], [4, 200 << 32, 20, 0]);
    let unlisted = Outcome::Refused(Fault::NoDirectory);
    let unknown = Outcome::Refused(Fault::ReferenceUnknown);
    [
        (2, None, none, none),
        (1, done(1, applied), [1, 0, 0, 0], none),
        (1, done(3, applied), bought, none),
        (0, done(2, applied), bought, [2, 0, 0, 0]),
        (0, done(4, applied), bought, also),
        (0, None, bought, also),
        (1, done(5, applied), [5, 0, 0, 0], also),
        (1, done(6, unlisted), [5, 0, 0, 0], also),
        (1, done(7, unknown), [7, 0, 0, 0], also),
    ]
}

// Takes these turns, and looks at both stocks after each.
fn follow<A: Allocator + Copy>(turns: &mut Turns<'_, A>, steps: &[Step]) -> Result<(), Fail> {
    for (worker, piece, one, two) in steps {
        same("a turn", &turns.turn(*worker)?, piece)?;
        same("the words", &(turns.look(1), turns.look(2)), &(*one, *two))?;
    }
    Ok(())
}

// Looks at stocks after the last turn, which takes no memory.
fn look_without_memory(
    heap: &Refusing<Global>,
    turns: &Turns<'_, &Refusing<Global>>,
) -> Result<(), Fail> {
    heap.restart(Refusal::From(1));
    same("the words of stock 3", &turns.look(3), &[6, 0, 0, 0])?;
    same("the words of no stock", &turns.look(9), &[0; 4])?;
    let steps = turns.stock(2).map(|stock| stock.steps());
    same("the steps of stock 2", &steps, &Some(2))?;
    let none = turns.stock(9).is_none();
    same(
        "no stock, and the growths",
        &(none, heap.asked()),
        &(true, 0),
    )
}

#[test]
fn turns_of_a_day_come_in_any_order(rt: HostRuntime) -> Result<(), Fail> {
    let heap = Refusing::new(rt.alloc(), Refusal::Never);
    let day = two_stocks(&heap)?;
    let mut turns = Turns::new(&rt, &heap, &day, 2)?;
    follow(&mut turns, &steps_in_any_order())?;
    look_without_memory(&heap, &turns)
}
