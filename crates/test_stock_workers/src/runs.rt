//! Whole runs, by several numbers of workers.
ghost use Rattle.std.specs.Prelude.{All};
ghost use Rattle.top_cell.specs.Boards.{IsOn};

use crate::screens::first_screen;
use crate::stocks::{after_two_stocks, said_by};
use binaryfile::Day;
use itch_table::{Fault, Outcome};
use std::alloc::{Allocator, Global};
use std::sync::Wait;
use std::test::Fail;
use std::thread::Threads;
use stock_machine::Stock;
use stock_workers::{FreeGate, Replayed, RunFault, run};
use test_refusing::{Refusal, Refusing};
use test_support::{
    ASKED, OF_TWO_STOCKS, crossed_book, day_with, same, same_list, spent_references, spent_up_to,
    system, two_stocks,
};
use top_cell::{Board, Reading, Screen, TopWriter};

/// A day, replayed on a new board.
pub fn replayed<R: Threads + Wait + Sync>(
    rt: &R,
    alloc: Global,
    day: &Day<Global>,
    workers: u32,
) -> Result<Replayed<Global>, Fail> {
    let (board, writers) = Board::new(alloc, day)?;
    run(rt, alloc, day, &board, writers, workers, &FreeGate).map_err(|_| Fail::new(
        "the day isn't replayed",
    ))
}

/// Compares all that the day of two stocks makes.
pub fn same_two_stocks<A: Allocator + Copy>(alloc: A, replayed: &Replayed<A>) -> Result<(), Fail> {
    same_list("the outcomes", &replayed.outcomes, &OF_TWO_STOCKS)?;
    let counts = (replayed.stocks.len(), replayed.writers.len());
    same(
        "stocks, writers and the event",
        &(counts, replayed.event),
        &((3, 3), None),
    )?;
    for (stock, wanted) in replayed.stocks.iter().zip(after_two_stocks()) {
        same("a stock", &said_by(alloc, stock), &Some(wanted))?;
    }
    for (writer, wanted) in replayed.writers.iter().zip([(1, 7), (2, 4), (3, 6)]) {
        same("a writer", &(writer.locate(), writer.message()), &wanted)?;
    }
    Ok(())
}

#[test]
fn two_stocks_are_the_same_for_each_number_of_workers(rt: HostRuntime) -> Result<(), Fail> {
    let alloc = rt.alloc();
    let day = two_stocks(alloc)?;
    for workers in [1, 2, 3, 64] {
        same_two_stocks(alloc, &replayed(&rt, alloc, &day, workers)?)?;
    }
    Ok(())
}

// Compares the stock and the writer of a crossed book.
fn same_crossed<A: Allocator + Copy>(replayed: &Replayed<A>) -> Result<(), Fail> {
    let counts = (replayed.stocks.len(), replayed.writers.len());
    same("how many stocks and writers", &counts, &(1, 1))?;
    for writer in &replayed.writers {
        same("the writer", &writer.message(), &3)?;
    }
    for stock in &replayed.stocks {
        let top = stock.top();
        let prices = (top.bid_price, top.ask_price);
        same("the stock", &prices, &(1_010_000, 1_000_000))?;
    }
    Ok(())
}

#[test]
fn a_crossed_book_ends_at_its_last_message(rt: HostRuntime) -> Result<(), Fail> {
    let alloc = rt.alloc();
    let day = crossed_book(alloc)?;
    for workers in [1, 2, 3, 64] {
        same_crossed(&replayed(&rt, alloc, &day, workers)?)?;
    }
    Ok(())
}

// Compares what two screens of a board read: one from before a run, and one that a writer makes after it.
fn same_readings<R: Wait, A: Allocator>(
    rt: &R,
    board: &Board<A>,
    early: &mut Screen,
    writers: &mut Vec<TopWriter, A>,
) -> Result<(), Fail>
    requires early { IsOn board.now early.old.place }
    requires writers { All (λ w. IsOn board.now w.place) writers.old.items }
{
    let mut late = first_screen(board, writers)?;
    let crossed = Reading {
        message: 3,
        bid_price: 1_010_000,
        bid_shares: 100,
        ask_price: 1_000_000,
        ask_shares: 50,
    };
    same("a screen that hasn't looked yet", &early.message(), &0)?;
    same("a glance", &early.glance(board, 1), &Ok(crossed))?;
    let found = (early.read(rt, board), late.read(rt, board));
    same(
        "a screen from before the run, and one from after it",
        &found,
        &(crossed, crossed),
    )
}

#[test]
fn screens_read_the_last_message_after_a_run(rt: HostRuntime) -> Result<(), Fail> {
    let alloc = rt.alloc();
    let day = crossed_book(alloc)?;
    let (board, mut writers) = Board::new(alloc, &day)?;
    let mut early = first_screen(&board, &mut writers)?;
    match run(&rt, alloc, &day, &board, writers, 2, &FreeGate) {
        Ok(mut replayed) => same_readings(&rt, &board, &mut early, &mut replayed.writers),
        Err(fault) => Err(Fail::from(fault)),
    }
}

// What becomes of the messages of a day on which references are asked for again.
const OF_SPENT: [Outcome; 15] = [
    Outcome::Applied,
    Outcome::Applied,
    Outcome::Refused(Fault::ReferenceInUse),
    Outcome::Applied,
    Outcome::Refused(Fault::ReferenceSpent),
    Outcome::Refused(Fault::ReferenceInUse),
    Outcome::Refused(Fault::ReferenceSpent),
    Outcome::Refused(Fault::ZeroShares),
    Outcome::Refused(Fault::ZeroShares),
    Outcome::Applied,
    Outcome::Refused(Fault::ReferenceSpent),
    Outcome::Applied,
    Outcome::Applied,
    Outcome::Applied,
    Outcome::Applied,
];

// The spent references of a machine.
fn spent_of<A: Allocator + Copy>(stock: &Stock<A>) -> [bool; 8] {
    ASKED.map(|reference| stock.spent(reference))
}

// Compares what becomes of these messages, and which references are spent at the end of the day.
fn same_spent<A: Allocator + Copy>(replayed: &Replayed<A>) -> Result<(), Fail> {
    same_list("the outcomes", &replayed.outcomes, &OF_SPENT)?;
    same("how many stocks", &replayed.stocks.len(), &2)?;
    for (stock, last) in replayed.stocks.iter().zip([4, 1]) {
        same("the spent references", &spent_of(stock), &spent_up_to(last))?;
    }
    Ok(())
}

#[test]
fn spent_references_are_the_same_for_each_number_of_workers(rt: HostRuntime) -> Result<(), Fail> {
    let alloc = rt.alloc();
    let mut messages = Vec::new(alloc);
    for line in &spent_references() {
        messages.push(line.msg)?;
    }
    let day = day_with(alloc, &messages)?;
    for workers in [1, 2, 3, 64] {
        same_spent(&replayed(&rt, alloc, &day, workers)?)?;
    }
    Ok(())
}

// The last event, and how many stocks there are.
fn event_of<A: Allocator>(replayed: &Replayed<A>) -> (Option<u8>, usize) {
    (replayed.event, replayed.stocks.len())
}

#[test]
fn a_run_returns_the_last_event(rt: HostRuntime) -> Result<(), Fail> {
    let alloc = rt.alloc();
    let day = day_with(alloc, &[system(0, b'O'), system(0, b'S')])?;
    let found = event_of(&replayed(&rt, alloc, &day, 2)?);
    same("the event, and how many stocks", &found, &(Some(b'S'), 0))
}

// The fault of a run by this many workers that is refused all memory, and how many growths it has asked for.
fn fault_of<R: Threads + Wait + Sync, A: Allocator + Copy + Send + Sync>(
    rt: &R,
    heap: &Refusing<Global>,
    alloc: A,
    day: &Day<A>,
    workers: u32,
) -> Result<(Option<RunFault>, u64), Fail> {
    heap.restart(Refusal::Never);
    let (board, writers) = Board::new(alloc, day)?;
    heap.restart(Refusal::From(1));
    let fault = run(rt, alloc, day, &board, writers, workers, &FreeGate).err();
    Ok((fault, heap.asked()))
}

// The number is looked at before any growth.
#[test]
fn a_number_of_workers_is_from_1_to_64(rt: HostRuntime) -> Result<(), Fail> {
    let heap = Refusing::new(rt.alloc(), Refusal::Never);
    let day = two_stocks(&heap)?;
    for workers in [0, 65] {
        let found = fault_of(&rt, &heap, &heap, &day, workers)?;
        same("fault and growths", &found, &(Some(RunFault::Workers), 0))?;
    }
    Ok(())
}
