//! One worker, turn by turn.
ghost use Rattle.std.specs.Prelude.{◌≡◌, [], All, IfOk};
ghost use Rattle.itch_table.specs.Shows.{locates_of_day};
ghost use Rattle.top_cell.specs.Boards.{IsOn};
ghost use Rattle.day_core.specs.Splitting.{ArePartsOf};
ghost use Rattle.stock_workers.specs.Running.{IsWaiting};
ghost use Rattle.stock_workers.specs.Working.{IsWorkerOf, places_of};

use crate::alone::{Waiting, only_worker, piece, prepare, words_of};
use crate::stocks::{Said, said_by, with_bid};
use binaryfile::Day;
use day_core::{Parts, Piece, split};
use itch_table::{Fault, Outcome};
use std::alloc::{Allocator, Global};
use std::sync::Wait;
use std::test::Fail;
use std::thread::Threads;
use stock_workers::{FreeGate, Worker};
use test_refusing::{Refusal, Refusing, Tried, refuse_any, refuse_each};
use test_support::{AAPL, MSFT, Ticker, day_with, same, same_list, system, two_stocks};
use top_cell::{Board, Reading, Screen};

// A worker of a number that is no worker's, without writers.
fn no_worker<'p, A: Allocator + Copy>(
    alloc: A,
    day: &Day<A>,
    parts: &'p Parts<A>,
    number: u32,
) -> Result<Worker<'p, A>, Fail>
    requires { ArePartsOf day.now.payloads parts.now }
    ensures worker { IfOk result (IsWorkerOf day.now.payloads) }
    ensures places { IfOk result (λ worker. places_of worker ≡ []) }
{
    if number < parts.workers() {
        return Err(Fail::new("a number of a worker"));
    }
    Ok(Worker::new(alloc, parts, number, Vec::new(alloc))?)
}

// Whether a worker has these stocks, each with its writer.
fn has_stocks<A: Allocator>(worker: &Worker<'_, A>, stocks: [(u16, bool); 3]) -> Result<(), Fail> {
    for (locate, has) in stocks {
        let found = (
            worker.stock(locate).is_some(),
            worker.writer(locate).is_some(),
        );
        same(
            "a stock and its writer",
            &(locate, found),
            &(locate, (has, has)),
        )?;
    }
    Ok(())
}

// A worker without stocks has no turn.
fn has_nothing<R: Threads + Wait + Sync, A: Allocator + Copy>(
    rt: &R,
    day: &Day<A>,
    board: &Board<A>,
    worker: &mut Worker<'_, A>,
) -> Result<(), Fail>
    requires worker { IsWorkerOf day.now.payloads worker.old }
    requires places { places_of worker.old ≡ [] }
{
    let returned = worker.turn(rt, day, board, &FreeGate)?;
    same("a turn", &returned, &None)?;
    has_stocks(worker, [(1, false), (2, false), (3, false)])
}

// A number of no worker's has nothing.
fn past_workers<R: Threads + Wait + Sync, A: Allocator + Copy>(
    rt: &R,
    alloc: A,
    day: &Day<A>,
    parts: &Parts<A>,
    board: &Board<A>,
    number: u32,
) -> Result<(), Fail>
    requires { ArePartsOf day.now.payloads parts.now }
{
    has_nothing(rt, day, board, &mut no_worker(alloc, day, parts, number)?)
}

// Numbers from 2 on have nothing of a day that is split for two workers, who have these messages.
fn past_two_workers<R: Threads + Wait + Sync, A: Allocator + Copy + Send + Sync>(
    rt: &R,
    alloc: A,
    day: &Day<A>,
    even: &[u32],
    odd: &[u32],
) -> Result<(), Fail> {
    let parts = split(rt, alloc, day, 2)?;
    same_list("the messages of worker 0", parts.own(0), even)?;
    same_list("the messages of worker 1", parts.own(1), odd)?;
    let (board, _writers) = Board::new(alloc, day)?;
    for number in [2, 3, 63, 64, u32::MAX] {
        past_workers(rt, alloc, day, &parts, &board, number)?;
    }
    Ok(())
}

#[test]
fn a_number_of_no_worker_has_no_turn(rt: HostRuntime) -> Result<(), Fail> {
    let alloc = rt.alloc();
    let without_stocks = day_with(alloc, &[system(0, b'O')])?;
    past_two_workers(&rt, alloc, &without_stocks, &[], &[])?;
    past_two_workers(&rt, alloc, &two_stocks(alloc)?, &[2, 4], &[1, 3, 5, 6, 7])
}

// Makes the only worker of the two stocks under a refusal. Where it is refused, the parts are as they were.
fn make_worker<R: Threads + Wait + Sync, A: Allocator + Copy + Send + Sync>(
    rt: &R,
    heap: &Refusing<Global>,
    alloc: A,
    day: &Day<A>,
    refusal: Refusal,
) -> Result<Tried, Fail> {
    let (parts, waiting) = prepare(rt, alloc, day)?;
    heap.restart(refusal);
    let made = only_worker(alloc, day, &parts, waiting).is_ok();
    let tried = heap.tried(!made);
    same_list("its messages", parts.own(0), &[1, 2, 3, 4, 5, 6, 7])?;
    Ok(tried)
}

// The same, and where it is refused, a worker is made with memory. A list that is refused more room than it needs may
// ask again for less: where one growth alone is refused, there is no worker exactly where no other growth is asked for
// after it.
fn try_worker<R: Threads + Wait + Sync, A: Allocator + Copy + Send + Sync>(
    rt: &R,
    heap: &Refusing<Global>,
    alloc: A,
    refusal: Refusal,
) -> Result<Tried, Fail> {
    let day = two_stocks(alloc)?;
    let tried = make_worker(rt, heap, alloc, &day, refusal)?;
    if let Refusal::Only(growth) = refusal {
        let last = tried.growths == growth;
        same("one alone", &(growth, tried.refused), &(growth, last))?;
    }
    if tried.refused {
        let again = make_worker(rt, heap, alloc, &day, Refusal::Never)?;
        same("with memory", &again.refused, &false)?;
    }
    Ok(tried)
}

#[test]
fn a_worker_without_memory_is_none(rt: HostRuntime) -> Result<(), Fail> {
    let heap = Refusing::new(rt.alloc(), Refusal::Never);
    let growths = refuse_each(|refusal: Refusal| -> Result<Tried, Fail> {
        try_worker(&rt, &heap, &heap, refusal)
    })?;
    same("some growths", &(growths >= 2 && growths <= 100), &true)
}

// What a worker has of a stock: what its machine says, and the message of its writer.
#[derive(Debug, Clone, Copy, PartialEq)]
struct State {
    stock: Said,
    message: u32,
}

fn state_of<A: Allocator + Copy>(alloc: A, worker: &Worker<'_, A>, locate: u16) -> Option<State> {
    let stock = said_by(alloc, worker.stock(locate)?)?;
    let message = worker.writer(locate)?.message();
    Some(State { stock, message })
}

// What a refused turn leaves as it was: the two stocks that have orders, and what a screen reads.
fn see<R: Wait, A: Allocator + Copy>(
    rt: &R,
    alloc: A,
    board: &Board<A>,
    worker: &Worker<'_, A>,
    screen: &mut Screen,
) -> (Option<State>, Option<State>, Reading)
    requires { IsOn board.now screen.old.place }
    ensures { screen.new.place ≡ screen.old.place }
{
    (
        state_of(alloc, worker, 1),
        state_of(alloc, worker, 2),
        screen.read(rt, board),
    )
}

// A stock after this many of its messages, of which this is the last, with these shares at its only bid.
fn stock_after(stock: Ticker, steps: u32, message: u32, price: u32, shares: u32) -> State {
    State {
        stock: with_bid(stock, steps, price, shares),
        message,
    }
}

// What a turn of the only worker of the two stocks returns, and the stocks that have orders after it. The screen reads
// the first of them.
type After = (Option<Piece>, State, State);

// All of its turns.
fn turns_of_two_stocks() -> [After; 8] {
    let unlisted = Outcome::Refused(Fault::NoDirectory);
    let unknown = Outcome::Refused(Fault::ReferenceUnknown);
    let start = stock_after(AAPL, 1, 1, 0, 0);
    let one = stock_after(AAPL, 2, 3, 100, 10);
    let deleted = stock_after(AAPL, 3, 5, 0, 0);
    let end = stock_after(AAPL, 4, 7, 0, 0);
    let listed = stock_after(MSFT, 1, 2, 0, 0);
    let two = stock_after(MSFT, 2, 4, 200, 20);
    [
        (
            piece(1, Outcome::Applied),
            start,
            stock_after(MSFT, 0, 0, 0, 0),
        ),
        (piece(2, Outcome::Applied), start, listed),
        (piece(3, Outcome::Applied), one, listed),
        (piece(4, Outcome::Applied), one, two),
        (piece(5, Outcome::Applied), deleted, two),
        (piece(6, unlisted), deleted, two),
        (piece(7, unknown), end, two),
        (None, end, two),
    ]
}

// Finds a worker's stocks and writers, and none of a stock of no message, without memory.
fn find_without_memory<A: Allocator + Copy + Send + Sync>(
    heap: &Refusing<Global>,
    worker: &Worker<'_, A>,
) -> Result<(), Fail> {
    heap.restart(Refusal::From(1));
    has_stocks(worker, [(1, true), (2, true), (9, false)])?;
    same("the growths", &heap.tried(false).growths, &0)
}

// Takes turns of a worker with memory.
fn lead<R: Threads + Wait + Sync, A: Allocator + Copy>(
    rt: &R,
    day: &Day<A>,
    board: &Board<A>,
    worker: &mut Worker<'_, A>,
    turns: &[After],
) -> Result<(), Fail>
    requires worker { IsWorkerOf day.now.payloads worker.old }
    requires board { All (IsOn board.now) (places_of worker.old) }
    ensures worker { IfOk result (λ _. IsWorkerOf day.now.payloads worker.new) }
    ensures same { IfOk result (λ _. places_of worker.new ≡ places_of worker.old) }
{
    for wanted in turns {
        let piece = worker.turn(rt, day, board, &FreeGate)?;
        same("an earlier turn", &piece, &wanted.0)?;
    }
    Ok(())
}

// Takes a turn under a refusal. Where it is refused, all is as it was, and it is taken with memory.
fn turn_under<R: Threads + Wait + Sync, A: Allocator + Copy + Send + Sync>(
    rt: &R,
    heap: &Refusing<Global>,
    alloc: A,
    day: &Day<A>,
    board: &Board<A>,
    worker: &mut Worker<'_, A>,
    screen: &mut Screen,
    wanted: &After,
    refusal: Refusal,
) -> Result<Tried, Fail>
    requires worker { IsWorkerOf day.now.payloads worker.old }
    requires board { All (IsOn board.now) (places_of worker.old) }
    requires screen { IsOn board.now screen.old.place }
{
    let before = see(rt, alloc, board, worker, screen);
    heap.restart(refusal);
    let mut returned = worker.turn(rt, day, board, &FreeGate);
    let tried = heap.tried(returned.is_err());
    if tried.refused {
        let after = see(rt, alloc, board, worker, screen);
        same("a refused turn", &after, &before)?;
        returned = worker.turn(rt, day, board, &FreeGate);
    }
    let (first, second, reading) = see(rt, alloc, board, worker, screen);
    let (piece, one, two) = *wanted;
    same("a turn", &returned, &Ok(piece))?;
    same(
        "the stocks and the screen",
        &(first, second, words_of(reading)),
        &(Some(one), Some(two), one.stock.top.to_words(one.message)),
    )?;
    Ok(tried)
}

// Takes the last of these turns under a refusal, after the earlier ones.
fn last_under<R: Threads + Wait + Sync, A: Allocator + Copy + Send + Sync>(
    rt: &R,
    heap: &Refusing<Global>,
    alloc: A,
    day: &Day<A>,
    board: &Board<A>,
    worker: &mut Worker<'_, A>,
    screen: &mut Screen,
    turns: &[After],
    refusal: Refusal,
) -> Result<Tried, Fail>
    requires worker { IsWorkerOf day.now.payloads worker.old }
    requires board { All (IsOn board.now) (places_of worker.old) }
    requires screen { IsOn board.now screen.old.place }
{
    let Some((wanted, earlier)) = turns.split_last() else {
        return Err(Fail::new("no turn"));
    };
    lead(rt, day, board, worker, earlier)?;
    find_without_memory(heap, worker)?;
    turn_under(rt, heap, alloc, day, board, worker, screen, wanted, refusal)
}

// Takes the last of these turns of a new worker under a refusal.
fn last_of<R: Threads + Wait + Sync, A: Allocator + Copy + Send + Sync>(
    rt: &R,
    heap: &Refusing<Global>,
    alloc: A,
    day: &Day<A>,
    parts: &Parts<A>,
    waiting: Waiting<A>,
    turns: &[After],
    refusal: Refusal,
) -> Result<Tried, Fail>
    requires parts { ArePartsOf day.now.payloads parts.now }
    requires one { parts.now.workers ≡ 1 }
    requires waits { IsWaiting day.now.payloads (locates_of_day day.now.payloads) waiting.board
        waiting.writers.items }
    requires screen { IsOn waiting.board waiting.screen.place }
{
    match only_worker(alloc, day, parts, waiting) {
        Ok((mut worker, board, mut screen)) => last_under(
            rt,
            heap,
            alloc,
            day,
            &board,
            &mut worker,
            &mut screen,
            turns,
            refusal,
        ),
        Err(error) => Err(Fail::from(error)),
    }
}

// Takes the last of these turns of the only worker of two stocks under a refusal.
fn try_turn<R: Threads + Wait + Sync, A: Allocator + Copy + Send + Sync>(
    rt: &R,
    heap: &Refusing<Global>,
    alloc: A,
    turns: &[After],
    refusal: Refusal,
) -> Result<Tried, Fail> {
    let day = two_stocks(alloc)?;
    let (parts, waiting) = prepare(rt, alloc, &day)?;
    last_of(rt, heap, alloc, &day, &parts, waiting, turns, refusal)
}

#[test]
fn a_turn_without_memory_is_tried_again(rt: HostRuntime) -> Result<(), Fail> {
    let heap = Refusing::new(rt.alloc(), Refusal::Never);
    let turns = turns_of_two_stocks();
    let mut growths = 0u64;
    for last in 1..=turns.len() {
        let some = turns.get(..last).unwrap_or(&[]);
        let more = refuse_any(|refusal: Refusal| -> Result<Tried, Fail> {
            try_turn(&rt, &heap, &heap, some, refusal)
        })?;
        growths = growths.saturating_add(more);
    }
    same("some growths", &(growths > 1), &true)
}
