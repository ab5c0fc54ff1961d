//! Schedules of a day: what the looks of screens see between the turns of its workers.
use crate::days::{crossed_book, two_stocks};
use crate::showing::{Shown, bid, shown_by, stock_with};
use binaryfile::Day;
use day_core::{Event, Piece, Seen, SplitFault, Turns, play};
use itch_table::{Order, Outcome, Side};
use std::alloc::{Allocator, Global};
use std::test::Fail;
use std::thread::Threads;
use test_refusing::{Refusal, Refusing, Tried, refuse_any, refuse_each};
use test_support::{AAPL, same, same_bytes, same_list};

// A look of a screen at a stock.
fn look(screen: u32, locate: u16) -> Event {
    Event::Look { screen, locate }
}

// What a look sees.
fn seen(screen: u32, locate: u16, words: [u64; 4]) -> Seen {
    Seen {
        screen,
        locate,
        words,
    }
}

// Runs a schedule, whose looks see this.
fn try_schedule<R: Threads + Sync, A: Allocator + Copy + Send + Sync>(
    rt: &R,
    alloc: A,
    day: &Day<A>,
    workers: u32,
    events: &[Event],
    wanted: &[Seen],
) -> Result<(), Fail> {
    let list = play(rt, alloc, day, workers, events)?;
    same_list("what is seen", &list, wanted)
}

// The price of the bid stands in the high half of the second word: 0x0f6950 is 1,010,000, and 0x0f4240 is 1,000,000.
#[test]
fn a_look_shows_the_last_message_done(rt: HostRuntime) -> Result<(), Fail> {
    let events = [
        look(0, 1),
        Event::Turn(0),
        Event::Turn(0),
        look(1, 1),
        Event::Turn(0),
        look(0, 1),
        Event::Turn(0),
        Event::Turn(5),
        look(0, 9),
    ];
    let wanted = [
        seen(0, 1, [0, 0, 0, 0]),
        seen(1, 1, [2, 0x000f_6950_0000_0000, 100, 0]),
        seen(0, 1, [3, 0x000f_6950_000f_4240, 100, 50]),
        seen(0, 9, [0, 0, 0, 0]),
    ];
    try_schedule(
        &rt,
        rt.alloc(),
        &crossed_book(rt.alloc())?,
        1,
        &events,
        &wanted,
    )
}

// Worker 1 has messages 1, 3, 5, 6 and 7, of stocks 1 and 3, and worker 0 has 2 and 4, of stock 2.
#[test]
fn workers_come_in_any_order(rt: HostRuntime) -> Result<(), Fail> {
    let events = [
        Event::Turn(0),
        Event::Turn(0),
        Event::Turn(0),
        look(7, 2),
        look(7, 1),
        Event::Turn(1),
        Event::Turn(1),
        look(8, 1),
        look(8, 3),
        look(8, 2),
    ];
    let wanted = [
        seen(7, 2, [4, 200 << 32, 20, 0]),
        seen(7, 1, [0, 0, 0, 0]),
        seen(8, 1, [3, 100 << 32, 10, 0]),
        seen(8, 3, [0, 0, 0, 0]),
        seen(8, 2, [4, 200 << 32, 20, 0]),
    ];
    try_schedule(
        &rt,
        rt.alloc(),
        &two_stocks(rt.alloc())?,
        2,
        &events,
        &wanted,
    )
}

// The crossed book, looked at after each turn of a worker.
fn schedule(worker: u32) -> [Event; 6] {
    [
        Event::Turn(worker),
        look(0, 1),
        Event::Turn(worker),
        look(0, 1),
        Event::Turn(worker),
        look(0, 1),
    ]
}

// The words of stock 1 after each message.
const WORDS: [[u64; 4]; 3] = [
    [1, 0, 0, 0],
    [2, 0x000f_6950_0000_0000, 100, 0],
    [3, 0x000f_6950_000f_4240, 100, 50],
];

// The number is looked at before any growth.
#[test]
fn a_schedule_has_1_to_64_workers(rt: HostRuntime) -> Result<(), Fail> {
    let heap = Refusing::new(rt.alloc(), Refusal::Never);
    let day = crossed_book(&heap)?;
    for (workers, refusal, wanted) in [
        (0, Refusal::From(1), Some(SplitFault::Workers)),
        (1, Refusal::Never, None),
        (64, Refusal::Never, None),
        (65, Refusal::From(1), Some(SplitFault::Workers)),
    ] {
        heap.restart(refusal);
        let fault = play(&rt, &heap, &day, workers, &schedule(0)).err();
        same("a fault", &(workers, fault), &(workers, wanted))?;
    }
    Ok(())
}

// What the looks of the schedule see.
fn shows_words(list: &[Seen]) -> Result<(), Fail> {
    let [one, two, three] = WORDS;
    let wanted = [seen(0, 1, one), seen(0, 1, two), seen(0, 1, three)];
    same_list("what is seen", list, &wanted)
}

// Runs the schedule of worker 1, whose messages they all are, under a refusal, which leaves the day as it is, and with
// memory where it is refused.
fn try_play<R: Threads + Sync, A: Allocator + Copy + Send + Sync>(
    rt: &R,
    heap: &Refusing<Global>,
    alloc: A,
    refusal: Refusal,
) -> Result<Tried, Fail> {
    let day = crossed_book(alloc)?;
    heap.restart(refusal);
    let played = play(rt, alloc, &day, 2, &schedule(1));
    let tried = heap.tried(played.is_err());
    same_bytes("the day", day.bytes(), crossed_book(alloc)?.bytes())?;
    match played {
        Ok(list) => shows_words(&list),
        Err(SplitFault::Memory) => shows_words(&play(rt, alloc, &day, 2, &schedule(1))?),
        Err(SplitFault::Workers) => Err(Fail::new("a bad number of workers")),
    }?;
    Ok(tried)
}

#[test]
fn a_schedule_without_memory_shows_nothing(rt: HostRuntime) -> Result<(), Fail> {
    let heap = Refusing::new(rt.alloc(), Refusal::Never);
    let growths = refuse_each(|refusal: Refusal| -> Result<Tried, Fail> {
        try_play(&rt, &heap, &heap, refusal)
    })?;
    same("some growths", &(growths > 10 && growths <= 100), &true)
}

// The words of stock 1, and what its machine says.
fn looked_at<'d, A: Allocator + Copy>(
    alloc: A,
    turns: &Turns<'d, A>,
) -> Result<([u64; 4], Option<Shown>), Fail> {
    match turns.stock(1) {
        Some(stock) => Ok((turns.look(1), Some(shown_by(alloc, stock)?))),
        None => Ok((turns.look(1), None)),
    }
}

// What they say before the first turn.
fn not_begun<A: Allocator + Copy>(alloc: A, turns: &Turns<'_, A>) -> Result<(), Fail> {
    let stock = stock_with(1, 0, None, None, None);
    same(
        "before the first turn",
        &looked_at(alloc, turns)?,
        &([0; 4], Some(stock)),
    )
}

// Makes the workers of the crossed book under a refusal, and with memory where it is refused.
fn try_new<R: Threads + Sync, A: Allocator + Copy + Send + Sync>(
    rt: &R,
    heap: &Refusing<Global>,
    alloc: A,
    refusal: Refusal,
) -> Result<Tried, Fail> {
    let day = crossed_book(alloc)?;
    heap.restart(refusal);
    let made = Turns::new(rt, alloc, &day, 2);
    let tried = heap.tried(made.is_err());
    match made {
        Ok(turns) => not_begun(alloc, &turns),
        Err(SplitFault::Memory) => not_begun(alloc, &Turns::new(rt, alloc, &day, 2)?),
        Err(SplitFault::Workers) => Err(Fail::new("a bad number of workers")),
    }?;
    Ok(tried)
}

// What looks at stock 1 of the crossed book show after each turn, and what its machine says.
fn turns_of_crossed_book() -> [([u64; 4], Shown); 3] {
    let row = Some(AAPL.directory_row());
    let bought = bid(1, 100, 1_010_000);
    let sold = Order {
        reference: 2,
        side: Side::Sell,
        shares: 50,
        price: 1_000_000,
        attribution: None,
    };
    let [one, two, three] = WORDS;
    [
        (one, stock_with(1, 1, row, None, None)),
        (two, stock_with(1, 2, row, Some(bought), None)),
        (three, stock_with(1, 3, row, Some(bought), Some(sold))),
    ]
}

// Takes the turn after this many others under a refusal. Where it is refused, all is as it was, and it is taken with
// memory.
fn turn_under<A: Allocator + Copy + Send + Sync>(
    heap: &Refusing<Global>,
    alloc: A,
    turns: &mut Turns<'_, A>,
    earlier: u32,
    wanted: &([u64; 4], Shown),
    refusal: Refusal,
) -> Result<Tried, Fail> {
    let before = looked_at(alloc, turns)?;
    heap.restart(refusal);
    let mut returned = turns.turn(0);
    let tried = heap.tried(returned.is_err());
    if tried.refused {
        same("after a refused turn", &looked_at(alloc, turns)?, &before)?;
        returned = turns.turn(0);
    }
    let message = earlier.saturating_add(1);
    let outcome = Outcome::Applied;
    same("a turn", &returned, &Ok(Some(Piece { message, outcome })))?;
    let (words, stock) = *wanted;
    same(
        "after the turn",
        &looked_at(alloc, turns)?,
        &(words, Some(stock)),
    )?;
    Ok(tried)
}

fn try_turn<R: Threads + Sync, A: Allocator + Copy + Send + Sync>(
    rt: &R,
    heap: &Refusing<Global>,
    alloc: A,
    earlier: u32,
    wanted: &([u64; 4], Shown),
    refusal: Refusal,
) -> Result<Tried, Fail> {
    let day = crossed_book(alloc)?;
    let mut turns = Turns::new(rt, alloc, &day, 1)?;
    for _ in 0..earlier {
        turns.turn(0)?;
    }
    turn_under(heap, alloc, &mut turns, earlier, wanted, refusal)
}

// The directory message needs no memory, and the orders do.
#[test]
fn a_refused_turn_leaves_what_looks_show(rt: HostRuntime) -> Result<(), Fail> {
    let heap = Refusing::new(rt.alloc(), Refusal::Never);
    refuse_each(|refusal: Refusal| -> Result<Tried, Fail> { try_new(&rt, &heap, &heap, refusal) })?;
    let [one, two, three] = turns_of_crossed_book();
    for (earlier, wanted, needs) in [(0, one, false), (1, two, true), (2, three, true)] {
        let growths = refuse_any(|refusal: Refusal| -> Result<Tried, Fail> {
            try_turn(&rt, &heap, &heap, earlier, &wanted, refusal)
        })?;
        same("growths", &(earlier, growths > 0), &(earlier, needs))?;
    }
    Ok(())
}
