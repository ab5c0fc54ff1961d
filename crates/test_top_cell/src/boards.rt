//! Boards, and what their writers and screens show one after another.
ghost use Rattle.std.specs.Prelude.{◌≡◌};
ghost use Rattle.test_top_cell.specs.Showing.{AreInStep};

use crate::cells::only_cell;
use crate::changes::{Glance, show_by_steps};
use crate::showing::show_next;
use binaryfile::Day;
use itch_table::{Plain, Top};
use std::alloc::{AllocError, Allocator, Global};
use std::sync::Wait;
use std::test::Fail;
use test_refusing::{Refusal, Refusing, Tried, refuse_each};
use test_support::{AAPL, crossed_book, day_of, day_with, same, same_bytes, same_list, two_stocks};
use top_cell::{Board, Busy, Reading, TopWriter};

// The best bid and ask of the crossed book: 100 shares are bid at 101, above the ask of 50 shares at 100.
const CROSSED: Reading = Reading {
    message: 3,
    bid_price: 1_010_000,
    bid_shares: 100,
    ask_price: 1_000_000,
    ask_shares: 50,
};

// The locate codes and the messages of the writers of a day.
fn writers_of<A: Allocator + Copy>(
    alloc: A,
    day: &Day<A>,
) -> Result<Vec<(u16, u32), A>, AllocError> {
    let (_board, writers) = Board::new(alloc, day)?;
    let mut found = Vec::new(alloc);
    for writer in &writers {
        found.push((writer.locate(), writer.message()))?;
    }
    Ok(found)
}

#[test]
fn each_stock_has_a_writer(rt: HostRuntime) -> Result<(), Fail> {
    let alloc = rt.alloc();
    let day = two_stocks(alloc)?;
    let found = writers_of(alloc, &day)?;
    same_list("of three stocks", &found, &[(1, 0), (2, 0), (3, 0)])?;
    let empty = day_of(alloc, Vec::new(alloc))?;
    let none = writers_of(alloc, &empty)?;
    same("of an empty file", &none.len(), &0)
}

// Screens of the crossed book's cell, made before its first message and after its second and third.
fn screens_stand<R: Wait, A: Allocator + Copy>(
    rt: &R,
    day: &Day<A>,
    machine: &mut Plain<A>,
    board: &Board<A>,
    writer: &mut TopWriter,
) -> Result<(), Fail>
    requires { AreInStep day.now.payloads board.now machine.old writer.old }
{
    let mut first = writer.screen(board);
    show_next(day, machine, board, writer)?;
    show_next(day, machine, board, writer)?;
    let mut second = writer.screen(board);
    show_next(day, machine, board, writer)?;
    let third = writer.screen(board);
    same(
        "where they stand",
        &(first.message(), second.message(), third.message()),
        &(0, 2, 3),
    )?;
    same("what the first reads", &first.read(rt, board), &CROSSED)?;
    second.join(board, third);
    let fourth = first.split(board);
    same(
        "where they stand then",
        &(first.message(), second.message(), fourth.message()),
        &(3, 3, 3),
    )?;
    same("whose it is", &(writer.locate(), first.locate()), &(1, 1))
}

#[test]
fn screens_stand_at_what_they_have_seen(rt: HostRuntime) -> Result<(), Fail> {
    let alloc = rt.alloc();
    let day = crossed_book(alloc)?;
    let (board, mut writer, mut machine) = only_cell(alloc, &day)?;
    screens_stand(&rt, &day, &mut machine, &board, &mut writer)
}

// What a screen reads of a cell after the first three messages of its stock, and the words that show it.
fn show_three<R: Wait, A: Allocator + Copy>(
    rt: &R,
    day: &Day<A>,
    machine: &mut Plain<A>,
    board: &Board<A>,
    writer: &mut TopWriter,
) -> Result<(Reading, [u64; 4]), Fail>
    requires { AreInStep day.now.payloads board.now machine.old writer.old }
{
    let mut screen = writer.screen(board);
    show_next(day, machine, board, writer)?;
    show_next(day, machine, board, writer)?;
    show_next(day, machine, board, writer)?;
    let reading = screen.read(rt, board);
    let top = Top {
        bid_price: reading.bid_price,
        bid_shares: reading.bid_shares,
        ask_price: reading.ask_price,
        ask_shares: reading.ask_shares,
    };
    Ok((reading, top.to_words(reading.message)))
}

// The price of the bid stands in the high half of the second word, and that of the ask in the low one. The words are those of
// what a screen read of the cell, since no call lends the cell's own: that they stand in it so is proved of each store.
#[test]
fn a_cell_holds_the_greatest_numbers(rt: HostRuntime) -> Result<(), Fail> {
    let alloc = rt.alloc();
    let bid = AAPL.add(0, b'B', 4_294_967_295, 0);
    let ask = AAPL.add(18_446_744_073_709_551_615, b'S', 1, 4_294_967_295);
    let day = day_with(alloc, &[AAPL.directory(), bid, ask])?;
    let (board, mut writer, mut machine) = only_cell(alloc, &day)?;
    let shown = show_three(&rt, &day, &mut machine, &board, &mut writer)?;
    let reading = Reading {
        message: 3,
        bid_price: 0,
        bid_shares: 4_294_967_295,
        ask_price: 4_294_967_295,
        ask_shares: 1,
    };
    let words = [3, 0x0000_0000_ffff_ffff, 4_294_967_295, 1];
    same(
        "what a screen reads, and the words",
        &shown,
        &(reading, words),
    )
}

// How many writers the new board of a day has.
fn count_writers<A: Allocator + Copy>(alloc: A, day: &Day<A>) -> Result<usize, AllocError> {
    let (_board, writers) = Board::new(alloc, day)?;
    Ok(writers.len())
}

// Makes the board of the two stocks under a refusal. Where it is refused, the day is as it was, and the board is made
// with memory.
fn try_board<A: Allocator + Copy>(
    heap: &Refusing<Global>,
    alloc: A,
    refusal: Refusal,
) -> Result<Tried, Fail> {
    let day = two_stocks(alloc)?;
    heap.restart(refusal);
    let mut count = count_writers(alloc, &day);
    let tried = heap.tried(count.is_err());
    if tried.refused {
        same_bytes("the day", day.bytes(), two_stocks(alloc)?.bytes())?;
        count = count_writers(alloc, &day);
    }
    same("how many writers", &count, &Ok(3))?;
    Ok(tried)
}

#[test]
fn a_board_without_memory_is_none(rt: HostRuntime) -> Result<(), Fail> {
    let heap = Refusing::new(rt.alloc(), Refusal::Never);
    let growths = refuse_each(|refusal: Refusal| -> Result<Tried, Fail> {
        try_board(&heap, &heap, refusal)
    })?;
    same("some growths", &(growths > 6 && growths <= 40), &true)
}

// Publishes the third message of a bid that is deleted, shows the fourth by single steps, neither of which takes
// memory, and lets screens be made, read, glanced at and joined, all without memory.
fn show_without_memory<R: Wait, A: Allocator + Copy>(
    rt: &R,
    heap: &Refusing<Global>,
    day: &Day<A>,
    machine: &mut Plain<A>,
    board: &Board<A>,
    mut writer: TopWriter,
) -> Result<(), Fail>
    requires { AreInStep day.now.payloads board.now machine.old writer }
{
    show_next(day, machine, board, &mut writer)?;
    show_next(day, machine, board, &mut writer)?;
    heap.restart(Refusal::From(1));
    let mut first = writer.screen(board);
    let bid = first.read(rt, board);
    show_next(day, machine, board, &mut writer)?;
    let mut second = first.split(board);
    let (_writer, _) = show_by_steps(day, machine, board, writer, &mut second)?;
    let gone = second
        .glance(board, 1)
        .map(|reading: Reading| -> u32 { reading.message });
    first.join(board, second);
    same(
        "what is read, and the growths",
        &(
            (bid.message, bid.bid_shares),
            gone,
            first.message(),
            heap.asked(),
        ),
        &((2, 10), Ok(4), 4, 0),
    )
}

#[test]
fn cells_that_are_made_take_no_memory(rt: HostRuntime) -> Result<(), Fail> {
    let heap = Refusing::new(rt.alloc(), Refusal::Never);
    let alloc = &heap;
    let day = day_with(
        alloc,
        &[
            AAPL.directory(),
            AAPL.add(1, b'B', 10, 100),
            AAPL.delete(1),
            AAPL.delete(1),
        ],
    )?;
    let (board, writer, mut machine) = only_cell(alloc, &day)?;
    show_without_memory(&rt, alloc, &day, &mut machine, &board, writer)
}

// That the writer is in the middle of its first change, and that a screen stands before the first message.
const IN_FIRST_CHANGE: (Glance, u32) = (Err(Busy { count: 1 }), 0);

// What glances return while the first message of the crossed book is shown by single steps, then, and after the other
// two.
fn glance_at_steps<A: Allocator + Copy>(
    day: &Day<A>,
    machine: &mut Plain<A>,
    board: &Board<A>,
    mut writer: TopWriter,
) -> Result<(), Fail>
    requires { AreInStep day.now.payloads board.now machine.old writer }
{
    let mut screen = writer.screen(board);
    let (mut writer, seen) = show_by_steps(day, machine, board, writer, &mut screen)?;
    same_list("in the change", &seen, &[IN_FIRST_CHANGE; 5])?;
    let first = Reading {
        message: 1,
        bid_price: 0,
        bid_shares: 0,
        ask_price: 0,
        ask_shares: 0,
    };
    same("after it", &screen.glance(board, 1), &Ok(first))?;
    show_next(day, machine, board, &mut writer)?;
    show_next(day, machine, board, &mut writer)?;
    same("at the end", &screen.glance(board, 1), &Ok(CROSSED))?;
    same("where the screen stands", &screen.message(), &3)
}

#[test]
fn a_glance_is_busy_during_a_change(rt: HostRuntime) -> Result<(), Fail> {
    let alloc = rt.alloc();
    let day = crossed_book(alloc)?;
    let (board, writer, mut machine) = only_cell(alloc, &day)?;
    glance_at_steps(&day, &mut machine, &board, writer)
}

// That the writer is in the middle of its second change, and that a screen stands before the first message.
const IN_SECOND_CHANGE: (Glance, u32) = (Err(Busy { count: 3 }), 0);

// Publishes the message at which the writer stands once more. The day is there for the proof alone.
fn publish_again<A: Allocator + Copy>(
    _day: &Day<A>,
    machine: &Plain<A>,
    board: &Board<A>,
    writer: &mut TopWriter,
)
    requires { AreInStep _day.now.payloads board.now machine.now writer.old }
    ensures { writer.new ≡ writer.old }
{
    writer.publish(board, writer.message(), machine.top(writer.locate()));
}

// What glances return while the second message of the crossed book is shown by single steps, where the first one was
// published twice.
fn glance_after_twice<A: Allocator + Copy>(
    day: &Day<A>,
    machine: &mut Plain<A>,
    board: &Board<A>,
    mut writer: TopWriter,
) -> Result<(), Fail>
    requires { AreInStep day.now.payloads board.now machine.old writer }
{
    let mut screen = writer.screen(board);
    show_next(day, machine, board, &mut writer)?;
    publish_again(day, machine, board, &mut writer);
    let (_writer, seen) = show_by_steps(day, machine, board, writer, &mut screen)?;
    same_list("in the second change", &seen, &[IN_SECOND_CHANGE; 5])
}

#[test]
fn a_message_published_again_changes_nothing(rt: HostRuntime) -> Result<(), Fail> {
    let alloc = rt.alloc();
    let day = crossed_book(alloc)?;
    let (board, writer, mut machine) = only_cell(alloc, &day)?;
    glance_after_twice(&day, &mut machine, &board, writer)
}
