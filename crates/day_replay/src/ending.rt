//! What the batches of a whole day make, put together.
ghost use Rattle.std.specs.Prelude.{◌≡◌, ◌+◌, ◌<◌, ℕ, List, IfOk, Option, length, map};
ghost use Rattle.std.specs.List.Sorted.{IsPermutation};
ghost use Rattle.std.specs.Option.{option_map};
ghost use Rattle.itch_table.specs.Shows.{locates_of_day};
ghost use Rattle.stock_machine.specs.StockRows.{StockMachine};
ghost use Rattle.day_core.specs.Replaying.{last_machine};
ghost use Rattle.day_replay.specs.Summaries.{refused_of};
ghost use Rattle.day_replay.specs.Messages.{numbered_after};
ghost use Rattle.day_replay.specs.NoStock.{no_stock_of};
ghost use Rattle.day_replay.specs.Replays.{AreAfter, Hold};

use crate::BATCHES;
use crate::batch::Batch;
use crate::no_stock::NoStock;
use crate::refusals::RefusedMessage;
use itch_table::LOCATES;
use std::alloc::{AllocError, Allocator};
use stock_machine::Stock;

// All that were refused, batch by batch, and those of no stock last.
fn joined<A: Allocator + Copy>(
    alloc: A,
    batches: &[Batch<A>],
    no_stock: &NoStock<A>,
) -> Result<Vec<RefusedMessage, A>, AllocError>
    requires { length batches.now ≡ BATCHES }
    ensures { IfOk result (λ all. (day : List (List ℕ)) → AreAfter day batches.now
        → no_stock.now ≡ no_stock_of (numbered_after 0 day) → IsPermutation (refused_of day) all.items) }
{
    let mut all = Vec::new(alloc);
    for batch in batches {
        all.extend_from_slice(batch.refused())?;
    }
    all.extend_from_slice(no_stock.refused())?;
    Ok(all)
}

/// The refused messages of all batches, and those of no stock, by rising number.
pub(crate) fn all_refused<A: Allocator + Copy>(
    alloc: A,
    batches: &[Batch<A>],
    no_stock: &NoStock<A>,
) -> Result<Vec<RefusedMessage, A>, AllocError>
    requires { length batches.now ≡ BATCHES }
    ensures { IfOk result (λ all. (day : List (List ℕ)) → AreAfter day batches.now
        → no_stock.now ≡ no_stock_of (numbered_after 0 day) → all.items ≡ refused_of day) }
{
    let mut all = joined(alloc, batches, no_stock)?;
    all.sort_unstable_by_key(
        |refused: &RefusedMessage| -> u32
            ensures { result ≡ refused.now.message }
        { refused.message },
    );
    Ok(all)
}

// Takes the machine of a stock out of its batch, where it has one.
fn take_out<A: Allocator>(batches: &mut Vec<Batch<A>, A>, locate: usize) -> Option<Stock<A>>
    requires fits { locate < 0x1_0000 }
    requires long { length batches.old.items ≡ BATCHES }
    ensures long { length batches.new.items ≡ BATCHES }
    ensures took { (machine : ℕ → Option StockMachine) → Hold machine locate batches.old.items
        → result ≡ machine locate }
    ensures left { (machine : ℕ → Option StockMachine) → Hold machine locate batches.old.items
        → Hold machine (locate + 1) batches.new.items }
{
    let stock = batches[locate % BATCHES].take_stock(locate / BATCHES)?;
    Some(Box::into_inner(stock))
}

/// The machines of the stocks of all batches, by rising locate code.
pub(crate) fn all_stocks<A: Allocator + Copy>(
    alloc: A,
    mut batches: Vec<Batch<A>, A>,
) -> Result<Vec<Stock<A>, A>, AllocError>
    requires { length batches.items ≡ BATCHES }
    ensures { IfOk result (λ stocks. (day : List (List ℕ)) → AreAfter day batches.items
        → stocks.items ≡ map (last_machine day) (locates_of_day day)) }
{
    let mut stocks = Vec::new(alloc);
    for locate in 0..LOCATES {
        if let Some(stock) = take_out(&mut batches, locate) {
            stocks.push(stock)?;
        }
    }
    Ok(stocks)
}
