//! Values of a day's stocks, in one list by rising locate code, or by their workers.
ghost use Rattle.std.specs.Prelude.{◌≡◌, ◌++◌, ◌∷◌, ◌<◌, List, [], IfOk, OnOk, length, map, replicate, slice_index_or, slice_set};
ghost use Rattle.day_core.specs.Replaying.{AreByWorker, each_worker, own_values};

use crate::parts::Parts;
use std::alloc::{AllocError, Allocator};
use std::collections::VecDeque;

/// Adds a value to the list of a worker.
pub(crate) fn give<T: Drop, A: Allocator + Copy>(
    lists: &mut Vec<Vec<T, A>, A>,
    worker: u32,
    value: T,
) -> Result<(), AllocError>
    requires { worker < length lists.old.items }
    ensures { OnOk result (map (λ list. list.items) lists.new.items
        ≡ slice_set (map (λ list. list.items) lists.old.items) worker
        (slice_index_or (map (λ list. list.items) lists.old.items) worker [] ++ value ∷ [])) }
{
    lists[worker as usize].push(value)?;
    Ok(())
}

/// An empty list for each worker.
pub(crate) fn empty_lists<T: Drop, A: Allocator + Copy>(
    alloc: A,
    workers: u32,
) -> Result<Vec<Vec<T, A>, A>, AllocError>
    ensures { IfOk result (λ lists. map (λ list. list.items) lists.items ≡ replicate workers []) }
{
    let mut lists = Vec::with_capacity(alloc, workers as usize)?;
    for _ in 0..workers {
        lists.push(Vec::new(alloc))?;
    }
    Ok(lists)
}

/// Values of a day's stocks by their workers: for each worker, in the order of their numbers, the values of its stocks.
/// The caller passes one value for each stock that has messages in the day, by rising locate code, and so stand those
/// of each worker.
///
/// After an error the values are gone.
pub fn by_worker<T: Drop, A: Allocator + Copy>(
    alloc: A,
    parts: &Parts<A>,
    values: Vec<T, A>,
) -> Result<Vec<Vec<T, A>, A>, AllocError>
    ensures { IfOk result (λ lists. map (λ list. list.items) lists.items
        ≡ each_worker (own_values parts.now values.items) parts.now.workers) }
{
    let workers = parts.workers();
    let locates = Vec::from_slice(alloc, parts.locates())?;
    let mut lists = empty_lists(alloc, workers)?;
    for (value, locate) in values.into_iter().zip(locates) {
        give(&mut lists, u32::from(locate) % workers, value)?;
    }
    Ok(lists)
}

// The values of each list, to be taken from the front.
fn queues_of<T: Drop, A: Allocator + Copy>(
    alloc: A,
    lists: Vec<Vec<T, A>, A>,
) -> Result<Vec<VecDeque<T, A>, A>, AllocError>
    ensures { IfOk result (λ queues.
        map (λ own. own.items) queues.items ≡ map (λ own. own.items) lists.items) }
{
    let mut queues = Vec::with_capacity(alloc, lists.len())?;
    for list in lists {
        queues.push(VecDeque::from_vec(list))?;
    }
    Ok(queues)
}

/// What each worker has for its stocks, for all stocks of a day by rising locate code. The caller passes for each
/// worker, in the order of their numbers, one value for each of its stocks, by rising locate code.
///
/// After an error the values are gone.
pub fn in_order<T: Drop, A: Allocator + Copy>(
    alloc: A,
    parts: &Parts<A>,
    by_worker: Vec<Vec<T, A>, A>,
) -> Result<Vec<T, A>, AllocError>
    requires { (values : List T) × AreByWorker parts.now values (map (λ own. own.items) by_worker.items) }
    ensures { IfOk result (λ all. (values : List T)
        → AreByWorker parts.now values (map (λ own. own.items) by_worker.items) → all.items ≡ values) }
{
    let workers = parts.workers();
    let locates = parts.locates();
    let mut queues = queues_of(alloc, by_worker)?;
    let mut all = Vec::with_capacity(alloc, locates.len())?;
    for locate in locates {
        let owner = (u32::from(*locate) % workers) as usize;
        all.push(queues[owner].pop_front().unwrap())?;
    }
    Ok(all)
}
