//! The order rows of a book.
ghost use Rattle.std.specs.Prelude.{◌≡◌, ◌≤◌, Some, map, IfOk, IsSomeAnd};
ghost use Rattle.std.specs.BTreeMap.{btree_map_len, get, IsOrdered};
ghost use Rattle.std.specs.FinMap as maps;
ghost use Rattle.std.specs.Ordering.{nat_cmp};
ghost use Rattle.itch_table.specs.Machine.{row_found};
ghost use Rattle.itch_table.specs.World.{order_under};
ghost use Rattle.order_book.specs.Orders.{reduced_by};

use itch_table::{Found, Order, OrderRow};
use std::alloc::{AllocError, Allocator};
use std::collections::BTreeMap;

/// The rows as orders, by rising reference.
pub fn as_orders<A: Allocator + Copy>(
    alloc: A,
    rows: &BTreeMap<u64, OrderRow, A>,
) -> Result<Vec<Order, A>, AllocError>
    ensures list { IfOk result (λ list. list.items ≡ map (λ e. order_under e.0 e.1) rows.now.entries) }
    ensures ordered { IsOrdered nat_cmp rows.now }
{
    rows.iter()
        .map(|(reference, row)| row.under(*reference))
        .collect(alloc)
}

// A row is found again by its reference alone.
const NO_HINT: usize = usize::MAX;

/// The row under a reference.
pub fn found_among<A: Allocator + Copy>(
    rows: &BTreeMap<u64, OrderRow, A>,
    reference: u64,
) -> Option<Found>
    ensures { row_found result ≡ get nat_cmp rows.now reference }
{
    rows.get(&reference).map(|row| Found {
        row: *row,
        hint: NO_HINT,
    })
}

/// Takes shares off a row that has at least that many, and returns the row as it was. A row with none left is gone.
pub fn reduce_row<A: Allocator + Copy>(
    rows: &mut BTreeMap<u64, OrderRow, A>,
    reference: u64,
    shares: u32,
) -> OrderRow
    requires { IsSomeAnd (get nat_cmp rows.old reference) (λ row. shares ≤ row.shares) }
    ensures row { get nat_cmp rows.old reference ≡ Some result }
    ensures left { maps.from_entries rows.new.entries ≡
        reduced_by (maps.from_entries rows.old.entries) reference result shares }
    ensures len { btree_map_len rows.new ≤ btree_map_len rows.old }
{
    let row = rows.get_mut(&reference).unwrap();
    let before = *row;
    if row.shares == shares {
        rows.remove(&reference);
    } else {
        row.shares -= shares;
    }
    before
}

/// The same rows, in memory of `alloc`.
pub fn copied<A: Allocator + Copy>(
    alloc: A,
    rows: &BTreeMap<u64, OrderRow, A>,
) -> Result<BTreeMap<u64, OrderRow, A>, AllocError>
    ensures { IfOk result (λ copied. copied.entries ≡ rows.now.entries) }
{
    rows.iter()
        .map(|(reference, row)| (*reference, *row))
        .collect(alloc)
}
