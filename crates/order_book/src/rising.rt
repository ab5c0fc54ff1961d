//! Orders whose references rise.
ghost use Rattle.std.specs.Prelude.{◌≡◌, ◌≤◌, None, if◌then◌else◌, length, IfOk, OnErr, IfSome, IfNone};
ghost use Rattle.std.specs.List.{All, AllWithin};
ghost use Rattle.std.specs.Bool.{IsTrue};
ghost use Rattle.std.specs.FinMap as maps;
ghost use Rattle.itch_table.specs.Machine.{row_found};
ghost use Rattle.order_book.specs.Orders.{added, orders_in, reduced_by};
ghost use Rattle.order_book.specs.Parts.{AreRising, IsAbove, IsBelow, IsFirst, IsLiveAt, attribution_in, has_shares, live_in, order_at, price_in, side_in, without_distance};

use itch_table::{Found, Order, OrderRow, Side};
use std::alloc::{AllocError, Allocator};
use std::marker::Model;

// The mark of an ask, which is added to its price.
const ASK_MARK: u32 = 1 << 31;

// The bytes that stand for no attribution.
const NO_ATTRIBUTION: [u8; 4] = [0; 4];

// An order of the list, in 16 bytes, so that a search reads few lines of memory. Its side stands in the highest bit of
// its price, and four zero bytes stand for no attribution. A row can't have a price that needs that bit, which Nasdaq's
// don't: they are at most 200,000.0000 (TotalView-ITCH 5.0, "Data Types"). Nor can it have an attribution of these
// bytes, which name nobody.
#[derive(Clone, Copy)]
struct RisenRow {
    // How far its reference is above the first.
    distance: u32,
    shares: u32,
    // The price, marked where the order is an ask.
    marked_price: u32,
    attribution: [u8; 4],
}

// The side and the price that a row's marked price stands for.
fn side_and_price(marked: u32) -> (Side, u32)
    ensures side { result.0 ≡ side_in marked }
    ensures price { result.1 ≡ price_in marked }
{
    if marked < ASK_MARK {
        (Side::Buy, marked)
    } else {
        (Side::Sell, marked - ASK_MARK)
    }
}

// The marked price of an order, where its price is below the mark of asks.
fn marked_price(side: Side, price: u32) -> Option<u32>
    ensures { IfSome result (λ marked. (side_in marked ≡ side) × (price_in marked ≡ price)) }
{
    if price >= ASK_MARK {
        return None;
    }
    match side {
        Side::Buy => Some(price),
        Side::Sell => Some(price + ASK_MARK),
    }
}

// The attribution that four bytes stand for.
fn attribution_in(bytes: [u8; 4]) -> Option<[u8; 4]>
    ensures { result ≡ attribution_in bytes }
{
    if bytes == NO_ATTRIBUTION {
        None
    } else {
        Some(bytes)
    }
}

// The four bytes that stand for an attribution, where it isn't those that stand for none.
fn attribution_bytes(attribution: Option<[u8; 4]>) -> Option<[u8; 4]>
    ensures { IfSome result (λ bytes. attribution_in bytes ≡ attribution) }
{
    match attribution {
        Some(bytes) if bytes == NO_ATTRIBUTION => None,
        Some(bytes) => Some(bytes),
        None => Some(NO_ATTRIBUTION),
    }
}

impl RisenRow {
    // The order without its reference.
    fn row(self) -> OrderRow
        ensures { result ≡ without_distance self }
    {
        let (side, price) = side_and_price(self.marked_price);
        OrderRow {
            shares: self.shares,
            price,
            side,
            attribution: attribution_in(self.attribution),
        }
    }

    // The order, where this is the first reference.
    fn order(self, first: u64) -> Order
        requires { IsFirst first }
        ensures { result ≡ order_at first self }
    {
        self.row().under(first + u64::from(self.distance))
    }
}

/// Live orders that came with rising references.
///
/// They stand in a list in the order in which they came, each with the distance of its reference from the first, and a
/// reference is found in it by binary search. An order that goes stays in the list without shares, so that no other is
/// moved; once more than half have gone all these are dropped.
#[derive(Drop)]
pub(crate) struct RisingOrders<A: Allocator> {
    // The reference from which distances count: that of the first order that came into the list, or a lower one.
    first: u64,
    rows: Vec<RisenRow, A>,
    // How many have gone since those that had gone were last dropped.
    gone: usize,
}

impl<A: Allocator> Model for RisingOrders<A> {
    ghost use Rattle.std.specs.Coded.{coded_ℕ};
    ghost use Rattle.std.specs.FinMap as maps;
    ghost use Rattle.std.specs.Ordering.{nat_cmp};
    ghost use Rattle.itch_table.specs.contracts.order.OrderRow as order_row;
    ghost use Rattle.order_book.specs.Orders.{Orders};
    ghost use Rattle.order_book.specs.Parts.{AreRising, IsFirst, live_in};

    ghost Value = { Orders };

    ghost coded = { maps.code {R = nat_cmp} coded_ℕ order_row.the_row.coded };

    ghost view = { λ r. live_in r.first r.rows.items };

    ghost invariant = { λ r. IsFirst r.first × AreRising r.rows.items };
}

// Whether an order of the list lives.
fn is_live(row: &RisenRow) -> bool
    ensures { result ≡ has_shares row.now }
{
    row.shares != 0
}

// The reference from which distances count once this one comes. Where the list is empty this one is the first, unless
// 2^64 is too near: then it is a lower one, so that each distance leads to a reference that fits.
fn first_with(first: u64, rows: &[RisenRow], reference: u64) -> u64
    requires { IsFirst first }
    ensures fits { IsFirst result }
    ensures same { live_in result rows.now ≡ live_in first rows.now }
{
    if rows.is_empty() {
        reference.min(u64::MAX - u64::from(u32::MAX))
    } else {
        first
    }
}

// The row of an order, where its distance from the first reference fits, and its price and attribution do.
fn risen_from(first: u64, order: Order) -> Option<RisenRow>
    ensures { IfSome result (λ row. order_at first row ≡ order) }
{
    let distance = order.reference.checked_sub(first)?;
    Some(RisenRow {
        distance: u32::try_from(distance).ok()?,
        shares: order.shares,
        marked_price: marked_price(order.side, order.price)?,
        attribution: attribution_bytes(order.attribution)?,
    })
}

// Whether a distance is above those of all orders.
fn is_above_all(rows: &[RisenRow], distance: u32) -> bool
    requires { AreRising rows.now }
    ensures { IsTrue result → All (IsBelow distance) rows.now }
{
    match rows.last() {
        Some(last) => last.distance < distance,
        None => true,
    }
}

// Where the order with a distance stands, if there is one: from `start` on, and before `end`.
struct Window {
    start: usize,
    end: usize,
}

// Most messages are about orders that came late, so the search goes back from the last order by longer and longer
// steps.
#[inline(always)]
fn window_of(rows: &[RisenRow], distance: u64) -> Window
    requires { AreRising rows.now }
    ensures bounds { (result.start ≤ result.end) × (result.end ≤ length rows.now) }
    ensures below { AllWithin (IsBelow distance) rows.now 0 result.start }
    ensures above { AllWithin (IsAbove distance) rows.now result.end (length rows.now) }
{
    let mut end = rows.len();
    let mut step = 1;
    for _ in 0..usize::BITS {
        if end < step {
            break;
        }
        let start = end - step;
        if u64::from(rows[start].distance) <= distance {
            return Window { start, end };
        }
        end = start;
        step = step.saturating_mul(2);
    }
    Window { start: 0, end }
}

// The index of the order that lives under a reference. The window is halved by a choice between two places, of which
// the compiler makes a branch; a form without one was no faster (docs/PERFORMANCE.md).
#[inline(always)]
fn index_of(first: u64, rows: &[RisenRow], reference: u64) -> Option<usize>
    requires { AreRising rows.now }
    ensures found { IfSome result (IsLiveAt first rows.now reference) }
    ensures none { IfNone result (maps.get (live_in first rows.now) reference ≡ None) }
{
    let distance = reference.checked_sub(first)?;
    let Window { start, end } = window_of(rows, distance);
    let mut low = start;
    let mut count = end - start;
    while count > 1 {
        let half = count / 2;
        low = if u64::from(rows[low + half].distance) <= distance {
            low + half
        } else {
            low
        };
        count -= half;
    }
    if count == 1 && u64::from(rows[low].distance) == distance && is_live(&rows[low]) {
        Some(low)
    } else {
        None
    }
}

// The same, where the order may stand at an index that an earlier search has found.
#[inline(always)]
fn index_near(first: u64, rows: &[RisenRow], reference: u64, hint: usize) -> Option<usize>
    requires { AreRising rows.now }
    ensures found { IfSome result (IsLiveAt first rows.now reference) }
    ensures none { IfNone result (maps.get (live_in first rows.now) reference ≡ None) }
{
    if hint < rows.len()
        && reference.checked_sub(first) == Some(u64::from(rows[hint].distance))
        && is_live(&rows[hint])
    {
        return Some(hint);
    }
    index_of(first, rows, reference)
}

impl<A: Allocator + Copy> RisingOrders<A> {
    /// No orders. It takes no memory yet.
    pub fn new(alloc: A) -> RisingOrders<A>
        ensures { result ≡ maps.empty }
    {
        RisingOrders {
            first: 0,
            rows: Vec::new(alloc),
            gone: 0,
        }
    }

    /// The order that lives under a reference.
    #[inline(always)]
    pub fn find(&self, reference: u64) -> Option<Found>
        ensures { row_found result ≡ maps.get self.now reference }
    {
        let index = index_of(self.first, &self.rows, reference)?;
        Some(Found {
            row: self.rows[index].row(),
            hint: index,
        })
    }

    /// Adds an order that has shares, and returns true; or returns false where its reference isn't above those of all
    /// in the list, or is too far above the first, or where a row can't have its price or its attribution. An error
    /// leaves the orders as they were.
    #[inline(always)]
    pub fn push(&mut self, order: Order) -> Result<bool, AllocError>
        requires { 1 ≤ order.shares }
        ensures ok { IfOk result (λ rises. self.new ≡ (if rises then added self.old order else self.old)) }
        ensures err { OnErr result (self.new ≡ self.old) }
    {
        let first = first_with(self.first, &self.rows, order.reference);
        if let Some(row) = risen_from(first, order)
            && is_above_all(&self.rows, row.distance)
        {
            self.rows.push(row)?;
            self.first = first;
            return Ok(true);
        }
        Ok(false)
    }

    /// Takes shares off the order under a reference, which has at least that many where it lives, and returns the order
    /// as it was. One with none left is gone. The hint is that of a search for it.
    #[inline(always)]
    pub fn reduce(&mut self, reference: u64, hint: usize, shares: u32) -> Option<OrderRow>
        requires { IfSome (maps.get self.old reference) (λ row. shares ≤ row.shares) }
        ensures row { result ≡ maps.get self.old reference }
        ensures left { IfSome result (λ row. self.new ≡ reduced_by self.old reference row shares) }
        ensures none { IfNone result (self.new ≡ self.old) }
    {
        let index = index_near(self.first, &self.rows, reference, hint)?;
        let risen = &mut self.rows[index];
        let row = risen.row();
        risen.shares -= shares;
        if row.shares == shares {
            self.sweep();
        }
        Some(row)
    }

    /// Removes the order under a reference, and returns what it was. The hint is that of a search for it.
    #[inline(always)]
    pub fn remove(&mut self, reference: u64, hint: usize) -> Option<OrderRow>
        ensures row { result ≡ maps.get self.old reference }
        ensures gone { self.new ≡ maps.remove self.old reference }
    {
        let index = index_near(self.first, &self.rows, reference, hint)?;
        let risen = &mut self.rows[index];
        let row = risen.row();
        risen.shares = 0;
        self.sweep();
        Some(row)
    }

    // One more order has gone. Once more than half have, all these are dropped.
    fn sweep(&mut self)
        ensures { self.new ≡ self.old }
    {
        self.gone = self.gone.saturating_add(1);
        if self.gone > self.rows.len() / 2 {
            self.rows.retain(|row| is_live(row));
            self.gone = 0;
        }
    }

    /// The orders, by rising reference.
    pub fn list(&self, alloc: A) -> Result<Vec<Order, A>, AllocError>
        ensures { IfOk result (λ list. list.items ≡ orders_in self.now) }
    {
        let first = self.first;
        self.rows
            .iter()
            .filter(|row| is_live(row))
            .map(|row| row.order(first))
            .collect(alloc)
    }

    /// The same orders, in memory of `alloc`.
    pub fn copy(&self, alloc: A) -> Result<RisingOrders<A>, AllocError>
        ensures { IfOk result (λ copy. copy ≡ self.now) }
    {
        Ok(RisingOrders {
            first: self.first,
            rows: self.rows.iter().copied().collect(alloc)?,
            gone: self.gone,
        })
    }
}
