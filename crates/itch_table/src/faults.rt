//! The checks of the table, in its words and in its order. None takes memory.
ghost use Rattle.std.specs.Prelude.{◌≡◌, ◌∷◌, [], Some, IfOk};
ghost use Rattle.std.specs.Result.{result_err};
ghost use Rattle.std.specs.List.{list_any};
ghost use Rattle.itch_table.specs.World.{directory, live, stock_row};
ghost use Rattle.itch_table.specs.Held.{Holds};
ghost use Rattle.itch_table.specs.Trades.{is_unbroken};
ghost use Rattle.itch_table.specs.Table.{are_left, checks, first_fault, has_left, has_shares, has_side, is_live, is_new, is_printable, is_unspent, listed, names_stock, refuse_unless, same_stock};

use crate::order::{Found, OrderRow};
use crate::outcome::Fault;
use crate::status::StockRow;
use crate::store::Store;
use itch_layouts::{ExecutePrice, Head, Msg, Replace};

// A fault, unless something holds.
fn refuse_unless(holds: bool, fault: Fault) -> Result<(), Fault>
    ensures { result_err result ≡ refuse_unless holds fault }
{
    if holds { Ok(()) } else { Err(fault) }
}

// The locate code has a directory row.
fn listed<S: Store>(store: &S, locate: u16) -> Result<&StockRow, Fault>
    requires { Holds (S.held store.now) locate }
    ensures fault { result_err result ≡ listed (S.held store.now).world locate }
    ensures row { IfOk result (λ row. stock_row (S.held store.now).world locate ≡ Some row.now) }
{
    store.stock(locate).ok_or(Fault::NoDirectory)
}

// The directory row names this stock.
fn names_stock(row: &StockRow, stock: &[u8; 8]) -> Result<(), Fault>
    ensures { result_err result ≡
        refuse_unless (same_stock stock.now (Some row.now.directory)) Fault.StockDiffers }
{
    refuse_unless(row.directory.stock == *stock, Fault::StockDiffers)
}

// A side is `B` or `S`.
fn has_side(byte: u8) -> Result<(), Fault>
    ensures { result_err result ≡ has_side byte }
{
    refuse_unless(byte == b'B' || byte == b'S', Fault::BadSide)
}

// Printable is `Y` or `N`.
fn has_printable(byte: u8) -> Result<(), Fault>
    ensures { result_err result ≡ refuse_unless (is_printable byte) Fault.BadPrintable }
{
    refuse_unless(byte == b'Y' || byte == b'N', Fault::BadPrintable)
}

// An order has shares.
fn has_shares(shares: u32) -> Result<(), Fault>
    ensures { result_err result ≡ has_shares shares }
{
    refuse_unless(shares != 0, Fault::ZeroShares)
}

// No order lives under the reference, and none has had it. An order is looked for only to tell which of the two faults
// it is.
#[inline(always)]
fn is_new_reference<S: Store>(store: &S, locate: u16, reference: u64) -> Result<(), Fault>
    requires { Holds (S.held store.now) locate }
    ensures { let w = (S.held store.now).world in
        result_err result ≡ first_fault (is_new w locate reference ∷ is_unspent w locate reference ∷ []) }
{
    if store.is_fresh(locate, reference) {
        return Ok(());
    }
    match store.order(locate, reference) {
        Some(_) => Err(Fault::ReferenceInUse),
        None => Err(Fault::ReferenceSpent),
    }
}

// An order lives under the reference.
#[inline(always)]
fn is_live<S: Store>(store: &S, locate: u16, reference: u64) -> Result<Found, Fault>
    requires { Holds (S.held store.now) locate }
    ensures fault { result_err result ≡ is_live (S.held store.now).world locate reference }
    ensures found { IfOk result (λ found. live (S.held store.now).world locate reference ≡ Some found.row) }
{
    let found = store.order(locate, reference);
    found.ok_or(Fault::ReferenceUnknown)
}

// An order has at least these shares left.
fn has_left(row: &OrderRow, shares: u32) -> Result<(), Fault>
    ensures { result_err result ≡ refuse_unless (are_left shares (Some row.now)) Fault.TooManyShares }
{
    refuse_unless(shares <= row.shares, Fault::TooManyShares)
}

/// The directory row, where there is one, names this stock.
pub(crate) fn keeps_stock<S: Store>(store: &S, locate: u16, stock: &[u8; 8]) -> Result<(), Fault>
    requires { Holds (S.held store.now) locate }
    ensures { result_err result ≡
        refuse_unless (same_stock stock.now (directory (S.held store.now).world locate)) Fault.LocateTaken }
{
    match store.stock(locate) {
        Some(row) => refuse_unless(row.directory.stock == *stock, Fault::LocateTaken),
        None => Ok(()),
    }
}

// A trade with this match number isn't broken.
fn has_trade<S: Store>(store: &S, locate: u16, match_no: u64) -> Result<(), Fault>
    requires { Holds (S.held store.now) locate }
    ensures { result_err result ≡
        refuse_unless (list_any (is_unbroken locate match_no) (S.held store.now).world.trades) Fault.NoTrade }
{
    refuse_unless(store.has_unbroken(locate, match_no), Fault::NoTrade)
}

/// The checks of every message that names a stock.
pub(crate) fn check_stock<S: Store>(store: &S, locate: u16, stock: &[u8; 8]) -> Result<(), Fault>
    requires { Holds (S.held store.now) locate }
    ensures { let w = (S.held store.now).world in
        result_err result ≡ first_fault (listed w locate ∷ names_stock w locate stock.now ∷ []) }
{
    names_stock(listed(store, locate)?, stock)
}

/// The checks of a message that names a stock and a side.
pub(crate) fn check_side<S: Store>(
    store: &S,
    locate: u16,
    stock: &[u8; 8],
    side: u8,
) -> Result<(), Fault>
    requires { Holds (S.held store.now) locate }
    ensures { let w = (S.held store.now).world in
        result_err result ≡ first_fault (listed w locate ∷ names_stock w locate stock.now
        ∷ has_side side ∷ []) }
{
    check_stock(store, locate, stock)?;
    has_side(side)
}

/// The checks of a new order.
#[inline(always)]
pub(crate) fn check_add<S: Store>(
    store: &S,
    locate: u16,
    reference: u64,
    side: u8,
    shares: u32,
    stock: &[u8; 8],
) -> Result<(), Fault>
    requires { Holds (S.held store.now) locate }
    ensures { let w = (S.held store.now).world in
        result_err result ≡ first_fault (listed w locate ∷ names_stock w locate stock.now ∷ has_side side
        ∷ has_shares shares ∷ is_new w locate reference ∷ is_unspent w locate reference ∷ []) }
{
    check_side(store, locate, stock, side)?;
    has_shares(shares)?;
    is_new_reference(store, locate, reference)
}

/// The checks of a message that takes shares off an order, which find that order.
#[inline(always)]
pub(crate) fn check_shares<S: Store>(
    store: &S,
    locate: u16,
    reference: u64,
    shares: u32,
) -> Result<Found, Fault>
    requires { Holds (S.held store.now) locate }
    ensures fault { let w = (S.held store.now).world in
        result_err result ≡ first_fault (listed w locate ∷ is_live w locate reference
        ∷ has_left w locate reference shares ∷ []) }
    ensures found { IfOk result (λ found. live (S.held store.now).world locate reference ≡ Some found.row) }
{
    listed(store, locate)?;
    let found = is_live(store, locate, reference)?;
    has_left(&found.row, shares)?;
    Ok(found)
}

/// The checks of an execution at a price of its own, which find the order.
#[inline(always)]
pub(crate) fn check_execute_price<S: Store>(
    store: &S,
    head: &Head,
    execute: &ExecutePrice,
) -> Result<Found, Fault>
    requires { Holds (S.held store.now) head.now.locate }
    ensures fault { let w = (S.held store.now).world in
        result_err result ≡ first_fault (checks (Msg.ExecutePrice head.now execute.now) w) }
    ensures found { IfOk result (λ found.
        live (S.held store.now).world head.now.locate execute.now.reference ≡ Some found.row) }
{
    listed(store, head.locate)?;
    has_printable(execute.printable)?;
    let found = is_live(store, head.locate, execute.reference)?;
    has_left(&found.row, execute.shares)?;
    Ok(found)
}

/// The checks of a delete, which find the order.
#[inline(always)]
pub(crate) fn check_delete<S: Store>(store: &S, locate: u16, reference: u64) -> Result<Found, Fault>
    requires { Holds (S.held store.now) locate }
    ensures fault { let w = (S.held store.now).world in
        result_err result ≡ first_fault (listed w locate ∷ is_live w locate reference ∷ []) }
    ensures found { IfOk result (λ found. live (S.held store.now).world locate reference ≡ Some found.row) }
{
    listed(store, locate)?;
    is_live(store, locate, reference)
}

/// The checks of a replacement, which find the order that is replaced.
#[inline(always)]
pub(crate) fn check_replace<S: Store>(
    store: &S,
    head: &Head,
    replace: &Replace,
) -> Result<Found, Fault>
    requires { Holds (S.held store.now) head.now.locate }
    ensures fault { let w = (S.held store.now).world in
        result_err result ≡ first_fault (checks (Msg.Replace head.now replace.now) w) }
    ensures found { IfOk result (λ found.
        live (S.held store.now).world head.now.locate replace.now.reference ≡ Some found.row) }
{
    listed(store, head.locate)?;
    let found = is_live(store, head.locate, replace.reference)?;
    is_new_reference(store, head.locate, replace.new_reference)?;
    has_shares(replace.shares)?;
    Ok(found)
}

/// The checks of a broken trade message.
pub(crate) fn check_broken<S: Store>(store: &S, locate: u16, match_no: u64) -> Result<(), Fault>
    requires { Holds (S.held store.now) locate }
    ensures { let w = (S.held store.now).world in
        result_err result ≡ first_fault (listed w locate
        ∷ refuse_unless (list_any (is_unbroken locate match_no) w.trades) Fault.NoTrade ∷ []) }
{
    listed(store, locate)?;
    has_trade(store, locate, match_no)
}
