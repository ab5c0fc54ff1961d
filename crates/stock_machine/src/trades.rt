//! The trades of one stock, with the totals over them.
ghost use Rattle.std.specs.Prelude.{◌≡◌, ◌-◌, ◌<◌, ◌≤◌, ◌^◌, ◌++◌, ◌∷◌, [], drop, length, map, take, IfOk, IsTrue, OnOk, OnErr};
ghost use Rattle.std.specs.List.{All, list_any, slice_range};
ghost use Rattle.itch_table.specs.Trades.{totals_of};
ghost use Rattle.stock_machine.specs.StockTrades.{IsOfNumber, IsOther, IsRising, broken_trade, is_unbroken_trade};

use itch_table::{Totals, TradeRow};
use std::alloc::{AllocError, Allocator};
use std::marker::Model;

/// A stock's trades, the oldest first, with the totals over them.
///
/// Match numbers mostly rise from trade to trade. While none has fallen, the trades of a number are found by binary
/// search; from then on all trades are looked through for them.
#[derive(Drop)]
pub(crate) struct Trades<A: Allocator> {
    rows: Vec<TradeRow, A>,
    totals: Totals,
    // True only where no match number is below one before it.
    rising: bool,
}

impl<A: Allocator> Model for Trades<A> {
    ghost use Rattle.std.specs.Coded.{codes};
    ghost use Rattle.std.specs.Prelude.{List};
    ghost use Rattle.itch_table.specs.declared.trades.TradeRow.{TradeRow};
    ghost use Rattle.itch_table.specs.contracts.trades.TradeRow as trade_row;
    ghost use Rattle.stock_machine.specs.StockTrades.{TotalsAreKept};

    ghost Value = { List TradeRow };

    ghost coded = { Prim.hlevel (codes, trade_row.the_row.coded) };

    ghost view = { λ s. s.rows.items };

    ghost invariant = { λ s. TotalsAreKept s.rows.items s.totals s.rising };
}

impl<A: Allocator> Trades<A> {
    /// No trades.
    pub fn new(alloc: A) -> Trades<A>
        ensures { result ≡ [] }
    {
        Trades {
            rows: Vec::new(alloc),
            totals: Totals::NONE,
            rising: true,
        }
    }

    /// The totals over the trades.
    pub fn totals(&self) -> Totals
        ensures { result ≡ totals_of self.now }
    {
        self.totals
    }

    /// Whether an unbroken trade has this match number.
    pub fn has_unbroken(&self, match_no: u64) -> bool
        ensures { result ≡ list_any (is_unbroken_trade match_no) self.now }
    {
        let (start, end) = indices_of(&self.rows, self.rising, match_no);
        any_unbroken(&self.rows[start..end], match_no)
    }

    /// Adds a trade after the others, which are fewer than 2^32 - 1. An error leaves them as they were.
    pub fn push(&mut self, trade: TradeRow) -> Result<(), AllocError>
        requires { length self.old < 2 ^ 32 - 1 }
        ensures ok { OnOk result (self.new ≡ self.old ++ trade ∷ []) }
        ensures err { OnErr result (self.new ≡ self.old) }
    {
        let rising = rises_with(&self.rows, self.rising, &trade);
        self.rows.push(trade)?;
        self.totals = self.totals.with_trade(&trade);
        self.rising = rising;
        Ok(())
    }

    /// Breaks all trades with this match number.
    pub fn break_all(&mut self, match_no: u64)
        ensures { self.new ≡ map (broken_trade match_no) self.old }
    {
        let (start, end) = indices_of(&self.rows, self.rising, match_no);
        for index in start..end {
            let trade = &mut self.rows[index];
            if is_unbroken(trade, match_no) {
                self.totals = self.totals.without_trade(trade);
                trade.broken = true;
            }
        }
    }

    /// The same trades, in memory of `alloc`.
    pub fn copy(&self, alloc: A) -> Result<Trades<A>, AllocError>
        ensures { IfOk result (λ trades. trades ≡ self.now) }
    {
        let rows = self.rows.iter().copied().collect(alloc)?;
        Ok(Trades {
            rows,
            totals: self.totals,
            rising: self.rising,
        })
    }
}

// Whether a trade has this match number and isn't broken.
fn is_unbroken(trade: &TradeRow, match_no: u64) -> bool
    ensures { result ≡ is_unbroken_trade match_no trade.now }
{
    trade.match_no == match_no && !trade.broken
}

// Whether one of these trades has this match number and isn't broken.
fn any_unbroken(rows: &[TradeRow], match_no: u64) -> bool
    ensures { result ≡ list_any (is_unbroken_trade match_no) rows.now }
{
    rows.iter().any(|trade| is_unbroken(trade, match_no))
}

// Whether match numbers never fall with this trade after the others, given whether they never fall without it.
fn rises_with(rows: &[TradeRow], rising: bool, trade: &TradeRow) -> bool
    requires { IsRising rows.now rising }
    ensures { IsRising (rows.now ++ trade.now ∷ []) result }
{
    match rows.last() {
        Some(last) => rising && last.match_no <= trade.match_no,
        None => true,
    }
}

// Where trades with this match number can stand: from the first index up to the second. Where match numbers never fall,
// each trade there has it.
fn indices_of(rows: &[TradeRow], rising: bool, match_no: u64) -> (usize, usize)
    requires { IsRising rows.now rising }
    ensures order { result.0 ≤ result.1 }
    ensures bound { result.1 ≤ length rows.now }
    ensures before { All (IsOther match_no) (take result.0 rows.now) }
    ensures after { All (IsOther match_no) (drop result.1 rows.now) }
    ensures narrow { IsTrue rising → All (IsOfNumber match_no) (slice_range rows.now result.0 result.1) }
{
    if !rising {
        return (0, rows.len());
    }
    let start = rows.partition_point(|trade| trade.match_no < match_no);
    let rest = &rows[start..];
    let count = rest.partition_point(|trade| trade.match_no <= match_no);
    (start, start + count)
}
