//! Trades, and the sums over them.
ghost use Rattle.std.specs.Prelude.{◌≡◌, ◌+◌, ◌<◌, ◌^◌, ℕ, length, map};
ghost use Rattle.std.specs.List.{list_any};
ghost use Rattle.itch_table.specs.RunningTotals.{Within, HasRoom, Includes, plus_trade, totals_alone};
ghost use Rattle.itch_table.specs.Trades.{broken_at, is_unbroken, totals_of, trades_under};

use crate::status::Totals;

/// An execution, a trade of non-displayed orders or a cross. Among those of all stocks it stands with the locate code
/// of its stock.
///
/// Nasdaq TotalView-ITCH 5.0, "Order Executed Message", "Trade Messages" and "Broken Trade".
#[derive(Debug, Clone, Copy, PartialEq, Eq)]
pub struct TradeRow {
    /// The match number, which several trades may share.
    pub match_no: u64,
    /// The shares that were traded.
    pub shares: u64,
    /// The price, in 1/10,000 of a currency unit.
    pub price: u32,
    /// Whether it counts in the volume that is reported.
    pub printed: bool,
    /// Whether a later message broke it.
    pub broken: bool,
}

// Whether a trade is the stock's, has this match number and isn't broken.
fn is_unbroken(row: &(u16, TradeRow), locate: u16, match_no: u64) -> bool
    ensures { result ≡ is_unbroken locate match_no row.now }
{
    row.0 == locate && row.1.match_no == match_no && !row.1.broken
}

/// Whether a stock has an unbroken trade with this match number.
pub(crate) fn has_unbroken(rows: &[(u16, TradeRow)], locate: u16, match_no: u64) -> bool
    ensures { result ≡ list_any (is_unbroken locate match_no) rows.now }
{
    rows.iter().any(|row| is_unbroken(row, locate, match_no))
}

// The trade, broken where it is the stock's and has this match number.
fn broken_row(row: (u16, TradeRow), locate: u16, match_no: u64) -> (u16, TradeRow)
    ensures { result ≡ broken_at locate match_no row }
{
    if !is_unbroken(&row, locate, match_no) {
        return row;
    }
    let (locate, trade) = row;
    (
        locate,
        TradeRow {
            broken: true,
            ..trade
        },
    )
}

/// Breaks all trades of a stock with this match number.
pub(crate) fn break_trades(rows: &mut [(u16, TradeRow)], locate: u16, match_no: u64)
    ensures { rows.new ≡ map (broken_at locate match_no) rows.old }
{
    for row in rows.iter_mut() {
        *row = broken_row(*row, locate, match_no);
    }
}

impl TradeRow {
    // The totals of this trade alone.
    fn totals(&self) -> Totals
        ensures alone { result ≡ totals_alone self.now }
        ensures within { Within result 1 }
    {
        let shares = u128::from(self.shares);
        if self.broken {
            Totals::NONE
        } else if self.printed {
            Totals {
                trades: 1,
                shares,
                notional: shares * u128::from(self.price),
                unprinted: 0,
            }
        } else {
            Totals {
                unprinted: shares,
                ..Totals::NONE
            }
        }
    }
}

impl Totals {
    /// The totals of no trades.
    pub const NONE: Totals = Totals {
        trades: 0,
        shares: 0,
        notional: 0,
        unprinted: 0,
    };

    /// The totals with one trade more, which adds nothing where it is broken.
    pub fn with_trade(self, trade: &TradeRow) -> Totals
        requires { HasRoom self }
        ensures plus { result ≡ plus_trade self trade.now }
        ensures within { (count : ℕ) → Within self count → Within result (count + 1) }
    {
        let alone = trade.totals();
        Totals {
            trades: self.trades + alone.trades,
            shares: self.shares + alone.shares,
            notional: self.notional + alone.notional,
            unprinted: self.unprinted + alone.unprinted,
        }
    }

    /// The totals without one of the trades that they are over.
    pub fn without_trade(self, trade: &TradeRow) -> Totals
        requires { Includes self trade.now }
        ensures { plus_trade result trade.now ≡ self }
    {
        let alone = trade.totals();
        Totals {
            trades: self.trades - alone.trades,
            shares: self.shares - alone.shares,
            notional: self.notional - alone.notional,
            unprinted: self.unprinted - alone.unprinted,
        }
    }
}

/// The totals of a stock's trades, of fewer than 2^32 rows.
pub(crate) fn totals_under(rows: &[(u16, TradeRow)], locate: u16) -> Totals
    requires { length rows.now < 2 ^ 32 }
    ensures { result ≡ totals_of (trades_under locate rows.now) }
{
    let mut totals = Totals::NONE;
    for (under, trade) in rows {
        if *under == locate {
            totals = totals.with_trade(trade);
        }
    }
    totals
}
