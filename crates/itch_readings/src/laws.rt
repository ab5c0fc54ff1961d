//! Laws of the definitions alone.
ghost use Rattle.itch_readings.specs.TradeLaws.{AllTradesAreRows, StockTradesAreRows, TotalsAreOfTrades};

/// The trades that are listed are the trade rows of the written table after the day, in their order: each with its stock,
/// its match number, its shares, its price and whether it is printed, and broken exactly where the line names a message that
/// broke it. That holds of those of all stocks (`all`), and of those of a stock that is named (`stock`).
///
/// So the sums over a stock's trades that no message broke, printed ones and others apart, are its totals (`totals`).
#[tactic(auto, using(crate::proofs::TradeRows::trades_are_rows))]
pub fn trades_are_rows()
    ensures all { AllTradesAreRows }
    ensures stock { StockTradesAreRows }
    ensures totals { TotalsAreOfTrades }
{}
