//! Rows that the table can be followed over.
ghost use Rattle.std.specs.Prelude.{◌≡◌, ◌≤◌, ◌<◌, false, Some, None, map, IsSome, OnOk, OnErr};
ghost use Rattle.std.specs.List.{list_any};
ghost use Rattle.std.specs.Option.{option_copied};
ghost use Rattle.itch_table.specs.World.{is_fresh, is_spent, live, stock_row};
ghost use Rattle.itch_table.specs.Held.{Held, Holds, on_world};
ghost use Rattle.itch_table.specs.Machine.{row_found};
ghost use Rattle.itch_table.specs.Table.{less_shares, with_new_order, with_replaced, with_stock, with_trade, without_order};
ghost use Rattle.itch_table.specs.Trades.{broken_at, is_unbroken};

use crate::order::{Found, OrderRow};
use crate::status::StockRow;
use crate::trades::TradeRow;
use std::alloc::AllocError;

/// Rows that the table of instructions can be followed over: those of all stocks, or of one.
///
/// Each call is one step of an effect, or a look-up of a check. An error leaves the rows as they were.
pub trait Store {
    /// The rows as a world, and whose they are.
    ghost held: { Self → Held };

    /// There may be an order and a trade more, so that no count of them wraps.
    ghost has_room: { Self → Type 0 };

    /// What is known of a stock that has a directory row.
    fn stock(&self, locate: u16) -> Option<&StockRow>
        requires { Holds (held self.now) locate }
        ensures { option_copied result ≡ stock_row (held self.now).world locate };

    /// The order that lives under a reference.
    fn order(&self, locate: u16, reference: u64) -> Option<Found>
        requires { Holds (held self.now) locate }
        ensures { row_found result ≡ live (held self.now).world locate reference };

    /// Whether no order of a stock lives under a reference, and none has had it.
    fn is_fresh(&self, locate: u16, reference: u64) -> bool
        requires { Holds (held self.now) locate }
        ensures { result ≡ is_fresh (held self.now).world locate reference };

    /// Whether a stock has an unbroken trade with this match number.
    fn has_unbroken(&self, locate: u16, match_no: u64) -> bool
        requires { Holds (held self.now) locate }
        ensures { result ≡ list_any (is_unbroken locate match_no) (held self.now).world.trades };

    /// Sets the last event among the rows of all stocks. Those of one stock have none, and stay.
    fn set_event(&mut self, event: u8)
        ensures all { (held self.old).own ≡ None →
            held self.new ≡ on_world (λ w. record w { event = Some event }) (held self.old) }
        ensures one { IsSome (held self.old).own → held self.new ≡ held self.old };

    /// Sets what is known of a stock, which may need a new row among those of all stocks.
    fn set_stock(&mut self, locate: u16, row: StockRow) -> Result<(), AllocError>
        requires { Holds (held self.old) locate }
        ensures ok { OnOk result (held self.new ≡ on_world (λ w. with_stock w locate row) (held self.old)) }
        ensures err { OnErr result (held self.new ≡ held self.old) }
        ensures all { OnErr result ((held self.old).own ≡ None) };

    /// Sets what is known of a stock that has a directory row, which takes no memory.
    fn update_stock(&mut self, locate: u16, row: StockRow)
        requires here { Holds (held self.old) locate }
        requires known { IsSome (stock_row (held self.old).world locate) }
        ensures { held self.new ≡ on_world (λ w. with_stock w locate row) (held self.old) };

    /// Adds an order under a reference that no order of the stock has had.
    fn add_order(&mut self, locate: u16, reference: u64, row: OrderRow) -> Result<(), AllocError>
        requires here { Holds (held self.old) locate }
        requires new { live (held self.old).world locate reference ≡ None }
        requires unspent { is_spent (held self.old).world locate reference ≡ false }
        requires some { 0 < row.shares }
        requires room { has_room self.old }
        ensures ok { OnOk result (
            held self.new ≡ on_world (λ w. with_new_order w locate reference row) (held self.old)) }
        ensures err { OnErr result (held self.new ≡ held self.old) };

    /// Takes shares off an order that a check has found. The order is gone where none are left.
    fn reduce_order(&mut self, locate: u16, reference: u64, found: Found, shares: u32)
        requires here { Holds (held self.old) locate }
        requires live { live (held self.old).world locate reference ≡ Some found.row }
        requires enough { shares ≤ found.row.shares }
        ensures { held self.new ≡
            on_world (λ w. less_shares w locate reference found.row shares) (held self.old) };

    /// Removes an order that a check has found.
    fn remove_order(&mut self, locate: u16, reference: u64, found: Found)
        requires here { Holds (held self.old) locate }
        requires live { live (held self.old).world locate reference ≡ Some found.row }
        ensures { held self.new ≡ on_world (λ w. without_order w locate reference) (held self.old) };

    /// Puts an order under a reference that no order of the stock has had in the place of one that a check has found,
    /// which is gone then, with its side and attribution.
    fn replace_order(
        &mut self,
        locate: u16,
        old: u64,
        found: Found,
        new: u64,
        shares: u32,
        price: u32,
    ) -> Result<(), AllocError>
        requires here { Holds (held self.old) locate }
        requires live { live (held self.old).world locate old ≡ Some found.row }
        requires new { live (held self.old).world locate new ≡ None }
        requires unspent { is_spent (held self.old).world locate new ≡ false }
        requires some { 0 < shares }
        ensures ok { OnOk result (
            held self.new ≡ on_world (λ w. with_replaced w locate old new shares price) (held self.old)) }
        ensures err { OnErr result (held self.new ≡ held self.old) };

    /// Adds a trade after the others.
    fn add_trade(&mut self, locate: u16, trade: TradeRow) -> Result<(), AllocError>
        requires here { Holds (held self.old) locate }
        requires room { has_room self.old }
        ensures ok { OnOk result (held self.new ≡ on_world (λ w. with_trade w locate trade) (held self.old)) }
        ensures err { OnErr result (held self.new ≡ held self.old) };

    /// Breaks all trades of a stock with this match number.
    fn break_trades(&mut self, locate: u16, match_no: u64)
        requires { Holds (held self.old) locate }
        ensures { held self.new ≡
            on_world (λ w. record w { trades = map (broken_at locate match_no) w.trades }) (held self.old) };
}
