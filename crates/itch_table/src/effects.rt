//! The rows that effects of the table make, and the effects that change what is known of a stock.
ghost use Rattle.std.specs.Prelude.{◌≡◌, Some, None};
ghost use Rattle.itch_table.specs.World.{stock_row};
ghost use Rattle.itch_table.specs.Held.{Holds, on_world};
ghost use Rattle.itch_table.specs.Table.{set_regsho, set_trading, side_of, trade_of, with_directory_row};

use crate::order::{OrderRow, Side};
use crate::status::{StockRow, Trading};
use crate::store::Store;
use crate::trades::TradeRow;
use itch_layouts::{Add, AddMpid, Directory, TradingAction};

// The side that a byte of a message says, which is `B` or `S` where the checks pass.
fn side_from(byte: u8) -> Side
    ensures { result ≡ side_of byte }
{
    if byte == b'B' { Side::Buy } else { Side::Sell }
}

/// A trade that isn't broken.
pub(crate) fn trade(match_no: u64, shares: u64, price: u32, printed: bool) -> TradeRow
    ensures { result ≡ trade_of match_no shares price printed }
{
    TradeRow {
        match_no,
        shares,
        price,
        printed,
        broken: false,
    }
}

/// A directory row, with what else is known of the stock.
pub(crate) fn with_directory(known: Option<StockRow>, directory: &Directory) -> StockRow
    ensures { result ≡ with_directory_row known directory.now }
{
    match known {
        Some(known) => StockRow {
            directory: *directory,
            ..known
        },
        None => StockRow {
            directory: *directory,
            trading: None,
            regsho: None,
        },
    }
}

/// The trading state that a message says.
pub(crate) fn state_of(action: &TradingAction) -> Trading
    ensures { result ≡ record {
      state = action.now.state;
      reserved = action.now.reserved;
      reason = action.now.reason;
    } }
{
    let reason = action.reason;
    Trading {
        state: action.state,
        reserved: action.reserved,
        reason,
    }
}

/// Sets a stock's trading state.
pub(crate) fn set_trading<S: Store>(store: &mut S, locate: u16, state: Trading)
    requires { Holds (S.held store.old) locate }
    ensures { S.held store.new ≡
        on_world (λ w. set_trading (stock_row w locate) w locate state) (S.held store.old) }
{
    if let Some(known) = store.stock(locate) {
        let row = StockRow {
            trading: Some(state),
            ..*known
        };
        store.update_stock(locate, row);
    }
}

/// Sets a stock's short sale action.
pub(crate) fn set_regsho<S: Store>(store: &mut S, locate: u16, action: u8)
    requires { Holds (S.held store.old) locate }
    ensures { S.held store.new ≡
        on_world (λ w. set_regsho (stock_row w locate) w locate action) (S.held store.old) }
{
    if let Some(known) = store.stock(locate) {
        let row = StockRow {
            regsho: Some(action),
            ..*known
        };
        store.update_stock(locate, row);
    }
}

/// The row of a new order without attribution.
pub(crate) fn row_of_add(add: &Add) -> OrderRow
    ensures { result ≡ record {
      side = side_of add.now.side;
      shares = add.now.shares;
      price = add.now.price;
      attribution = None;
    } }
{
    OrderRow {
        side: side_from(add.side),
        shares: add.shares,
        price: add.price,
        attribution: None,
    }
}

/// The row of a new order with attribution.
pub(crate) fn row_of_add_mpid(add: &AddMpid) -> OrderRow
    ensures { result ≡ record {
      side = side_of add.now.side;
      shares = add.now.shares;
      price = add.now.price;
      attribution = Some add.now.attribution;
    } }
{
    let attribution = add.attribution;
    OrderRow {
        side: side_from(add.side),
        shares: add.shares,
        price: add.price,
        attribution: Some(attribution),
    }
}
