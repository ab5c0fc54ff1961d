//! What the machine of a stock says.
use itch_layouts::Directory;
use itch_table::{Level, Order, Side, Status, Top, Totals};
use std::alloc::Allocator;
use std::test::Fail;
use stock_machine::Stock;

/// All that the machine of a stock says, where it has at most two orders, and a level on each side.
#[derive(Debug, Clone, Copy, PartialEq)]
pub struct Shown {
    locate: u16,
    steps: u32,
    top: Top,
    totals: Totals,
    status: Status,
    // The first three orders, how many of the references of the tests' days are spent, and the first two levels of
    // each side.
    orders: [Option<Order>; 3],
    spent: usize,
    bids: [Option<Level>; 2],
    asks: [Option<Level>; 2],
}

/// What the machine of a stock says.
pub fn shown_by<A: Allocator + Copy>(alloc: A, stock: &Stock<A>) -> Result<Shown, Fail> {
    let orders = stock.orders(alloc)?;
    let bids = stock.levels(alloc, Side::Buy)?;
    let asks = stock.levels(alloc, Side::Sell)?;
    Ok(Shown {
        locate: stock.locate(),
        steps: stock.steps(),
        top: stock.top(),
        totals: stock.totals(),
        status: stock.status(),
        orders: [
            orders.get(0).copied(),
            orders.get(1).copied(),
            orders.get(2).copied(),
        ],
        spent: [1, 2, 7]
            .iter()
            .filter(|reference| stock.spent(**reference))
            .count(),
        bids: [bids.get(0).copied(), bids.get(1).copied()],
        asks: [asks.get(0).copied(), asks.get(1).copied()],
    })
}

// An order's level, where it is the only one of its side.
fn level_of(order: Order) -> Level {
    Level {
        price: order.price,
        shares: u64::from(order.shares),
    }
}

// The best level of a side without orders.
const NO_LEVEL: Level = Level {
    price: 0,
    shares: 0,
};

/// What the machine of a stock says after this many of its messages, without trades, where it has this directory row
/// and these orders. An ask comes only beside a bid of a lower reference. The second message adds the first order.
pub fn stock_with(
    locate: u16,
    steps: u32,
    directory: Option<Directory>,
    bid: Option<Order>,
    ask: Option<Order>,
) -> Shown {
    let bids = bid.map(level_of);
    let asks = ask.map(level_of);
    let spent = match ask {
        Some(_) => 2,
        None if directory.is_some() && steps >= 2 => 1,
        None => 0,
    };
    Shown {
        locate,
        steps,
        top: Top::of(bids.unwrap_or(NO_LEVEL), asks.unwrap_or(NO_LEVEL)),
        totals: Totals {
            trades: 0,
            shares: 0,
            notional: 0,
            unprinted: 0,
        },
        status: Status {
            directory,
            trading: None,
            regsho: None,
        },
        orders: [bid, ask, None],
        spent,
        bids: [bids, None],
        asks: [asks, None],
    }
}

/// A bid of no market participant.
pub fn bid(reference: u64, shares: u32, price: u32) -> Order {
    Order {
        reference,
        side: Side::Buy,
        shares,
        price,
        attribution: None,
    }
}
