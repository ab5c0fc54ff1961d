//! What a machine of one stock says, and what those of the two stocks say after their day.
use itch_table::{Level, Order, Side, Status, Top, Totals};
use std::alloc::Allocator;
use stock_machine::Stock;
use test_support::{AAPL, MSFT, Ticker};

/// All that a machine says of its stock, of each list its length and its first entry.
#[derive(Debug, Clone, Copy, PartialEq)]
pub struct Said {
    pub locate: u16,
    pub steps: u32,
    pub top: Top,
    pub totals: Totals,
    pub status: Status,
    /// The order under reference 7.
    pub order: Option<Order>,
    /// Whether that reference is spent.
    pub spent: bool,
    /// The shares of bids at the price of the best.
    pub level: u64,
    pub orders: (usize, Option<Order>),
    pub bids: (usize, Option<Level>),
    pub asks: (usize, Option<Level>),
}

// The length of a side's levels, and the first of them; none where memory is refused.
fn levels_of<A: Allocator + Copy>(
    alloc: A,
    stock: &Stock<A>,
    side: Side,
) -> Option<(usize, Option<Level>)> {
    let levels = stock.levels(alloc, side).ok()?;
    Some((levels.len(), levels.first().copied()))
}

/// What a machine says; none where memory is refused.
pub fn said_by<A: Allocator + Copy>(alloc: A, stock: &Stock<A>) -> Option<Said> {
    let orders = stock.orders(alloc).ok()?;
    let top = stock.top();
    Some(Said {
        locate: stock.locate(),
        steps: stock.steps(),
        top,
        totals: stock.totals(),
        status: stock.status(),
        order: stock.order(7),
        spent: stock.spent(7),
        level: stock.level(Side::Buy, top.bid_price),
        orders: (orders.len(), orders.first().copied()),
        bids: levels_of(alloc, stock, Side::Buy)?,
        asks: levels_of(alloc, stock, Side::Sell)?,
    })
}

// Order 7 as a bid.
fn bid_7(price: u32, shares: u32) -> Order {
    Order {
        reference: 7,
        side: Side::Buy,
        shares,
        price,
        attribution: None,
    }
}

// What is known of a stock after this many messages, of which the first is its directory message.
fn status_after(stock: Ticker, steps: u32) -> Status {
    Status {
        directory: if steps > 0 {
            Some(stock.directory_row())
        } else {
            None
        },
        trading: None,
        regsho: None,
    }
}

/// What a machine says after this many messages, of which the first is the stock's directory message and the second
/// adds order 7, where this one is a bid of these shares, and where there is none if these are 0.
pub fn with_bid(stock: Ticker, steps: u32, price: u32, shares: u32) -> Said {
    let level = Level {
        price,
        shares: u64::from(shares),
    };
    let (count, order, bid) = if shares > 0 {
        (1, Some(bid_7(price, shares)), Some(level))
    } else {
        (0, None, None)
    };
    Said {
        locate: stock.locate,
        steps,
        top: Top {
            bid_price: price,
            bid_shares: level.shares,
            ask_price: 0,
            ask_shares: 0,
        },
        totals: Totals::NONE,
        status: status_after(stock, steps),
        order,
        spent: steps >= 2,
        level: level.shares,
        orders: (count, order),
        bids: (count, bid),
        asks: (0, None),
    }
}

/// What the machines of two stocks say after the day. The third one took the delete of a stock that isn't listed.
pub fn after_two_stocks() -> [Said; 3] {
    [
        with_bid(AAPL, 4, 0, 0),
        with_bid(MSFT, 2, 200, 20),
        Said {
            locate: 3,
            steps: 1,
            ..with_bid(AAPL, 0, 0, 0)
        },
    ]
}
