//! The trades of stocks, as messages make and break them.
ghost use Rattle.std.specs.Prelude.{◌≡◌};
ghost use Rattle.itch_layouts.specs.Shapes.{shape_of};
ghost use Rattle.itch_table.specs.Table.{side_of};
ghost use Rattle.itch_readings.specs.Trades.{crossed, event_by, event_by_message, executed, executed_at_price, not_crossed};

use itch_layouts::{Cross, Execute, ExecutePrice, Msg, NonCrossTrade, Shape, read_msg};
use itch_table::{Order, Outcome, Side};

/// Which message it is.
#[derive(Debug, Clone, Copy, PartialEq, Eq)]
pub(crate) struct Stamp {
    /// Its number in the day, counted from 1.
    pub message: u32,
    /// When it was made, in nanoseconds since midnight.
    pub time: u64,
    /// The locate code of its stock.
    pub locate: u16,
}

/// What makes a trade (Nasdaq TotalView-ITCH 5.0, "Order Executed Message", "Order Executed With Price Message" and "Trade
/// Messages").
#[derive(Debug, Clone, Copy, PartialEq, Eq)]
pub(crate) enum TradeKind {
    /// An order is executed at its own price: type `E`.
    Executed,
    /// An order is executed at another price: type `C`.
    ExecutedAtPrice,
    /// An order that isn't displayed is executed: type `P`.
    NotCrossed,
    /// A cross: type `Q`.
    Crossed,
}

/// A trade of a stock.
#[derive(Debug, Clone, Copy, PartialEq, Eq)]
pub(crate) struct Trade {
    /// The message that made it.
    pub at: Stamp,
    /// How it was made.
    pub kind: TradeKind,
    /// The side of the order that was executed; none of a cross.
    pub side: Option<Side>,
    /// The price, in 1/10,000 of a currency unit.
    pub price: u32,
    /// The shares that were traded.
    pub shares: u64,
    /// The match number, which several trades may share.
    pub match_no: u64,
    /// Whether it counts in the volume that is reported.
    pub printed: bool,
    /// The number of the message that broke it, as far as later messages are known.
    pub broken: Option<u32>,
}

/// A message that breaks trades (Nasdaq TotalView-ITCH 5.0, "Broken Trade"): all unbroken ones of its stock with a match
/// number, which is a rule of this project.
#[derive(Debug, Clone, Copy, PartialEq, Eq)]
pub(crate) struct TradeBreak {
    /// The message.
    pub at: Stamp,
    /// The match number.
    pub match_no: u64,
}

/// What a message does to the trades of its stock.
#[derive(Debug, Clone, Copy, PartialEq, Eq)]
pub(crate) enum TradeEvent {
    /// It makes one.
    Made(Trade),
    /// It breaks some.
    Broke(TradeBreak),
}

// The side that a byte of a message says.
fn side_in(byte: u8) -> Side
    ensures { result ≡ side_of byte }
{
    if byte == b'B' { Side::Buy } else { Side::Sell }
}

// The trade of an execution at the price of the order.
fn executed(at: Stamp, order: Order, body: Execute) -> Trade
    ensures { result ≡ executed at order body }
{
    Trade {
        at,
        kind: TradeKind::Executed,
        side: Some(order.side),
        price: order.price,
        shares: u64::from(body.shares),
        match_no: body.match_no,
        printed: true,
        broken: None,
    }
}

// The trade of an execution at a price of its own.
fn executed_at_price(at: Stamp, order: Order, body: ExecutePrice) -> Trade
    ensures { result ≡ executed_at_price at order body }
{
    Trade {
        at,
        kind: TradeKind::ExecutedAtPrice,
        side: Some(order.side),
        price: body.price,
        shares: u64::from(body.shares),
        match_no: body.match_no,
        printed: body.printable == b'Y',
        broken: None,
    }
}

// The trade of an order that isn't displayed.
fn not_crossed(at: Stamp, body: NonCrossTrade) -> Trade
    ensures { result ≡ not_crossed at body }
{
    Trade {
        at,
        kind: TradeKind::NotCrossed,
        side: Some(side_in(body.side)),
        price: body.price,
        shares: u64::from(body.shares),
        match_no: body.match_no,
        printed: true,
        broken: None,
    }
}

// The trade of a cross.
fn crossed(at: Stamp, body: Cross) -> Trade
    ensures { result ≡ crossed at body }
{
    Trade {
        at,
        kind: TradeKind::Crossed,
        side: None,
        price: body.price,
        shares: body.shares,
        match_no: body.match_no,
        printed: true,
        broken: None,
    }
}

// What an applied message does to the trades of its stock, by the order that its first reference named before it.
fn event_by_message(at: Stamp, named: Option<Order>, message: Msg) -> Option<TradeEvent>
    ensures { result ≡ event_by_message at named message }
{
    match message {
        Msg::Execute(_, body) => named.map(|order| TradeEvent::Made(executed(at, order, body))),
        Msg::ExecutePrice(_, body) => {
            named.map(|order| TradeEvent::Made(executed_at_price(at, order, body)))
        }
        Msg::Trade(_, body) => Some(TradeEvent::Made(not_crossed(at, body))),
        Msg::Cross(_, body) => Some(TradeEvent::Made(crossed(at, body))),
        Msg::Broken(_, body) => Some(TradeEvent::Broke(TradeBreak {
            at,
            match_no: body.match_no,
        })),
        _ => None,
    }
}

/// What a message of a stock does to the stock's trades, by its number in the day, the stock's locate code, the order that
/// its first reference named before it, and its outcome. None where it does nothing to them.
pub(crate) fn event_in(
    number: u32,
    locate: u16,
    named: Option<Order>,
    outcome: Outcome,
    payload: &[u8],
) -> Option<TradeEvent>
    ensures { result ≡ event_by number locate named outcome (shape_of payload.now) }
{
    match (outcome, read_msg(payload)) {
        (Outcome::Applied, Shape::Known(message)) => {
            let at = Stamp {
                message: number,
                time: message.head().time.get(),
                locate,
            };
            event_by_message(at, named, message)
        }
        _ => None,
    }
}
