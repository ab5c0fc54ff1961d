//! Messages that may need an order or a trade more, and lists that take memory.
use crate::messages::AAPL;
use itch_layouts::Msg;
use itch_table::Side;

/// A kind of message that may need an order or a trade more.
#[derive(Debug, Clone, Copy, PartialEq, Eq)]
pub enum Growing {
    /// A new order.
    Add,
    /// A new order with a market participant.
    AddMpid,
    /// An execution at the price of the order.
    Execute,
    /// An execution at a price of its own.
    ExecutePrice,
    /// A replacement.
    Replace,
    /// A trade of an order that wasn't displayed.
    Trade,
    /// A cross.
    Cross,
}

/// All of these kinds.
pub const GROWING: [Growing; 7] = [
    Growing::Add,
    Growing::AddMpid,
    Growing::Execute,
    Growing::ExecutePrice,
    Growing::Replace,
    Growing::Trade,
    Growing::Cross,
];

impl Growing {
    /// Message `number` of the kind, on the stock of locate code 1. An execution takes no shares off order 1, and a
    /// replacement is of the order with the number.
    pub fn message(self, number: u8) -> Msg {
        let reference = u64::from(number);
        match self {
            Growing::Add => AAPL.add(reference, b'B', 10, 100),
            Growing::AddMpid => AAPL.add_mpid(reference, b'S', 10, 200),
            Growing::Execute => AAPL.execute(1, 0, reference),
            Growing::ExecutePrice => AAPL.execute_price(1, 0, reference, b'Y', 5),
            Growing::Replace => AAPL.replace(reference, 1_000 + reference, 10, 300),
            Growing::Trade => AAPL.trade(b'B', 1, 1, reference),
            Growing::Cross => AAPL.cross(1, 1, reference),
        }
    }
}

/// A list that a book or a machine makes, which takes memory.
#[derive(Debug, Clone, Copy, PartialEq, Eq)]
pub enum Listing {
    /// The live orders.
    Orders,
    /// The levels of a side.
    Levels(Side),
}

/// All of these lists.
pub const LISTINGS: [Listing; 3] = [
    Listing::Orders,
    Listing::Levels(Side::Buy),
    Listing::Levels(Side::Sell),
];
