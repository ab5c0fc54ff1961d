//! Orders, and what a book shows of them.
ghost use Rattle.std.specs.Prelude.{◌≡◌, ◌^◌, ◌<◌, slice_index};
ghost use Rattle.itch_table.specs.Levels.{top_from};
ghost use Rattle.itch_table.specs.Shows.{words_of};
ghost use Rattle.itch_table.specs.World.{order_under, row_of};

/// Which side of the book an order is on.
///
/// Nasdaq TotalView-ITCH 5.0, "Add Order Message".
#[derive(Debug, Clone, Copy, PartialEq, Eq)]
pub enum Side {
    /// A bid, `B` in messages.
    Buy,
    /// An ask, `S` in messages.
    Sell,
}

/// A live order. Its fields stand from the widest to the narrowest, so that it takes 24 bytes.
///
/// Nasdaq TotalView-ITCH 5.0, "Add Order Message".
#[derive(Debug, Clone, Copy, PartialEq, Eq)]
pub struct Order {
    /// Its reference, which no other order of its stock has on the day.
    pub reference: u64,
    /// The shares that remain.
    pub shares: u32,
    /// The price, in 1/10,000 of a currency unit.
    pub price: u32,
    /// Its side of the book.
    pub side: Side,
    /// The market participant, where the order was added with one.
    pub attribution: Option<[u8; 4]>,
}

impl Order {
    /// The order without its reference.
    pub fn row(self) -> OrderRow
        ensures { result ≡ row_of self }
    {
        OrderRow {
            side: self.side,
            shares: self.shares,
            price: self.price,
            attribution: self.attribution,
        }
    }
}

/// The orders of one side at one price, taken together.
#[derive(Debug, Clone, Copy, PartialEq, Eq)]
pub struct Level {
    /// The price, in 1/10,000 of a currency unit.
    pub price: u32,
    /// The shares of its orders.
    pub shares: u64,
}

/// The best bid and the best ask of a stock, with the shares there; zeros where a side is empty.
#[derive(Debug, Clone, Copy, PartialEq, Eq)]
pub struct Top {
    /// The highest price of a bid, in 1/10,000 of a currency unit.
    pub bid_price: u32,
    /// The shares at that bid.
    pub bid_shares: u64,
    /// The lowest price of an ask, in 1/10,000 of a currency unit.
    pub ask_price: u32,
    /// The shares at that ask.
    pub ask_shares: u64,
}

impl Top {
    /// The top that these best levels make.
    pub fn of(bid: Level, ask: Level) -> Top
        ensures { result ≡ top_from bid ask }
    {
        Top {
            bid_price: bid.price,
            bid_shares: bid.shares,
            ask_price: ask.price,
            ask_shares: ask.shares,
        }
    }

    /// The four words that show this top after a number of messages: the number; the bid's price times 2^32 and the
    /// ask's price, in one word; the bid's shares; and the ask's.
    pub fn to_words(self, message: u32) -> [u64; 4]
        ensures { result ≡ words_of message self }
    {
        let prices = u64::from(self.bid_price) * (1 << 32) + u64::from(self.ask_price);
        [u64::from(message), prices, self.bid_shares, self.ask_shares]
    }

    /// The number of messages and the top that four words show, where the first of them fits 32 bits.
    pub fn from_words(words: &[u64; 4]) -> (u32, Top)
        requires { slice_index words.now 0 < 2 ^ 32 }
        ensures { words_of result.0 result.1 ≡ words.now }
    {
        let [message, prices, bid_shares, ask_shares] = *words;
        let top = Top {
            bid_price: (prices / (1 << 32)) as u32,
            bid_shares,
            ask_price: (prices % (1 << 32)) as u32,
            ask_shares,
        };
        (message as u32, top)
    }
}

/// Where an order stands among the orders of all stocks.
#[derive(Debug, Clone, Copy, PartialEq, Eq, PartialOrd, Ord)]
pub(crate) struct OrderKey {
    pub locate: u16,
    pub reference: u64,
}

/// A live order without its reference, under which rows keep it.
///
/// Nasdaq TotalView-ITCH 5.0, "Add Order Message".
#[derive(Debug, Clone, Copy, PartialEq, Eq)]
pub struct OrderRow {
    /// The shares that remain.
    pub shares: u32,
    /// The price, in 1/10,000 of a currency unit.
    pub price: u32,
    /// Its side of the book.
    pub side: Side,
    /// The market participant, where the order was added with one.
    pub attribution: Option<[u8; 4]>,
}

impl OrderRow {
    /// The order with its reference.
    pub fn under(self, reference: u64) -> Order
        ensures { result ≡ order_under reference self }
    {
        Order {
            reference,
            side: self.side,
            shares: self.shares,
            price: self.price,
            attribution: self.attribution,
        }
    }
}

/// A live order as a look-up found it, so that it isn't looked for again.
#[derive(Debug, Clone, Copy, PartialEq, Eq)]
pub struct Found {
    /// The order without its reference.
    pub row: OrderRow,
    /// Where it stood. It is a hint alone: with any other the order is found all the same, by a search.
    pub hint: usize,
}
