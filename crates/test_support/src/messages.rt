//! Messages by their fields. Each has tracking number and time 0, and the bodies are those of Nasdaq TotalView-ITCH
//! 5.0, "Message Formats".
use itch_layouts::{
    Add, AddMpid, Broken, Cancel, Collar, Cross, Delete, Directory, Execute, ExecutePrice, Head,
    Imbalance, Msg, Nanos, NonCrossTrade, Operational, Participant, Regsho, Replace, Retail,
    System, TradingAction, write_msg,
};
use std::alloc::{AllocError, Allocator};

/// A stock of a day, whose methods are its messages.
#[derive(Clone, Copy)]
pub struct Ticker {
    /// Its locate code.
    pub locate: u16,
    /// Its symbol, padded on the right with spaces.
    pub symbol: [u8; 8],
}

/// The stock of locate code 1 in most tests.
pub const AAPL: Ticker = Ticker {
    locate: 1,
    symbol: *b"AAPL    ",
};

/// The stock of locate code 2 in most tests.
pub const MSFT: Ticker = Ticker {
    locate: 2,
    symbol: *b"MSFT    ",
};

/// The head of a message under a locate code, with tracking number and time 0.
pub fn head(locate: u16) -> Head {
    Head {
        locate,
        tracking: 0,
        time: Nanos::new(0).unwrap(),
    }
}

/// A system event under a locate code.
pub fn system(locate: u16, event: u8) -> Msg {
    Msg::System(head(locate), System { event })
}

/// The payload of a message.
pub fn payload_of<A: Allocator>(alloc: A, msg: &Msg) -> Result<Vec<u8, A>, AllocError> {
    let mut payload = Vec::new(alloc);
    write_msg(msg, &mut payload)?;
    Ok(payload)
}

impl Ticker {
    /// Its directory row.
    pub fn directory_row(self) -> Directory {
        let stock = self.symbol;
        Directory {
            stock,
            category: b'Q',
            status: b'N',
            lot: 100,
            lots_only: b'N',
            issue_class: b'C',
            issue_subtype: *b"Z ",
            authenticity: b'P',
            short_sale: b'N',
            ipo: b'N',
            luld: b'1',
            etp: b'N',
            leverage: 0,
            inverse: b'N',
        }
    }

    /// Its directory message.
    pub fn directory(self) -> Msg {
        Msg::Directory(head(self.locate), self.directory_row())
    }

    /// A trading state with its reason.
    pub fn trading(self, state: u8, reason: [u8; 4]) -> Msg {
        let stock = self.symbol;
        let body = TradingAction {
            stock,
            state,
            reserved: b' ',
            reason,
        };
        Msg::Trading(head(self.locate), body)
    }

    /// A short sale restriction.
    pub fn regsho(self, action: u8) -> Msg {
        let stock = self.symbol;
        let body = Regsho { stock, action };
        Msg::Regsho(head(self.locate), body)
    }

    /// A bid (`B`) or an ask (`S`).
    pub fn add(self, reference: u64, side: u8, shares: u32, price: u32) -> Msg {
        let stock = self.symbol;
        let body = Add {
            reference,
            side,
            shares,
            stock,
            price,
        };
        Msg::Add(head(self.locate), body)
    }

    /// A bid or an ask of the market participant `ABCD`.
    pub fn add_mpid(self, reference: u64, side: u8, shares: u32, price: u32) -> Msg {
        let stock = self.symbol;
        let body = AddMpid {
            reference,
            side,
            shares,
            stock,
            price,
            attribution: *b"ABCD",
        };
        Msg::AddMpid(head(self.locate), body)
    }

    /// An execution at the price of the order.
    pub fn execute(self, reference: u64, shares: u32, match_no: u64) -> Msg {
        let body = Execute {
            reference,
            shares,
            match_no,
        };
        Msg::Execute(head(self.locate), body)
    }

    /// An execution at a price of its own.
    pub fn execute_price(
        self,
        reference: u64,
        shares: u32,
        match_no: u64,
        printable: u8,
        price: u32,
    ) -> Msg {
        let body = ExecutePrice {
            reference,
            shares,
            match_no,
            printable,
            price,
        };
        Msg::ExecutePrice(head(self.locate), body)
    }

    /// A partial cancel.
    pub fn cancel(self, reference: u64, shares: u32) -> Msg {
        Msg::Cancel(head(self.locate), Cancel { reference, shares })
    }

    /// A delete.
    pub fn delete(self, reference: u64) -> Msg {
        Msg::Delete(head(self.locate), Delete { reference })
    }

    /// A replacement.
    pub fn replace(self, reference: u64, new_reference: u64, shares: u32, price: u32) -> Msg {
        let body = Replace {
            reference,
            new_reference,
            shares,
            price,
        };
        Msg::Replace(head(self.locate), body)
    }

    /// A trade of an order that wasn't displayed.
    pub fn trade(self, side: u8, shares: u32, price: u32, match_no: u64) -> Msg {
        let stock = self.symbol;
        let body = NonCrossTrade {
            reference: 0,
            side,
            shares,
            stock,
            price,
            match_no,
        };
        Msg::Trade(head(self.locate), body)
    }

    /// An opening cross.
    pub fn cross(self, shares: u64, price: u32, match_no: u64) -> Msg {
        let stock = self.symbol;
        let body = Cross {
            shares,
            stock,
            price,
            match_no,
            cross_type: b'O',
        };
        Msg::Cross(head(self.locate), body)
    }

    /// A broken trade.
    pub fn broken(self, match_no: u64) -> Msg {
        Msg::Broken(head(self.locate), Broken { match_no })
    }

    /// A market participant's position.
    pub fn participant(self) -> Msg {
        let stock = self.symbol;
        let body = Participant {
            mpid: *b"ABCD",
            stock,
            primary: b'Y',
            mode: b'N',
            state: b'A',
        };
        Msg::Participant(head(self.locate), body)
    }

    /// An auction collar.
    pub fn collar(self) -> Msg {
        let stock = self.symbol;
        let body = Collar {
            stock,
            reference_price: 100,
            upper: 110,
            lower: 90,
            extension: 0,
        };
        Msg::Collar(head(self.locate), body)
    }

    /// A halt on one market.
    pub fn operational(self) -> Msg {
        let stock = self.symbol;
        let body = Operational {
            stock,
            market: b'Q',
            action: b'H',
        };
        Msg::Operational(head(self.locate), body)
    }

    /// An imbalance before an opening cross.
    pub fn imbalance(self) -> Msg {
        let stock = self.symbol;
        let body = Imbalance {
            paired: 100,
            imbalance: 50,
            direction: b'B',
            stock,
            far: 90,
            near: 95,
            reference_price: 100,
            cross_type: b'O',
            variation: b'1',
        };
        Msg::Imbalance(head(self.locate), body)
    }

    /// Retail interest on both sides.
    pub fn retail(self) -> Msg {
        let stock = self.symbol;
        let body = Retail {
            stock,
            interest: b'A',
        };
        Msg::Retail(head(self.locate), body)
    }
}
