//! Both calls by one form, and the traces of the worked file, which were written by hand.
use binaryfile::{Feed, Sink};
use engine_rules::ProgFault;
use itch_readings::{StockFault, StockName};
use itch_trace::{Extent, stock_trace_run, trace_run};
use std::alloc::Allocator;
use std::io::{Read, Write};
use std::test::Fail;

/// The sizes of segments: an entry, its length and the end marker are cut at each of their bytes, or few files of these tests
/// are cut.
pub const SEGMENTS: [u32; 9] = [1, 2, 3, 5, 13, 40, 41, 42, 1000];

/// All messages, with one level of each side.
pub const ALL: Extent = Extent {
    depth: 1,
    first: 1,
    last: u32::MAX,
};

/// The trace of all messages of the worked file.
pub const TRACE: &[u8] =
    b"message,time,type,locate,outcome,bid_price,bid_shares,ask_price,ask_shares\n\
      1,0,R,1,applied,,,,\n\
      2,1,A,1,applied,1010000,100,,\n\
      3,,A,,F1,,,,\n\
      4,,O,,passed,,,,\n\
      5,0,S,0,applied,,,,\n";

/// That of its stock.
pub const STOCK_TRACE: &[u8] =
    b"message,time,type,locate,outcome,bid_price,bid_shares,ask_price,ask_shares\n\
      1,0,R,1,applied,,,,\n\
      2,1,A,1,applied,1010000,100,,\n";

/// Its second message and its third, with three levels of each side.
pub const DEEP: &[u8] =
    b"message,time,type,locate,outcome,bid_price,bid_shares,ask_price,ask_shares,\
bid_price_2,bid_shares_2,ask_price_2,ask_shares_2,bid_price_3,bid_shares_3,ask_price_3,ask_shares_3\n\
      2,1,A,1,applied,1010000,100,,,,,,,,,,\n\
      3,,A,,F1,,,,,,,,,,,,\n";

/// The extent of those.
pub const SOME: Extent = Extent {
    depth: 3,
    first: 2,
    last: 3,
};

/// Whose messages are traced.
#[derive(Debug, Clone, Copy, PartialEq, Eq)]
pub enum Traced {
    /// All.
    All,
    /// Those of a stock.
    Stock(StockName),
}

impl Traced {
    /// Writes their trace.
    pub fn run<A: Allocator + Copy, R: Read, W: Write>(
        self,
        alloc: A,
        feed: &mut Feed<R>,
        sink: &mut Sink<W>,
        segment: u32,
        extent: Extent,
    ) -> Result<Result<(), StockFault>, Fail> {
        if segment == 0 || segment > 1 << 30 {
            return Err(Fail::new("a segment takes 1 to 2^30 bytes"));
        }
        Ok(match self {
            Traced::All => match trace_run(alloc, feed, sink, segment, extent) {
                Ok(()) => Ok(()),
                Err(fault) => Err(StockFault::from(fault)),
            },
            Traced::Stock(name) => stock_trace_run(alloc, feed, sink, segment, extent, name),
        })
    }
}

/// The stock of the worked file, by its symbol.
pub const AAPL: StockName = StockName::Symbol(*b"AAPL    ");

/// Both, and the trace of the worked file.
pub const BOTH: [(Traced, &[u8]); 2] = [(Traced::All, TRACE), (Traced::Stock(AAPL), STOCK_TRACE)];

/// A fault that stops engines of any kind.
pub fn stops(fault: ProgFault) -> Result<(), StockFault> {
    Err(StockFault::Engine(fault))
}
