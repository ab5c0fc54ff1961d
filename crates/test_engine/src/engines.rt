//! The engines, called by one form, and the replay also by two workers.
use binaryfile::{Feed, Sink};
use file_replay::Silent;
use itch_engine::{asm_run, dis_run, hex_run, replay_run, report_run};
use itch_readings::{Selection, StockFault, StockName, stocks_run, tops_run};
use itch_watch::watch_run;
use std::alloc::Allocator;
use std::io::{Read, Write};
use std::sync::Wait;
use std::thread::Threads;
use stock_workers::FreeGate;
use test_support::{DIGITS, FILE, REPORT, TEXT};
use worker_count::WorkerCount;

/// An engine.
#[derive(Debug, Clone, Copy, PartialEq, Eq)]
pub(crate) enum Engine {
    /// The replay of a file that is loaded.
    Replay,
    /// The same by two workers, of a file of two stocks.
    TwoWorkers,
    /// The replay of a file while it is read, in segments of a few bytes.
    Report,
    /// The same by two threads, of a file of two stocks.
    TwoThreads,
    Digits,
    Disassembler,
    Assembler,
    Stocks,
    /// The tops of the file's stock, by its symbol.
    Tops,
    /// What a screen sees of the stock that has one message in the file of two stocks, and no directory message.
    Watch,
}

/// All of them, where a replay has one worker.
pub(crate) const ENGINES: [Engine; 8] = [
    Engine::Replay,
    Engine::Report,
    Engine::Digits,
    Engine::Disassembler,
    Engine::Assembler,
    Engine::Stocks,
    Engine::Tops,
    Engine::Watch,
];

// How many bytes a segment takes: less than a directory message has.
const SEGMENT: u32 = 20;

/// The bytes of examples/two-stocks.itch: two stocks with a bid each, and three deletes, two of which are refused.
pub(crate) const TWO_STOCKS: &[u8] =
    b"\x00\x27R\x00\x01\x00\x00\x00\x00\x00\x00\x00\x00AAPL    QN\x00\x00\x00dNCZ PNN1N\x00\x00\x00\x00N\
      \x00\x27R\x00\x02\x00\x00\x00\x00\x00\x00\x00\x01MSFT    QN\x00\x00\x00dNCZ PNN1N\x00\x00\x00\x00N\
      \x00\x24A\x00\x01\x00\x00\x00\x00\x00\x00\x00\x02\x00\x00\x00\x00\x00\x00\x00\x07B\x00\x00\x00\x0aAAPL    \x00\x00\x00d\
      \x00\x24A\x00\x02\x00\x00\x00\x00\x00\x00\x00\x03\x00\x00\x00\x00\x00\x00\x00\x07B\x00\x00\x00\x14MSFT    \x00\x00\x00\xc8\
      \x00\x13D\x00\x01\x00\x00\x00\x00\x00\x00\x00\x04\x00\x00\x00\x00\x00\x00\x00\x07\
      \x00\x13D\x00\x03\x00\x00\x00\x00\x00\x00\x00\x05\x00\x00\x00\x00\x00\x00\x00\x07\
      \x00\x13D\x00\x01\x00\x00\x00\x00\x00\x00\x00\x06\x00\x00\x00\x00\x00\x00\x00\x07";

// The report of that file.
const TWO_STOCKS_REPORT: &[u8] = b"message 6 refused F2\n\
      message 7 refused F6\n\
      messages 7 applied 5 passed 0 refused 2 marked no tail 0 event none\n\
      stock 1 \"AAPL\" state none reason none regsho none\n\
      trades 0 shares 0 notional 0 unprinted 0\n\
      stock 2 \"MSFT\" state none reason none regsho none\n\
      bid 200 20\n\
      trades 0 shares 0 notional 0 unprinted 0\n";

// The lines of the worked file's stocks.
const STOCKS: &[u8] = b"stock 1 \"AAPL\" messages 2\n";

/// The lines of their best bids and asks: message 2 is the only bid.
pub(crate) const TOPS: &[u8] = b"message,time,bid_price,bid_shares,ask_price,ask_shares\n\
      2,1,1010000,100,,\n";

// What a screen sees of the stock that is deleted from without a directory message.
const SEEN: &[u8] = b"at 6 bid none ask none\n";

impl Engine {
    /// A file in the form that the engine reads.
    pub(crate) fn input(self) -> &'static [u8] {
        match self {
            Engine::Replay
            | Engine::Report
            | Engine::Disassembler
            | Engine::Stocks
            | Engine::Tops => FILE,
            Engine::TwoWorkers | Engine::TwoThreads | Engine::Watch => TWO_STOCKS,
            Engine::Digits => DIGITS,
            Engine::Assembler => TEXT,
        }
    }

    /// What the engine writes for it.
    pub(crate) fn output(self) -> &'static [u8] {
        match self {
            Engine::Replay | Engine::Report | Engine::Digits => REPORT,
            Engine::TwoWorkers | Engine::TwoThreads => TWO_STOCKS_REPORT,
            Engine::Disassembler => TEXT,
            Engine::Assembler => FILE,
            Engine::Stocks => STOCKS,
            Engine::Tops => TOPS,
            Engine::Watch => SEEN,
        }
    }

    /// What the engine returns for it: how many messages were refused, and 0 where none is replayed.
    pub(crate) fn returns(self) -> Result<u32, StockFault> {
        match self {
            Engine::Replay | Engine::Report | Engine::Digits => Ok(1),
            Engine::TwoWorkers | Engine::TwoThreads => Ok(2),
            Engine::Disassembler
            | Engine::Assembler
            | Engine::Stocks
            | Engine::Tops
            | Engine::Watch => Ok(0),
        }
    }

    /// Runs the engine.
    pub(crate) fn run<
        T: Threads + Wait + Sync,
        A: Allocator + Copy + Send + Sync,
        R: Read + Send + Drop,
        W: Write,
    >(self, rt: &T, alloc: A, reader: R, writer: &mut W) -> Result<u32, StockFault> {
        let mut feed = Feed::new(reader);
        let mut sink = Sink::new(writer);
        let (one, two) = (WorkerCount::ONE, WorkerCount::new(2).unwrap());
        let run = match self {
            Engine::Replay => replay_run(rt, alloc, &mut feed, &mut sink, 1, &FreeGate),
            Engine::TwoWorkers => replay_run(rt, alloc, &mut feed, &mut sink, 2, &FreeGate),
            Engine::Report => report_run(rt, alloc, &mut feed, &mut sink, SEGMENT, one, &Silent),
            Engine::TwoThreads => {
                report_run(rt, alloc, &mut feed, &mut sink, SEGMENT, two, &Silent)
            }
            Engine::Digits => hex_run(rt, alloc, &mut feed, &mut sink),
            Engine::Disassembler => dis_run(alloc, &mut feed, &mut sink).map(|()| 0),
            Engine::Assembler => asm_run(alloc, &mut feed, &mut sink).map(|()| 0),
            Engine::Stocks => stocks_run(alloc, &mut feed, &mut sink).map(|()| 0),
            Engine::Tops => {
                let name = StockName::Symbol(*b"AAPL    ");
                tops_run(alloc, &mut feed, &mut sink, name, Selection::Changes)?;
                Ok(0)
            }
            Engine::Watch => {
                watch_run(rt, alloc, &mut feed, &mut sink, StockName::Locate(3), one)?;
                Ok(0)
            }
        };
        run.map_err(StockFault::Engine)
    }
}
