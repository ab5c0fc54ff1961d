//! What is read of a file in one pass.
use crate::files::{Ended, ended, open_day, standard_output};
use crate::stop::Stop;
use crate::terminals::Terminals;
use binaryfile::{Feed, Sink};
use day_segments::SEGMENT_BYTES;
use itch_dis::{dis_part_run, dis_stream_run};
use itch_readings::{
    Selection, StockFault, StockName, order_run, stock_trades_run, stocks_run, tops_run, trades_run,
};
use itch_trace::{Extent, stock_trace_run, trace_run};
use std::alloc::Global;
use std::io::{Read, Write};
use std::rt::Runtime;

/// What one pass over a file writes. A stock is a word of the arguments.
#[derive(Clone, Copy)]
pub enum Reading<'a> {
    /// The file's text.
    Text,
    /// The lines of its messages from one number on, to another or to the file's end.
    TextBetween {
        first: u32,
        last: Option<u32>,
    },
    /// Its stocks.
    Stocks,
    /// The best bid and ask of a stock along it: after each of its messages, or where they change.
    Tops {
        stock: &'a str,
        every: bool,
    },
    /// The life of an order of a stock.
    Order {
        stock: &'a str,
        reference: u64,
    },
    /// Its trades, or those of one stock.
    Trades {
        stock: Option<&'a str>,
    },
    /// A line for each message, or for those of one stock, with its stock's best levels after it.
    Trace {
        stock: Option<&'a str>,
        extent: Extent,
    },
}

/// The stock that a word names.
pub fn named_stock(word: &str) -> Result<StockName, StockFault> {
    match StockName::of_word(word) {
        Some(name) => Ok(name),
        None => Err(StockFault::NoStock),
    }
}

impl Reading<'_> {
    // Whether its last message comes before its first one.
    fn ends_early(self) -> bool {
        match self {
            Reading::TextBetween {
                first,
                last: Some(last),
            } => last < first,
            Reading::Trace { extent, .. } => extent.last < extent.first,
            _ => false,
        }
    }

    // Writes it, of a file that was opened.
    fn write<R: Read, W: Write>(
        self,
        alloc: Global,
        feed: &mut Feed<R>,
        sink: &mut Sink<W>,
    ) -> Result<(), StockFault> {
        match self {
            Reading::Text => dis_stream_run(alloc, feed, sink, SEGMENT_BYTES)?,
            Reading::TextBetween { first, last } => {
                dis_part_run(alloc, feed, sink, SEGMENT_BYTES, first, last)?
            }
            Reading::Stocks => stocks_run(alloc, feed, sink)?,
            Reading::Tops { stock, every } => {
                let selection = if every {
                    Selection::Every
                } else {
                    Selection::Changes
                };
                tops_run(alloc, feed, sink, named_stock(stock)?, selection)?
            }
            Reading::Order { stock, reference } => {
                order_run(alloc, feed, sink, named_stock(stock)?, reference)?
            }
            Reading::Trades { stock: None } => trades_run(alloc, feed, sink)?,
            Reading::Trades { stock: Some(stock) } => {
                stock_trades_run(alloc, feed, sink, named_stock(stock)?)?
            }
            Reading::Trace {
                stock: None,
                extent,
            } => trace_run(alloc, feed, sink, SEGMENT_BYTES, extent)?,
            Reading::Trace {
                stock: Some(stock),
                extent,
            } => stock_trace_run(
                alloc,
                feed,
                sink,
                SEGMENT_BYTES,
                extent,
                named_stock(stock)?,
            )?,
        }
        Ok(())
    }
}

/// Reads a file once, and writes on standard output what is asked of it.
pub fn read<'a, R: Runtime + AllocGlobal>(
    rt: &R,
    terminals: Terminals,
    path: &'a str,
    reading: Reading,
) -> Ended<'a> {
    if reading.ends_early() {
        return Err(Stop::Misuse("--to is before --from"));
    }
    let mut day = open_day(rt, terminals, path)?;
    let mut output = standard_output(rt);
    let (mut feed, mut sink) = (Feed::new(&mut day), Sink::new(&mut output));
    let run = reading.write(rt.alloc(), &mut feed, &mut sink);
    ended(run, &day, &output)
}
