//! Readings of days: the stocks that a day has, its trades, the best bid and ask of one of its stocks along it, and the life
//! of an order of one.
//!
//! | engine | input | output |
//! |---|---|---|
//! | [`stocks_run`] | a day file | a line for each of its stocks |
//! | [`tops_run`] | a day file | a stock's best bid and ask after each of its messages, or each that changes them |
//! | [`order_run`] | a day file | an order's life: each message that names it, and how it stands at the end |
//! | [`trades_run`] | a day file | a line for each trade of all stocks |
//! | [`stock_trades_run`] | a day file | a line for each trade of a stock |
//!
//! They meet the contract of engines, `Runs` of `engine_rules`, but that those of one stock may find that the day hasn't it
//! ([`StockFault`]). [`stocks_of_file`], [`tops_of_file`], [`order_of_file`], [`trades_of_file`] and
//! [`stock_trades_of_file`] make their texts, within limits and by segments that a caller chooses.
//!
//! [`tops`] is the best bid and ask of a stock after each of its messages. [`StockName::of_word`] reads the name of a
//! stock, and [`find_stock`] finds the stock of a day that it names.
//!
//! ```rust
//! if let Some(name) = StockName::of_word("AAPL")
//!     && let Some(locate) = find_stock(alloc, &day, name)?
//! {
//!     let moments = tops(alloc, &day, locate)?;
//! }
//! ```
//!
//! What they share is for other engines too: [`Notes`] of messages, which [`Noted`] takes of the stock that is named, as
//! [`Machines`] have the stocks of all.
//!
//! [`trades_are_rows`] is a law: the trades that are listed are the trade rows of the written table after the day.
//!
//! The forms of lines and of names are of this project. An `AllocError`, `ProgFault::Memory` and, of engines of one
//! stock, `StockFault::Engine(ProgFault::Memory)` say that memory was refused.
#![tactic(auto)]

mod all_noting;
mod broken_trades;
mod fault;
mod laws;
mod lives;
mod machines;
mod moments;
mod naming;
mod notes;
mod noting;
mod order_engine;
mod order_history;
mod search;
mod segments;
mod stock_lines;
mod stocks_engine;
mod top_lines;
mod tops_engine;
mod trade_lines;
mod trades;
mod trades_engine;

pub use fault::StockFault;
pub use laws::trades_are_rows;
pub use machines::Machines;
pub use moments::{Moment, tops};
pub use naming::StockName;
pub use notes::Notes;
pub use noting::Noted;
pub use order_engine::{order_of_file, order_run};
pub use search::{StockSearch, find_stock};
pub use segments::TakesSegments;
pub use stocks_engine::{stocks_of_file, stocks_run};
pub use top_lines::Selection;
pub use tops_engine::{tops_of_file, tops_run};
pub use trades_engine::{stock_trades_of_file, stock_trades_run, trades_of_file, trades_run};
