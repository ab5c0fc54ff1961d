//! The written table of instructions, and the plain machine that follows it over the rows of all stocks.
//!
//! The table is `Table.step` of `specs/Table.antt`. [`Plain::new`] is a machine before the first message, and
//! [`Plain::step`] takes the next payload and returns what became of it. It requires that fewer than 2^32 - 1 messages
//! have been taken.
//!
//! ```rust
//! let mut machine = Plain::new(alloc);
//! let outcome = machine.step(payload)?;
//! let top = machine.top(locate);
//! ```
//!
//! [`part`] says whose message a payload is: `Part::Locate(locate)` where it is one of the stock with that code, and
//! `Part::Nowhere(outcome)` where it is one of no stock, with what becomes of it. `stock_machine` has a faster machine,
//! for one stock. [`follow`] follows the table over any rows that are a [`Store`].
//!
//! The effects are those of Nasdaq TotalView-ITCH 5.0; the faults and their numbers, parts, the words that show a top,
//! and the laws, functions without arguments such as [`stocks_are_independent`], are of this project. An `AllocError`
//! says that memory was refused.
#![tactic(auto)]

mod effects;
mod faults;
mod following;
mod instructions;
mod laws;
mod levels;
mod listing;
mod order;
mod outcome;
mod parts;
mod plain;
mod rows;
mod status;
mod store;
mod trades;

pub use following::follow;
pub use laws::{
    better_levels_come_first, days_split_by_stock, levels_are_sums, lists_split_by_stock,
    live_orders_have_shares, locates_are_parts, one_row_of_words, own_rows_suffice,
    references_stay_spent, stocks_are_independent,
};
pub use order::{Found, Level, Order, OrderRow, Side, Top};
pub use outcome::{Fault, Outcome, Part};
pub use parts::{LOCATES, is_of_stock, locate_in, part};
pub use plain::Plain;
pub use status::{Status, StockRow, Totals, Trading};
pub use store::Store;
pub use trades::TradeRow;
