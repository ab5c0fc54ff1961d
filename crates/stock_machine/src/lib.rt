//! The machine of one stock, which follows the table of instructions over the rows of that stock alone.
//!
//! [`Stock::new`] is a machine before the stock's first message. [`Stock::step`] takes the stock's messages in their
//! order, those for which `part(payload)` of `itch_table` is `Part::Locate(locate)`, and returns what became of each.
//! It requires that fewer than 2^32 - 1 messages have been taken.
//!
//! ```rust
//! let mut stock = Stock::new(alloc, locate);
//! if part(payload) == Part::Locate(locate) {
//!     let outcome = stock.step(payload)?;
//! }
//! let top = stock.top();
//! ```
//!
//! Beside [`Stock::top`] there are `level`, `levels`, `order`, `orders`, `spent`, `totals` and `status`. `tops` of
//! `itch_readings` is a caller to copy from.
//!
//! The effects of messages are those of Nasdaq TotalView-ITCH 5.0; the rest is of this project. An `AllocError` says
//! that memory was refused.
#![tactic(auto)]

mod rows;
mod spent;
mod stock;
mod trades;

pub use stock::Stock;
