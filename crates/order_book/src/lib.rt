//! One stock's live orders, and the levels that they make.
//!
//! A [`Book`] is a part of the machine of a stock; `stock_machine` decides which calls a message makes.
//!
//! ```rust
//! let mut book = Book::new(alloc);
//! book.add(order)?;
//! book.reduce(order.reference, 20);
//! let top = book.top();
//! ```
//!
//! [`Book::find`] returns a `Found` of `itch_table`: a live order, and where it stood. [`Book::reduce_found`],
//! [`Book::remove_found`] and [`Book::replace_found`] take it, so that the order isn't looked for a second time.
//!
//! What the calls do to the orders is of Nasdaq TotalView-ITCH 5.0, as [`Book`] says; all else is of this project. An
//! `AllocError` says that memory was refused.
#![tactic(auto)]

mod book;
mod ladder;
mod levels;
mod rising;
mod rows;
mod table;

pub use book::Book;
