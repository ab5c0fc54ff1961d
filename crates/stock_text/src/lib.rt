//! The lines of a stock: what is known of it, its levels, its orders and the sums over its trades, as reports and sessions
//! have them; the fields of a level in tables; what became of a message, and the line of a position.
//!
//! ```rust
//! put_stock_line(&mut text, 14, *b"AAPL    ", None, None)?;
//! put_levels(&mut text, b"bid ", &bids)?;
//! put_trades(&mut text, totals)?;
//! put_shown_stock(alloc, &mut text, &stock)?;
//! ```
//!
//! Each call adds to a text, which may have a part of its lines after an error. The lines are of this project. An
//! `AllocError` says that memory was refused.
#![tactic(auto)]

mod fields;
mod orders;
mod sessions;
mod stock;

pub use fields::put_level_fields;
pub use orders::{put_order, put_outcome, put_side};
pub use sessions::{put_no_stock, put_position, put_position_line, put_shown_stock};
pub use stock::{put_levels, put_stock, put_stock_line, put_trades};
