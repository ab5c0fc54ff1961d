//! Fields of texts: numbers in digits, bytes in hexadecimal digits, and fields of text between quotes.
//!
//! The texts of days, reports, and the answers and lines of other outputs are made of them. A call that begins with `put_`
//! adds to a text; its page says what the text has after an error.
//!
//! ```rust
//! put_count(&mut text, b"stock ", 14)?;
//! text.push(b' ')?;
//! put_quoted(&mut text, b"AAPL    ")?;
//! ```
//!
//! The forms are of this project. An `AllocError` says that memory was refused.
#![tactic(auto)]

mod hex_digits;
mod numbers;
mod quoting;

pub use hex_digits::put_hex;
pub use numbers::{put_count, put_number};
pub use quoting::{put_quoted, put_quoted_byte, quote};
