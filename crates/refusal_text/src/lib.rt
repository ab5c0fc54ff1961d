//! Why a message was refused, in words.
//!
//! ```rust
//! let before = Before { symbol: *b"AAPL    ", shares: 100 };
//! put_refusal(&mut text, Outcome::Refused(Fault::TooManyShares), payload, before)?;
//! ```
//!
//! [`put_refusal`] adds the line of a fault: its number, its name, and what its check found, with the numbers of the message
//! and of its stock's rows [`Before`] it. The words are of this project. An `AllocError` says that memory was refused; the
//! text may then have a part of the line.
#![tactic(auto)]

mod before;
mod fields;
mod reasons;

pub use before::Before;
pub use reasons::put_refusal;
