//! The files that the words of a command line name: why one could not be read or written, whether one is compressed, and
//! a file that is replaced as a whole or not at all.
//!
//! ```rust
//! let mut input = Named::new(path, fs::open(&rt, path)?);
//! let run = dis_run(rt.alloc(), &mut Feed::new(&mut input), &mut sink);
//! if let Some(failure) = input.failure() {
//!     let _ = eprintln!(rt; "{failure}");
//! }
//! ```
#![tactic(auto)]

mod gzip;
mod named;
mod replacement;

pub use gzip::is_gzip;
pub use named::{Failure, Named};
pub use replacement::{Replacement, is_same_file};
