//! The text form of a day file, and the assembler.
//!
//! A text has a line for each entry of the file, in their order: a message by its mnemonic and fields, or any payload
//! by `raw` and its bytes in hexadecimal digits. `end` is the end marker and `rest` the bytes after it; `cut` is less
//! than a whole entry, where a file stops inside one. Blank lines, and lines that begin with `#`, denote nothing.
//!
//! [`assemble`] gives the bytes of the file that a text denotes, or its first faulty line. [`one_meaning`] is the law
//! that a text denotes at most one string of bytes, [`one_first_fault`] that it has at most one first faulty line.
//!
//! ```rust
//! let bytes = assemble(alloc, b"system locate=0 tracking=0 time=0 event=\"O\"\nend\n")?;
//! ```
//!
//! [`split_word`], [`only_word`] and [`number_of_text`] read the words and numbers of other lines by the same rules.
//!
//! The text form is of this project; the layouts of messages are those of Nasdaq TotalView-ITCH 5.0.
#![tactic(auto)]

mod assembler;
mod fault;
mod fields;
mod hex_lines;
mod laws;
mod line;
mod message;
mod name;
mod numbers;
mod place;
mod quoted;
mod words;

pub use assembler::{AsmFault, assemble};
pub use laws::{one_first_fault, one_meaning};
pub use numbers::number_of_text;
pub use quoted::denotes_itself;
pub use words::{only_word, split_word};
