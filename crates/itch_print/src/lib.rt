//! The disassembler: the one text of a day file.
//!
//! A payload that is a message is a line of its fields by name, any other payload a line of its bytes, and the file's
//! end follows. That text denotes the file's bytes ([`disassembly_denotes`]): what is disassembled can be assembled
//! again.
//!
//! ```rust
//! let text = disassemble(alloc, &day)?;
//! let lines = disassemble_between(alloc, &day, 3, 7)?;
//! ```
//!
//! The second call makes the lines of messages 3 to 7 alone. [`reassembled`] disassembles a day and assembles that text,
//! which gives the bytes that were loaded. The fields of lines are those of `text_fields`, some of whose calls are here
//! too.
//!
//! The text form is of this project; the layouts of messages are those of Nasdaq TotalView-ITCH 5.0. An `AllocError`
//! says that memory was refused.
#![tactic(auto)]

mod disassembling;
mod laws;
mod lines;
mod printing;
mod reassembling;

pub use disassembling::{disassemble, disassemble_between};
pub use laws::disassembly_denotes;
pub use lines::put_payload;
pub use reassembling::reassembled;
pub use text_fields::quote;
