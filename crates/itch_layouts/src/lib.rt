//! The layouts of Nasdaq TotalView-ITCH 5.0's messages, and the message that a payload means.
//!
//! [`read_msg`] returns a [`Shape`]: `Known` with the message, `Unknown` where the type has no layout, `BadLength`
//! where the length isn't the type's. Every payload has one of the three.
//!
//! ```rust
//! match read_msg(payload) {
//!     Shape::Known(Msg::Add(head, add)) => see(head.locate, add.reference, add.shares, add.price),
//!     Shape::Known(_) | Shape::Unknown | Shape::BadLength => {}
//! }
//! ```
//!
//! Code that acts on every message chooses by its kind, [`kind_of`], and takes the fields from the function of
//! [`readers`] for that kind.
//!
//! [`write_msg`] appends the payload of a message. [`layout_of_kind`] and [`layout_of_mnemonic`] look a layout up in
//! the table, for code that walks the fields of every type alike.
//!
//! Mnemonics, the names of fields, and that a bad length differs from an unknown type are of this project. An
//! `AllocError` says that memory was refused.
#![tactic(auto)]

mod any_message;
mod at_offset;
mod field;
mod field_value;
mod kind;
mod laws;
mod layout;
mod layout_table;
mod message;
mod nanos;
pub mod readers;
mod shape;
mod writer;

pub use field::{Field, Form};
pub use kind::{Kind, kind_of};
pub use laws::{one_layout, one_message, one_payload, one_shape};
pub use layout::Layout;
pub use layout_table::{head_fields, layout_of_kind, layout_of_mnemonic, size_of_kind};
pub use message::{
    Add, AddMpid, Breach, Broken, Cancel, Collar, Cross, Decline, Delete, Directory, Execute,
    ExecutePrice, Head, Imbalance, Ipo, Msg, NonCrossTrade, Operational, Participant, Regsho,
    Replace, Retail, System, TradingAction,
};
pub use nanos::Nanos;
pub use shape::{Shape, read_msg};
pub use writer::write_msg;
