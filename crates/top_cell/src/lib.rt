//! Cells that screens read: the best bid and ask of each stock of a day, while the day is replayed.
//!
//! A [`Board`] has a cell for each stock of a day. A cell has a count and four words, which one [`TopWriter`] changes
//! after each message of its stock, and which any number of [`Screen`]s look at. The count is odd while the words are
//! changed, and a screen takes no words that were changed meanwhile. So whatever a screen reads is whole: it is the
//! stock's best bid and ask after one message of the day. And it never goes back: what a screen reads is never of an
//! earlier message than what that screen has read before.
//!
//! Who holds what: all threads share the board by reference. A writer belongs to one thread, the one that replays its
//! stock, and each screen to the thread that reads it; both can be moved to another thread. A writer makes screens of
//! its stock, so take a first screen before the writer is moved away. A screen makes further ones by itself.
//!
//! What waits: [`Screen::read`] looks again while the writer is changing the cell, so it may wait for publishes of the
//! same cell. All other calls wait for nobody: a publish ends whatever screens do, and [`Screen::glance`] ends after a
//! number of tries that its caller names, with a reading or [`Busy`]. When a screen sees a message isn't promised.
//!
//! ```rust
//! let alloc = rt.alloc();
//! let (board, mut writers) = Board::new(alloc, &day)?;
//! let writer = &mut writers[0];
//! let mut screen = writer.screen(&board);
//! writer.publish(&board, message, stock.top());
//! if let Ok(reading) = screen.glance(&board, 3) {
//!     show(&reading);
//! }
//! ```
//!
//! [`Screen::read`] takes `rt`, since it may wait; [`Screen::glance`] makes a bounded number of loads.
//! [`TopWriter::screen`] makes a screen, and [`Screen::split`] a further one.
//!
//! All is of this project. An `AllocError` says that memory was refused.
#![tactic(auto)]

mod board;
mod kinds;
mod reading;
mod rule;
mod screen;
pub mod steps;
mod trying;
mod writer;
mod writing;

pub use board::Board;
pub use reading::Reading;
pub use screen::{Busy, Screen};
pub use writer::TopWriter;
