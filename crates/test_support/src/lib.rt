//! What the tests of several crates share: messages by their fields, days of them, scripts that a machine is led
//! through, devices that give and take little at a time and fail, and worked files.
//!
//! No helper ends the process, which only a test may do: each returns a `Fail` that names the case.
#![tactic(auto)]

mod comparing;
mod days;
mod devices;
mod growing;
mod machine;
mod messages;
mod script;
mod spending;
mod worked;

pub use comparing::{same, same_bytes, same_list};
pub use days::{OF_TWO_STOCKS, add_entry, crossed_book, day_of, day_with, two_stocks};
pub use devices::{Failure, Narrow, Pieces};
pub use growing::{GROWING, Growing, LISTINGS, Listing};
pub use machine::{Known, known_of, take};
pub use messages::{AAPL, MSFT, Ticker, head, payload_of, system};
pub use script::{Line, follow};
pub use spending::{ASKED, Spending, spent_references, spent_up_to};
pub use worked::{AMPLE, DIGITS, FILE, REPORT, STORED_RUN, TEXT};
