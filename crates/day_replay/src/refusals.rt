//! The refused ones among messages.
ghost use Rattle.std.specs.Prelude.{◌≡◌, ◌++◌, ◌∷◌, [], OnErr, OnOk, cond, true};
ghost use Rattle.itch_table.specs.Parts.{part};
ghost use Rattle.day_replay.specs.Summaries.{is_refused, stock_of};

use itch_table::{Outcome, Part, part};
use std::alloc::{AllocError, Allocator};

/// A message of a day that was refused.
#[derive(Debug, Clone, Copy, PartialEq, Eq)]
pub struct RefusedMessage {
    /// The message's number in the day, counted from 1.
    pub message: u32,
    /// The locate code of the stock whose message it is; none of a message of no stock.
    pub locate: Option<u16>,
    /// What became of it: the fault for which it was refused.
    pub outcome: Outcome,
}

impl RefusedMessage {
    /// A message of a day that was refused, by its number, its payload and its outcome.
    pub fn of(message: u32, payload: &[u8], outcome: Outcome) -> RefusedMessage
        ensures { let stock = stock_of (part payload.now) in
            result ≡ record { message = message; locate = stock; outcome = outcome } }
    {
        let locate = match part(payload) {
            Part::Locate(locate) => Some(locate),
            Part::Nowhere(_) => None,
        };
        RefusedMessage {
            message,
            locate,
            outcome,
        }
    }
}

/// Adds a message to those that were refused, if it was refused itself. An error comes only of one that was, and leaves
/// the list as it was.
pub(crate) fn note_refused<A: Allocator>(
    refused: &mut Vec<RefusedMessage, A>,
    message: RefusedMessage,
) -> Result<(), AllocError>
    ensures ok { OnOk result (refused.new.items
        ≡ refused.old.items ++ cond (is_refused message.outcome) (message ∷ []) []) }
    ensures err { OnErr result (refused.new.items ≡ refused.old.items) }
    ensures grows { OnErr result (is_refused message.outcome ≡ true) }
{
    if let Outcome::Refused(_) = message.outcome {
        refused.push(message)?;
    }
    Ok(())
}
