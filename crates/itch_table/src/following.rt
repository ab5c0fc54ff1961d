//! The table over any rows.
ghost use Rattle.std.specs.Prelude.{◌≡◌, IfOk, OnErr};
ghost use Rattle.itch_table.specs.Held.{HoldsPart};
ghost use Rattle.itch_table.specs.Parts.{part};
ghost use Rattle.itch_table.specs.Machine.{MayGrow};
ghost use Rattle.itch_table.specs.Table.{step};

use crate::instructions::{Unchanged, follow_payload};
use crate::outcome::Outcome;
use crate::store::Store;
use std::alloc::AllocError;

/// Takes a payload of any bytes over rows that hold what it may read and change, and returns what became of it.
///
/// A message that is refused or passed over changes nothing. An error comes only where the message would be applied and
/// is one that may need a new row, and it leaves the rows as they were.
///
/// The rows have room for an order and a trade more.
pub fn follow<S: Store>(store: &mut S, payload: &[u8]) -> Result<Outcome, AllocError>
    requires here { HoldsPart (S.held store.old) (part payload.now) }
    requires room { S.has_room store.old }
    ensures ok { IfOk result (λ outcome.
        (outcome, (S.held store.new).world) ≡ step (S.held store.old).world payload.now) }
    ensures own { (S.held store.new).own ≡ (S.held store.old).own }
    ensures err { OnErr result (S.held store.new ≡ S.held store.old) }
    ensures grows { OnErr result (MayGrow (S.held store.old) payload.now) }
{
    match follow_payload(store, payload) {
        Ok(()) => Ok(Outcome::Applied),
        Err(Unchanged::Passed) => Ok(Outcome::Passed),
        Err(Unchanged::Refused(fault)) => Ok(Outcome::Refused(fault)),
        Err(Unchanged::Memory) => Err(AllocError),
    }
}
