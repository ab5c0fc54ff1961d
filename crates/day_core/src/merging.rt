//! The outcomes of a day, put together of pieces.
ghost use Rattle.std.specs.Prelude.{◌≡◌, ◌++◌, ◌∷◌, ◌<◌, ◌≤◌, ◌^◌, List, [], IfErr, IfOk, MatchResult, length, map};
ghost use Rattle.std.specs.Vec.{vec_capacity};
ghost use Rattle.day_core.specs.FaultNumbers.{merge_number};
ghost use Rattle.day_core.specs.Merging.{AreFilled, Holds, IsEmptyAt, IsFaulty, IsMergeFault, IsMerged, joined};
ghost use Rattle.day_core.specs.declared.merging.MergeFault.TheVariants.{Memory};
ghost use Rattle.day_core.specs.declared.merging.Piece.{Piece};

use itch_table::Outcome;
use std::alloc::{AllocError, Allocator};

/// What became of one message of a day.
#[derive(Debug, Clone, Copy, PartialEq, Eq)]
pub struct Piece {
    /// The message's number in the day, counted from 1.
    pub message: u32,
    /// What became of it.
    pub outcome: Outcome,
}

/// Why pieces don't make a day.
#[derive(Debug, Clone, Copy, PartialEq, Eq)]
pub enum MergeFault {
    /// Memory was refused.
    Memory,
    /// A piece names this message, and so does a piece before it.
    Double(u32),
    /// A piece names this number, and the day has no such message.
    Stranger(u32),
    /// No piece names this message, and each one below it is named.
    Missing(u32),
}

impl MergeFault {
    /// The fault's fixed number, from 1 to 4.
    pub fn number(self) -> u8
        ensures { result ≡ merge_number self }
    {
        match self {
            MergeFault::Memory => 1,
            MergeFault::Double(_) => 2,
            MergeFault::Stranger(_) => 3,
            MergeFault::Missing(_) => 4,
        }
    }
}

impl From<AllocError> for MergeFault {
    ghost from_gives = { λ _ fault. fault ≡ Memory };

    fn from(_error: AllocError) -> MergeFault {
        MergeFault::Memory
    }
}

// Puts a piece where the outcome of its message belongs.
fn place<A: Allocator + Copy>(
    slots: &mut Vec<Option<Outcome>, A>,
    piece: Piece,
) -> Result<(), MergeFault>
    ensures long { length slots.new.items ≡ length slots.old.items }
    ensures placed { (before : List Piece) → Holds before slots.old.items → MatchResult result
        (λ _. Holds (before ++ piece ∷ []) slots.new.items)
        (λ fault. IsFaulty (length slots.old.items) before piece fault) }
{
    let number = piece.message as usize;
    if number == 0 || number > slots.len() {
        return Err(MergeFault::Stranger(piece.message));
    }
    if slots[number - 1].is_some() {
        return Err(MergeFault::Double(piece.message));
    }
    slots[number - 1] = Some(piece.outcome);
    Ok(())
}

// The outcomes in the slots, where each has one. There is room for them.
fn gathered<A: Allocator + Copy>(
    room: Vec<Outcome, A>,
    slots: &[Option<Outcome>],
) -> Result<Vec<Outcome, A>, MergeFault>
    requires few { length slots.now < 2 ^ 32 }
    requires room { (room.items ≡ []) × (length slots.now ≤ vec_capacity room) }
    ensures ok { IfOk result (λ outcomes. AreFilled slots.now outcomes.items) }
    ensures missing { IfErr result (IsEmptyAt slots.now) }
{
    let mut outcomes = room;
    for (before, slot) in slots.iter().enumerate() {
        let Some(outcome) = *slot else {
            return Err(MergeFault::Missing(before as u32 + 1));
        };
        outcomes.push(outcome).unwrap();
    }
    Ok(outcomes)
}

/// The outcomes of all messages of a day, in order, of pieces in any order that name each message once.
///
/// The first faulty piece, in the order of the lists and in each of its own, is the fault: [`MergeFault::Double`] or
/// [`MergeFault::Stranger`]. Where all pieces are sound and a message has none, the least such message is
/// [`MergeFault::Missing`]. [`MergeFault::Memory`] where memory is refused: all of it is taken before the pieces are
/// looked at. After a fault the lists are gone.
pub fn merge<A: Allocator + Copy>(
    alloc: A,
    messages: u32,
    pieces: Vec<Vec<Piece, A>, A>,
) -> Result<Vec<Outcome, A>, MergeFault>
    ensures merged { IfOk result (λ outcomes.
        IsMerged messages (joined (map (λ list. list.items) pieces.items)) outcomes.items) }
    ensures fault { IfErr result (IsMergeFault messages (joined (map (λ list. list.items) pieces.items))) }
{
    let mut slots = vec![in alloc; None; messages as usize]?;
    let outcomes = Vec::with_capacity(alloc, messages as usize)?;
    for piece in pieces.into_iter().flatten() {
        place(&mut slots, piece)?;
    }
    gathered(outcomes, &slots)
}
