//! Laws of the definitions alone.
ghost use Rattle.day_replay.specs.Summaries.{OthersAreApplied, RefusedAreCounted};

/// A day's refused messages tell what became of every message of a stock: one that isn't among them was applied. None is
/// passed over.
#[tactic(auto, using(crate::proofs::AppliedOrRefused::others_are_applied))]
pub fn others_are_applied()
    ensures { OthersAreApplied }
{}

/// A day's refused messages tell how many of each stock's messages were refused.
pub fn refused_are_counted()
    ensures { RefusedAreCounted }
{}
