//! The law of the lines.
ghost use Rattle.itch_why.specs.Why.{FaultIsOutcomes};

/// Where the written table refuses a message, its lines say so, and give that fault and no other, with its reason.
pub fn fault_is_the_outcomes()
    ensures { FaultIsOutcomes }
{}
