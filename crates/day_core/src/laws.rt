//! Laws of the definitions alone.
ghost use Rattle.std.specs.Prelude.{◌≡◌, ◌++◌, ◌≤◌, ℕ, List, length};
ghost use Rattle.itch_table.specs.Shows.{Shows};
ghost use Rattle.day_core.specs.Turns.{shown};
ghost use Rattle.day_core.specs.Owners.{machine_of, own_of, owner, progress};
ghost use Rattle.day_core.specs.Schedules.{SeenNeverGoesBack, done_after};
ghost use Rattle.day_core.specs.declared.playing.Event.{Event};

/// Once a stock's worker has done all of its messages, the stock's machine is the one after the whole day, for every
/// number of workers.
#[tactic(auto, using(crate::proofs::Progress::machine_last))]
pub fn days_come_to_their_end()
    ensures { (day : List (List ℕ)) (workers locate : ℕ) →
        machine_of day locate
        (progress day workers locate (length (own_of workers (owner workers locate) day)))
        ≡ machine_of day locate (length day) }
{}

/// What a look shows of a stock is the stock's best bid and ask after some message of the day, or before the first:
/// after the last of the stock's messages that its worker has done.
#[tactic(auto, using(crate::proofs::TurnInvariant::shows_progress))]
pub fn looks_show_their_stock()
    ensures { (day : List (List ℕ)) (workers locate done : ℕ) →
        Shows day locate (progress day workers locate done) (shown day workers locate done) }
{}

/// Looks at a stock never go back: after more events a look shows the stock as it was shown before, or after a later
/// message (`progress`). So of two looks at one stock that a schedule lists, the later one never shows an earlier
/// message (`seen`).
#[tactic(auto, using(crate::proofs::LooksNeverGoBack::never_back))]
pub fn looks_never_go_back()
    ensures progress { (day : List (List ℕ)) (workers locate : ℕ) (before more : List Event) →
        progress day workers locate (done_after day workers before (owner workers locate))
        ≤ progress day workers locate (done_after day workers (before ++ more) (owner workers locate)) }
    ensures seen { SeenNeverGoesBack }
{}
