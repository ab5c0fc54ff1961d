//! The outcome of the last message of a stock.
ghost use Rattle.std.specs.Prelude.{◌≡◌, []};
ghost use Rattle.itch_show.specs.Shown.{last_noted};

use itch_readings::Notes;
use itch_table::{Order, Outcome};
use std::alloc::{AllocError, Allocator};
use stock_machine::Stock;

/// The number and the outcome of the last message of a stock that was noted.
#[derive(Debug, Clone, Copy, PartialEq, Eq)]
pub(crate) struct LastOutcome {
    /// The message's number in the day; 0 where there is none.
    pub number: u32,
    /// What became of it.
    pub outcome: Outcome,
}

impl LastOutcome {
    /// That of no message.
    pub fn of_none() -> LastOutcome
        ensures { result ≡ last_noted [] }
    {
        LastOutcome {
            number: 0,
            outcome: Outcome::Passed,
        }
    }
}

impl Notes for LastOutcome {
    ghost noted = { λ _ now messages. now ≡ last_noted messages };

    fn note<B: Allocator + Copy>(
        &mut self,
        number: u32,
        _payload: &[u8],
        _named: Option<Order>,
        outcome: Outcome,
        _stock: &Stock<B>,
    ) -> Result<(), AllocError> {
        self.number = number;
        self.outcome = outcome;
        Ok(())
    }
}
