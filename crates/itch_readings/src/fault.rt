//! Why an engine of one stock stops.
ghost use Rattle.std.specs.Prelude.{◌≡◌};
ghost use Rattle.engine_rules.specs.FaultOrigins.{fault_of_load};
ghost use Rattle.engine_rules.specs.declared.fault.ProgFault.TheVariants.{Memory, Write as WriteFailed};
ghost use Rattle.itch_readings.specs.StockFaults.{status_of};
ghost use Rattle.itch_readings.specs.declared.fault.StockFault.TheVariants.{Engine};

use binaryfile::{LoadFault, WriteFault};
use engine_rules::{ProgFault, status};
use std::alloc::AllocError;
use thiserror::Error;

/// Why an engine that reads a day for one of its stocks stopped before its work was done. The words are those that the
/// program prints on standard error.
#[derive(Debug, Clone, Copy, PartialEq, Eq, Drop, Error)]
pub enum StockFault {
    /// The day hasn't the stock that was asked for: no message of its locate code, or no directory message with its symbol
    /// that was applied.
    #[error("no such stock")]
    NoStock,
    /// The day has fewer messages than were asked for.
    #[error("past end")]
    PastEnd,
    /// The file gave other messages where it was read for a second time.
    #[error("the file changed while it was read")]
    Changed,
    /// What stops engines of any kind.
    #[error(transparent)]
    Engine(ProgFault),
}

impl StockFault {
    /// The exit status of the program: 2 where the day hasn't what was asked for, 3 where its file changed, else that of
    /// the engine's fault.
    pub fn status(self) -> u8
        ensures { result ≡ status_of self }
    {
        match self {
            StockFault::NoStock | StockFault::PastEnd => 2,
            StockFault::Changed => 3,
            StockFault::Engine(fault) => status(&Err(fault)),
        }
    }
}

impl From<ProgFault> for StockFault {
    ghost from_gives = { λ engine fault. fault ≡ Engine engine };

    fn from(fault: ProgFault) -> StockFault {
        StockFault::Engine(fault)
    }
}

impl From<AllocError> for StockFault {
    ghost from_gives = { λ _ fault. fault ≡ Engine Memory };

    fn from(_error: AllocError) -> StockFault {
        StockFault::Engine(ProgFault::Memory)
    }
}

impl From<LoadFault> for StockFault {
    ghost from_gives = { λ load fault. fault ≡ Engine (fault_of_load load) };

    fn from(fault: LoadFault) -> StockFault {
        StockFault::Engine(ProgFault::from(fault))
    }
}

impl From<WriteFault> for StockFault {
    ghost from_gives = { λ _ fault. fault ≡ Engine WriteFailed };

    fn from(fault: WriteFault) -> StockFault {
        StockFault::Engine(ProgFault::from(fault))
    }
}
