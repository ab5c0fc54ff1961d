//! Why a run stops.
use itch_readings::StockFault;
use named_files::Failure;

/// Why a run stopped before its work was done.
#[derive(Clone, Copy)]
pub enum Stop<'a> {
    /// A fault of its engine, and what failed, where that is known.
    Fault(StockFault, Option<Failure<'a>>),
    /// The arguments can't be meant.
    Misuse(&'a str),
}

impl From<StockFault> for Stop<'_> {
    // A fault of no device.
    fn from(fault: StockFault) -> Self {
        Stop::Fault(fault, None)
    }
}
