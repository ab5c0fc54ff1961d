//! What is wrong with a text.
ghost use Rattle.std.specs.Prelude.{◌≡◌};
ghost use Rattle.itch_text.specs.declared.fault.LineError.TheVariants.{Memory as MemoryRefused};

use std::alloc::{AllocError, AllocFailed};

/// What is wrong with a line.
#[derive(Clone, Copy)]
pub(crate) enum LineFault {
    /// It begins with no name of a line.
    Mnemonic,
    /// It is no line of its name.
    Field,
    /// A line of its name may not stand there.
    AfterEnd,
}

/// Why a line was not assembled.
#[derive(Clone, Copy)]
pub(crate) enum LineError {
    /// Memory was refused.
    Memory,
    /// The line is wrong.
    Wrong(LineFault),
}

impl From<AllocError> for LineError {
    ghost from_gives = { λ _ error. error ≡ MemoryRefused };

    fn from(_error: AllocError) -> LineError {
        LineError::Memory
    }
}

impl<T: Drop> From<AllocFailed<T>> for LineError {
    ghost from_gives = { λ _ error. error ≡ MemoryRefused };

    fn from(_error: AllocFailed<T>) -> LineError {
        LineError::Memory
    }
}
