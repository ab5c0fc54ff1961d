//! Why an engine stops.
ghost use Rattle.std.specs.Prelude.{◌≡◌};
ghost use Rattle.engine_rules.specs.declared.fault.ProgFault.TheVariants.{Memory, Write as WriteFailed};
ghost use Rattle.engine_rules.specs.FaultOrigins.{fault_of_asm, fault_of_hex, fault_of_load};

use binaryfile::{LoadFault, WriteFault};
use hex::FromHexError;
use itch_text::AsmFault;
use std::alloc::{AllocError, AllocFailed};
use thiserror::Error;

/// Why an engine stopped before its work was done. The words are those that the program prints on standard error.
#[derive(Debug, Clone, Copy, PartialEq, Eq, Drop, Error)]
pub enum ProgFault {
    /// Memory was refused.
    #[error("no memory")]
    Memory,
    /// The input couldn't be opened or read.
    #[error("read failed")]
    Read,
    /// The input has more bytes than the program takes.
    #[error("too many bytes")]
    TooManyBytes,
    /// The file has more messages than a message number counts.
    #[error("too many messages")]
    TooManyMessages,
    /// The input has an odd number of hexadecimal digits, or a byte that is no digit, no space and no line feed.
    #[error("bad hex")]
    BadHex,
    /// The output couldn't be written.
    #[error("write failed")]
    Write,
    /// A line of the text is faulty.
    #[error(transparent)]
    Asm(AsmFault),
}

impl From<AllocError> for ProgFault {
    ghost from_gives = { λ _ fault. fault ≡ Memory };

    fn from(_error: AllocError) -> ProgFault {
        ProgFault::Memory
    }
}

impl<T: Drop> From<AllocFailed<T>> for ProgFault {
    ghost from_gives = { λ _ fault. fault ≡ Memory };

    fn from(_error: AllocFailed<T>) -> ProgFault {
        ProgFault::Memory
    }
}

impl From<LoadFault> for ProgFault {
    ghost from_gives = { λ load fault. fault ≡ fault_of_load load };

    fn from(fault: LoadFault) -> ProgFault {
        match fault {
            LoadFault::Memory => ProgFault::Memory,
            LoadFault::Read => ProgFault::Read,
            LoadFault::TooManyBytes => ProgFault::TooManyBytes,
            LoadFault::TooManyMessages => ProgFault::TooManyMessages,
        }
    }
}

impl From<WriteFault> for ProgFault {
    ghost from_gives = { λ _ fault. fault ≡ WriteFailed };

    fn from(_fault: WriteFault) -> ProgFault {
        ProgFault::Write
    }
}

impl From<AsmFault> for ProgFault {
    ghost from_gives = { λ asm fault. fault ≡ fault_of_asm asm };

    fn from(fault: AsmFault) -> ProgFault {
        match fault {
            AsmFault::Memory => ProgFault::Memory,
            line => ProgFault::Asm(line),
        }
    }
}

impl From<FromHexError> for ProgFault {
    ghost from_gives = { λ error fault. fault ≡ fault_of_hex error };

    fn from(error: FromHexError) -> ProgFault {
        match error {
            FromHexError::OutOfMemory => ProgFault::Memory,
            FromHexError::OddLength
            | FromHexError::InvalidStringLength
            | FromHexError::InvalidHexCharacter { c: _, index: _ } => ProgFault::BadHex,
        }
    }
}
