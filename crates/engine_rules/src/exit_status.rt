//! The exit status of the program.
ghost use Rattle.std.specs.Prelude.{◌≡◌};
ghost use Rattle.engine_rules.specs.ExitStatus.{exit_status};

use crate::fault::ProgFault;
use itch_text::AsmFault;

/// The exit status for what an engine returned: 0 where no message was refused, 1 where some were, 3 where input or
/// output failed and where a file or its digits aren't taken, 4 where memory was refused, and 5 where a line of a text is
/// faulty. 2 is for invalid arguments.
pub fn status(returned: &Result<u32, ProgFault>) -> u8
    ensures { result ≡ exit_status returned.now }
{
    match returned {
        Ok(0) => 0,
        Ok(_) => 1,
        Err(ProgFault::Memory | ProgFault::Asm(AsmFault::Memory)) => 4,
        Err(ProgFault::Asm(_)) => 5,
        Err(
            ProgFault::Read
            | ProgFault::TooManyBytes
            | ProgFault::TooManyMessages
            | ProgFault::BadHex
            | ProgFault::Write,
        ) => 3,
    }
}
