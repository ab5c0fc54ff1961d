//! The beginning of a pipe, which is kept to be read again.
use itch_show::TakesMessages;
use std::alloc::{AllocError, Global};

/// The messages that were taken, as the bytes of a file that has these alone.
#[derive(Drop)]
pub struct Kept {
    bytes: Vec<u8>,
}

impl Kept {
    /// Those of no message.
    pub fn new(alloc: Global) -> Kept {
        Kept {
            bytes: Vec::new(alloc),
        }
    }

    /// The bytes of the file.
    pub fn bytes(&self) -> &[u8] {
        &self.bytes
    }
}

impl TakesMessages<Global> for Kept {
    ghost has_taken = { λ _ _ _. Unit {0} };

    fn take(&mut self, _alloc: Global, payload: &[u8]) -> Result<(), AllocError> {
        // No payload of a file is longer.
        if let Ok(length) = u16::try_from(payload.len()) {
            self.bytes.extend_from_slice(&length.to_be_bytes())?;
            self.bytes.extend_from_slice(payload)?;
        }
        Ok(())
    }
}
