//! Bytes in hexadecimal digits.
ghost use Rattle.std.specs.Prelude.{◌≡◌, [], ◌∷◌};
ghost use Rattle.byte_strings.specs.Extending.{Extends};
ghost use Rattle.hex.specs.Hex.{encode_lower};

use std::alloc::{AllocError, Allocator};

/// A byte in two hexadecimal digits of lower case.
pub(crate) fn digits_of(byte: u8) -> [u8; 2]
    ensures { result ≡ encode_lower (byte ∷ []) }
{
    let mut digits = [0u8; 2];
    hex::encode_to_slice([byte], &mut digits).unwrap();
    digits
}

/// Adds bytes in hexadecimal digits of lower case, two for each. After an error some of them may have been added.
pub fn put_hex<A: Allocator>(text: &mut Vec<u8, A>, bytes: &[u8]) -> Result<(), AllocError>
    ensures { Extends text.old text.new (encode_lower bytes.now) result }
{
    for byte in bytes {
        text.extend_from_slice(&digits_of(*byte))?;
    }
    Ok(())
}
