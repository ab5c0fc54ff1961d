// The payloads of a day, one after another.
ghost use Rattle.std.specs.Prelude.{◌≡◌};
ghost use Rattle.std.specs.Iterator.{YieldsFirstRef, item_count};
ghost use Rattle.binaryfile.specs.Index.{payloads_of};

use crate::scan::split_first_payload;
use std::marker::Model;

/// The payloads of a day in their order, borrowed, seen as the list of those that are left.
///
/// One pass over the bytes, with no memory of its own.
#[derive(Drop)]
pub struct Payloads<'a> {
    bytes: &'a [u8],
}

impl<'a> Model for Payloads<'a> {
    ghost use Rattle.std.specs.Prelude.{ℕ, List};
    ghost use Rattle.binaryfile.specs.Index.{payloads_of};

    ghost Value = { List (List ℕ) };

    ghost view = { λ it. payloads_of it.bytes.now };
}

impl<'a> Payloads<'a> {
    pub(crate) fn new(bytes: &'a [u8]) -> Payloads<'a>
        ensures { result ≡ payloads_of bytes.now }
    {
        Payloads { bytes }
    }
}

impl<'a> Iterator for Payloads<'a> {
    type Item = &'a [u8];

    ghost next_gives = { YieldsFirstRef (λ left. left) };

    ghost remaining = { item_count (λ left. left) };

    fn next(&mut self) -> Option<&'a [u8]> {
        let (payload, rest) = split_first_payload(self.bytes)?;
        self.bytes = rest;
        Some(payload)
    }
}
