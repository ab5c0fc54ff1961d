//! The messages of one kind.
ghost use Rattle.std.specs.Prelude.{◌≡◌, count_by, slice_get};
ghost use Rattle.uses.specs.Kinds.{is_message_of};

use binaryfile::Day;
use itch_layouts::{Shape, read_msg};
use std::alloc::Allocator;

// Whether a payload is a message of a kind, and not only begins like one.
fn is_message_of(payload: &[u8], kind: u8) -> bool
    ensures { result ≡ is_message_of kind payload.now }
{
    match read_msg(payload) {
        Shape::Known(_) => match payload.first() {
            Some(first) => *first == kind,
            None => false,
        },
        Shape::Unknown | Shape::BadLength => false,
    }
}

/// How many of a day's payloads are messages of a kind, such as `b'A'`. It takes no memory.
///
/// A payload of a wrong length, which a machine refuses, is none.
pub fn messages_of_kind<A: Allocator>(day: &Day<A>, kind: u8) -> u32
    ensures { result ≡ count_by (is_message_of kind) day.now.payloads }
{
    let mut count = 0;
    for payload in day.payloads() {
        if is_message_of(payload, kind) {
            count += 1;
        }
    }
    count
}

#[cfg(test)]
mod tests {
    use super::*;
    use std::test::Fail;

    // Two system events, a payload that begins like one, and one of an unknown type.
    const FILE: &[u8] =
        b"\x00\x0cS\x00\x00\x00\x00\x00\x00\x00\x00\x00\x00O\x00\x01S\x00\x01O\x00\x0cS\x00\x00\x00\x00\x00\x00\x00\x00\x00\x00C";

    #[test]
    fn only_whole_messages_are_counted(rt: HostRuntime) -> Result<(), Fail> {
        let day = Day::from_bytes(rt.alloc(), FILE.to_vec(rt.alloc())?, 10)?;
        for (kind, wanted) in [(b'S', 2), (b'O', 0), (b'A', 0)] {
            assert_eq!(rt; messages_of_kind(&day, kind), wanted, "kind {kind}");
        }
        Ok(())
    }
}
