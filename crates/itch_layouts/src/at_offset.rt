//! Numbers and bytes at an offset of a payload.
ghost use Rattle.std.specs.Prelude.{◌≡◌, ◌+◌, ◌≤◌, ◌<◌, ◌∷◌, [], length};
ghost use Rattle.itch_layouts.specs.Layouts.{bytes_at, number_at};

use crate::nanos::Nanos;

/// The bytes at an offset.
#[tactic(auto, unfolding(crate::specs::Layouts::bytes_at))]
#[inline(always)]
pub(crate) fn array_at<const N: usize>(payload: &[u8], offset: usize) -> [u8; N]
    requires { offset + N ≤ length payload.now }
    ensures { result ≡ bytes_at offset N payload.now }
{
    *payload[offset..offset + N].first_chunk::<N>().unwrap()
}

/// The byte at an offset.
#[tactic(auto, unfolding(crate::specs::Layouts::bytes_at))]
#[inline(always)]
pub(crate) fn byte_at(payload: &[u8], offset: usize) -> u8
    requires { offset < length payload.now }
    ensures { result ∷ [] ≡ bytes_at offset 1 payload.now }
{
    payload[offset]
}

/// The number of two bytes at an offset.
#[tactic(auto, using(crate::proofs::Numbers::number_at_16))]
#[inline(always)]
pub(crate) fn u16_at(payload: &[u8], offset: usize) -> u16
    requires { offset + 2 ≤ length payload.now }
    ensures { result ≡ number_at offset 2 payload.now }
{
    u16::from_be_bytes(array_at::<2>(payload, offset))
}

/// The number of four bytes at an offset.
#[tactic(auto, using(crate::proofs::Numbers::number_at_32))]
#[inline(always)]
pub(crate) fn u32_at(payload: &[u8], offset: usize) -> u32
    requires { offset + 4 ≤ length payload.now }
    ensures { result ≡ number_at offset 4 payload.now }
{
    u32::from_be_bytes(array_at::<4>(payload, offset))
}

/// The number of eight bytes at an offset.
#[tactic(auto, using(crate::proofs::Numbers::number_at_64))]
#[inline(always)]
pub(crate) fn u64_at(payload: &[u8], offset: usize) -> u64
    requires { offset + 8 ≤ length payload.now }
    ensures { result ≡ number_at offset 8 payload.now }
{
    u64::from_be_bytes(array_at::<8>(payload, offset))
}

/// The time of six bytes at an offset.
#[tactic(auto, using(crate::proofs::Numbers::number_at_48))]
#[inline(always)]
pub(crate) fn nanos_at(payload: &[u8], offset: usize) -> Nanos
    requires { offset + 6 ≤ length payload.now }
    ensures { result ≡ number_at offset 6 payload.now }
{
    let [a, b, c, d, e, f] = array_at::<6>(payload, offset);
    Nanos::below_limit(u64::from_be_bytes([0, 0, a, b, c, d, e, f]))
}
