// The entries of a byte string, from the first on.
ghost use Rattle.std.specs.Prelude.{◌≡◌, ◌≢◌, ◌<◌, ◌≤◌, ◌*◌, List, ℕ, [], ◌∷◌, length, drop, Err, MatchOption, IfOk, IsErrOf, slice_index_or};
ghost use Rattle.byte_strings.specs.Bytes.{AreBytes};
ghost use Rattle.binaryfile.specs.Entries.{marker};
ghost use Rattle.binaryfile.specs.Index.{offset, payloads_of, IsIndex};
ghost use Rattle.binaryfile.specs.Scanned.{contents_of};

use crate::{LoadFault, STRIDE};
use std::alloc::{AllocError, Allocator};

/// How many entries there are, the place where they end, and their index.
#[derive(Drop)]
pub(crate) struct IndexedEntries<A: Allocator> {
    pub(crate) count: usize,
    pub(crate) end: usize,
    pub(crate) starts: Vec<u64, A>,
}

/// The payload of the first entry and the bytes after that entry, where a whole one stands there; none where an end marker
/// or less than a whole entry does.
#[inline(always)]
pub fn split_first_payload(bytes: &[u8]) -> Option<(&[u8], &[u8])>
    ensures { MatchOption result (payloads_of bytes.now ≡ [])
        (λ first. payloads_of bytes.now ≡ first.0.now ∷ payloads_of first.1.now) }
{
    let (head, rest) = bytes.split_first_chunk::<2>()?;
    let length = u16::from_be_bytes(*head) as usize;
    if length == 0 || length > rest.len() {
        return None;
    }
    Some(rest.split_at(length))
}

// The payload of the first entry, where a whole one stands there.
fn first_payload(bytes: &[u8]) -> Option<&[u8]>
    ensures { MatchOption result (payloads_of bytes.now ≡ [])
        (λ payload. (rest : List (List ℕ)) × (payloads_of bytes.now ≡ payload.now ∷ rest)) }
{
    let (payload, _) = split_first_payload(bytes)?;
    Some(payload)
}

// How many entries there are.
fn entry_count(bytes: &[u8]) -> usize
    ensures { result ≡ length (payloads_of bytes.now) }
{
    let mut count = 0;
    let mut end = 0;
    while let Some(payload) = first_payload(&bytes[end..]) {
        end += 2 + payload.len();
        count += 1;
    }
    count
}

// The place of the entry of this number, counted from 0, by that of an earlier one.
fn place_from(bytes: &[u8], from: usize, place: usize, number: usize) -> usize
    requires order { from ≤ number }
    requires number { number < length (payloads_of bytes.now) }
    requires place { place ≡ offset (payloads_of bytes.now) from }
    ensures place { result ≡ offset (payloads_of bytes.now) number }
    ensures within { result ≤ length bytes.now }
{
    let mut at = place;
    for _ in from..number {
        let payload = first_payload(&bytes[at..]).unwrap();
        at += 2 + payload.len();
    }
    at
}

// The place of the entry of this number, counted from 0, by the index.
fn entry_place(bytes: &[u8], starts: &[u64], number: usize) -> usize
    requires index { IsIndex starts.now bytes.now }
    requires number { number < length (payloads_of bytes.now) }
    ensures place { result ≡ offset (payloads_of bytes.now) number }
    ensures within { result ≤ length bytes.now }
{
    let entry = number / STRIDE;
    place_from(bytes, entry * STRIDE, starts[entry] as usize, number)
}

// Counts the entries and indexes them: the place of each whose number from 0 is a multiple of `STRIDE`.
fn index_entries<A: Allocator>(alloc: A, bytes: &[u8]) -> Result<IndexedEntries<A>, AllocError>
    ensures count { IfOk result (λ made. made.count ≡ length (payloads_of bytes.now)) }
    ensures end { IfOk result (λ made. made.end ≡ offset (payloads_of bytes.now) made.count) }
    ensures within { IfOk result (λ made. made.end ≤ length bytes.now) }
    ensures few { IfOk result (λ made. 2 * made.count ≤ length bytes.now) }
    ensures index { IfOk result (λ made. IsIndex made.starts.items bytes.now) }
{
    let mut starts = Vec::new(alloc);
    let mut count = 0;
    let mut end = 0;
    while let Some(payload) = first_payload(&bytes[end..]) {
        if count % STRIDE == 0 {
            starts.push(end as u64)?;
        }
        end += 2 + payload.len();
        count += 1;
    }
    Ok(IndexedEntries { count, end, starts })
}

/// Counts the entries and indexes them, where there are no more payloads than a limit. Bytes that may have more are
/// counted first, before any memory is asked for.
pub(crate) fn entries_within<A: Allocator>(
    alloc: A,
    bytes: &[u8],
    messages: u32,
) -> Result<IndexedEntries<A>, LoadFault>
    ensures count { IfOk result (λ made. made.count ≡ length (payloads_of bytes.now)) }
    ensures end { IfOk result (λ made. made.end ≡ offset (payloads_of bytes.now) made.count) }
    ensures within { IfOk result (λ made. made.end ≤ length bytes.now) }
    ensures limit { IfOk result (λ made. made.count ≤ messages) }
    ensures index { IfOk result (λ made. IsIndex made.starts.items bytes.now) }
    ensures too_many { IsErrOf result LoadFault.TooManyMessages → messages < length (payloads_of bytes.now) }
    ensures judged { messages < length (payloads_of bytes.now) → result ≡ Err LoadFault.TooManyMessages }
    ensures not_read { result ≢ Err LoadFault.Read }
    ensures not_bytes { result ≢ Err LoadFault.TooManyBytes }
    ensures are { AreBytes bytes.now }
{
    // An entry has at least two bytes.
    let may_have_more = bytes.len() as u64 / 2 > u64::from(messages);
    if may_have_more && entry_count(bytes) > messages as usize {
        return Err(LoadFault::TooManyMessages);
    }
    Ok(index_entries(alloc, bytes)?)
}

/// The payload of this number, counted from 0.
pub(crate) fn nth_payload<'a>(bytes: &'a [u8], starts: &[u64], number: usize) -> &'a [u8]
    requires index { IsIndex starts.now bytes.now }
    requires number { number < length (payloads_of bytes.now) }
    ensures { result.now ≡ slice_index_or (payloads_of bytes.entry.now) number result.now }
{
    let at = entry_place(bytes, starts, number);
    first_payload(&bytes[at..]).unwrap()
}

/// Whether the bytes, which begin with no entry, begin with an end marker.
pub(crate) fn begins_with_marker(bytes: &[u8]) -> bool
    requires { payloads_of bytes.now ≡ [] }
    ensures { result ≡ (contents_of bytes.now).marked }
{
    bytes.starts_with(&[0, 0])
}

// How many bytes the end marker has, where there is one.
fn marker_len(marked: bool) -> usize
    ensures { result ≡ length (marker marked) }
{
    if marked { 2 } else { 0 }
}

// Where the bytes begin that stand after the entries and the marker.
fn tail_start(bytes: &[u8], end: usize, marked: bool) -> usize
    requires end { end ≡ offset (payloads_of bytes.now) (length (payloads_of bytes.now)) }
    requires marked { marked ≡ (contents_of bytes.now).marked }
    ensures within { result ≤ length bytes.now }
    ensures tail { drop result bytes.now ≡ (contents_of bytes.now).tail }
{
    end + marker_len(marked)
}

/// The bytes after the entries, which end at `end`, and after the marker.
pub(crate) fn bytes_after(bytes: &[u8], end: usize, marked: bool) -> &[u8]
    requires end { end ≡ offset (payloads_of bytes.now) (length (payloads_of bytes.now)) }
    requires marked { marked ≡ (contents_of bytes.now).marked }
    ensures { result.now ≡ (contents_of bytes.entry.now).tail }
{
    let start = tail_start(bytes, end, marked);
    &bytes[start..]
}
