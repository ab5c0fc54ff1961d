//! The references that the orders of one stock have had.
ghost use Rattle.std.specs.Prelude.{◌≡◌, ◌≢◌, ◌+◌, ◌<◌, ◌^◌, cond, false, IfOk, IfSome, IfNone, OnOk, OnErr, ℕ};
ghost use Rattle.std.specs.Bool.{IsTrue};
ghost use Rattle.std.specs.BTreeMap.{is_at};
ghost use Rattle.std.specs.List.{All, list_any};
ghost use Rattle.std.specs.List.Sorted.{IsStrictlyIncreasing};
ghost use Rattle.std.specs.Ordering.{nat_cmp};
ghost use Rattle.std.specs.FinMap as maps;
ghost use Rattle.itch_table.specs.KeySets.{with_key};
ghost use Rattle.stock_machine.specs.SpentParts.{risen};

use std::alloc::{AllocError, Allocator};
use std::collections::BTreeSet;
use std::marker::Model;

/// The references that the orders of one stock have had.
///
/// On a real day references rise. One above all that rose before it goes to the end of a list, in four bytes: its
/// distance from the first that rose. Any other goes into a tree, and so does one too far from the first.
#[derive(Drop)]
pub(crate) struct SpentReferences<A: Allocator> {
    // The first reference that rose, where there is one.
    first: u64,
    distances: Vec<u32, A>,
    others: BTreeSet<u64, A>,
}

impl<A: Allocator> Model for SpentReferences<A> {
    ghost use Rattle.std.specs.Coded.{coded_ℕ};
    ghost use Rattle.std.specs.Ordering.{nat_cmp};
    ghost use Rattle.std.specs.List.Sorted.{IsStrictlyIncreasing};
    ghost use Rattle.itch_table.specs.KeySets.{KeySet, coded_keys, set_of};
    ghost use Rattle.stock_machine.specs.SpentParts.{spent_in};

    ghost Value = { KeySet nat_cmp };

    ghost coded = { coded_keys {R = nat_cmp} coded_ℕ };

    ghost view = { λ s. set_of (spent_in s.first s.distances.items s.others.keys) };

    ghost invariant = { λ s. IsStrictlyIncreasing s.distances.items };
}

// A reference's distance from the first that rose, where it isn't below that one and the distance fits.
fn distance_from(first: u64, reference: u64) -> Option<u32>
    ensures some { IfSome result (λ distance. first + distance ≡ reference) }
    ensures none { IfNone result ((distance : ℕ) → distance < 2 ^ 32 → first + distance ≢ reference) }
{
    let distance = reference.checked_sub(first)?;
    u32::try_from(distance).ok()
}

// The first reference that rose, or where none has the one that comes.
fn first_with(first: u64, distances: &[u32], reference: u64) -> u64
    ensures { risen result distances.now ≡ risen first distances.now }
{
    if distances.is_empty() {
        reference
    } else {
        first
    }
}

// Whether a distance is above all of these, which rise.
fn is_above_all(distances: &[u32], distance: u32) -> bool
    requires { IsStrictlyIncreasing distances.now }
    ensures { IsTrue result → All (λ d. d < distance) distances.now }
{
    match distances.last() {
        Some(last) => *last < distance,
        None => true,
    }
}

// Whether a distance is one of these, which rise.
fn is_one_of(distances: &[u32], distance: u32) -> bool
    requires { IsStrictlyIncreasing distances.now }
    ensures { result ≡ list_any (is_at (nat_cmp distance)) distances.now }
{
    !is_above_all(distances, distance) && distances.binary_search(&distance).is_ok()
}

// Whether a reference is one of those that rose.
#[inline(always)]
fn has_risen(first: u64, distances: &[u32], reference: u64) -> bool
    requires { IsStrictlyIncreasing distances.now }
    ensures { result ≡ list_any (is_at (nat_cmp reference)) (risen first distances.now) }
{
    match distance_from(first, reference) {
        Some(distance) => is_one_of(distances, distance),
        None => false,
    }
}

// Takes a reference out of those that rose, where it is one of them.
fn take_out<A: Allocator>(first: u64, distances: &mut Vec<u32, A>, reference: u64)
    requires { IsStrictlyIncreasing distances.old.items }
    ensures rising { IsStrictlyIncreasing distances.new.items }
    ensures gone { (other : ℕ) → list_any (is_at (nat_cmp other)) (risen first distances.new.items)
        ≡ cond (is_at (nat_cmp reference) other) false
        (list_any (is_at (nat_cmp other)) (risen first distances.old.items)) }
{
    let Some(distance) = distance_from(first, reference) else {
        return;
    };
    distances.retain(|known| *known != distance);
}

impl<A: Allocator + Copy> SpentReferences<A> {
    /// No references. It takes no memory yet.
    pub fn new(alloc: A) -> SpentReferences<A>
        ensures { result ≡ maps.empty }
    {
        SpentReferences {
            first: 0,
            distances: Vec::new(alloc),
            others: BTreeSet::new(alloc),
        }
    }

    /// Whether an order has had a reference.
    #[inline(always)]
    pub fn contains(&self, reference: u64) -> bool
        ensures { result ≡ maps.contains_key self.now reference }
    {
        has_risen(self.first, &self.distances, reference) || self.others.contains(&reference)
    }

    /// Adds a reference. An error leaves the references as they were.
    #[inline(always)]
    pub fn insert(&mut self, reference: u64) -> Result<(), AllocError>
        ensures ok { OnOk result (self.new ≡ with_key self.old reference) }
        ensures err { OnErr result (self.new ≡ self.old) }
    {
        let first = first_with(self.first, &self.distances, reference);
        if let Some(distance) = distance_from(first, reference)
            && is_above_all(&self.distances, distance)
        {
            self.distances.push(distance)?;
            self.first = first;
            return Ok(());
        }
        self.others.insert(reference)?;
        Ok(())
    }

    /// Takes out a reference, where it is there.
    pub fn remove(&mut self, reference: u64)
        ensures { self.new ≡ maps.remove self.old reference }
    {
        take_out(self.first, &mut self.distances, reference);
        self.others.remove(&reference);
    }

    /// The same references, in memory of `alloc`.
    pub fn copy(&self, alloc: A) -> Result<SpentReferences<A>, AllocError>
        ensures { IfOk result (λ copy. copy ≡ self.now) }
    {
        Ok(SpentReferences {
            first: self.first,
            distances: Vec::from_slice(alloc, &self.distances)?,
            others: copied(alloc, &self.others)?,
        })
    }
}

// The same references, in memory of `alloc`.
fn copied<A: Allocator + Copy>(
    alloc: A,
    references: &BTreeSet<u64, A>,
) -> Result<BTreeSet<u64, A>, AllocError>
    ensures { IfOk result (λ copied. copied.keys ≡ references.now.keys) }
{
    references.iter().copied().collect(alloc)
}
