//! Breakpoints, each with the messages at which it stops.
ghost use Rattle.std.specs.Prelude.{◌≡◌, ◌≢◌, ◌≤◌, ◌<◌, ◌++◌, ◌∷◌, [], ℕ, IfNone, IfOk, IfSome, OnErr, OnOk, Contains, None, Some, length, map, slice_get};
ghost use Rattle.std.specs.List.{remove};
ghost use Rattle.debugger.specs.Finding.{IsOnward, IsRearward};
ghost use Rattle.debugger.specs.Stops.{hit, stops_at, stops_of};

use crate::breakpoint::Break;
use crate::finding::{latest_until, next_after};
use crate::scanning::stops_of;
use binaryfile::Day;
use indexmap::IndexSet;
use std::alloc::{AllocError, Allocator};
use std::hash::{BuildHasherDefault, FoldHasher};
use std::marker::Model;

/// The breakpoints of a day, in the order in which they were added, seen as the day and their list.
#[derive(Drop)]
pub struct Breakpoints<'d, A: Allocator> {
    day: &'d Day<A>,
    breaks: IndexSet<Break, BuildHasherDefault<FoldHasher>, A>,
    // Where each of them stops.
    stops: Vec<Vec<u32, A>, A>,
}

impl<'d, A: Allocator> Model for Breakpoints<'d, A> {
    ghost use Rattle.std.specs.Prelude.{◌≡◌, map};
    ghost use Rattle.debugger.specs.Sessions.{Marked};
    ghost use Rattle.debugger.specs.Stops.{stops_of};

    ghost Value = { Marked };

    ghost view = { λ b. record { day = b.day.now.payloads; breaks = b.breaks.keys } };

    ghost invariant = { λ b.
        map (λ list. list.items) b.stops.items ≡ map (stops_of b.day.now.payloads) b.breaks.keys };
}

// The index of a breakpoint.
fn index_of(breaks: &[Break], breakpoint: &Break) -> Option<usize>
    ensures found { IfSome result (λ index. slice_get breaks.now index ≡ Some breakpoint.now) }
    ensures first { IfSome result (λ index. (earlier : ℕ) → earlier < index →
        slice_get breaks.now earlier ≢ Some breakpoint.now) }
    ensures there { IfSome result (λ _. Contains breaks.now breakpoint.now) }
    ensures none { IfNone result (¬ Contains breaks.now breakpoint.now) }
{
    breaks.iter().position(|other| other == breakpoint)
}

// The least of the next stops in these lists after a message, or the last message.
fn least_after<A: Allocator>(
    day: &Day<A>,
    stops: &[Vec<u32, A>],
    breaks: &[Break],
    from: u32,
) -> u32
    requires stops { map (λ list. list.items) stops.now ≡ map (stops_of day.now.payloads) breaks.now }
    requires within { from < length day.now.payloads }
    ensures { IsOnward (stops_at breaks.now day.now.payloads) from (length day.now.payloads) result }
{
    let mut least = day.len();
    for list in stops {
        if let Some(at) = next_after(list, from) {
            least = at.min(least);
        }
    }
    least
}

// The greatest of the latest stops in these lists before a message, or 0.
fn greatest_before<A: Allocator>(
    day: &Day<A>,
    stops: &[Vec<u32, A>],
    breaks: &[Break],
    from: u32,
) -> u32
    requires stops { map (λ list. list.items) stops.now ≡ map (stops_of day.now.payloads) breaks.now }
    requires some { 0 < from }
    requires within { from ≤ length day.now.payloads }
    ensures { IsRearward (stops_at breaks.now day.now.payloads) from result }
{
    let mut greatest = 0;
    for list in stops {
        if let Some(at) = latest_until(list, from - 1) {
            greatest = at.max(greatest);
        }
    }
    greatest
}

// The index of the first of these lists that has a message.
fn first_hit<A: Allocator>(
    day: &Day<A>,
    stops: &[Vec<u32, A>],
    breaks: &[Break],
    at: u32,
) -> Option<usize>
    requires stops { map (λ list. list.items) stops.now ≡ map (stops_of day.now.payloads) breaks.now }
    requires some { 0 < at }
    requires within { at ≤ length day.now.payloads }
    ensures { result ≡ hit breaks.now day.now.payloads at }
{
    for (index, list) in stops.iter().enumerate() {
        if latest_until(list, at) == Some(at) {
            return Some(index);
        }
    }
    None
}

impl<'d, A: Allocator + Copy> Breakpoints<'d, A> {
    /// A day without breakpoints.
    pub fn new(alloc: A, day: &'d Day<A>) -> Breakpoints<'d, A>
        ensures { result ≡ record { day = day.now.payloads; breaks = [] } }
    {
        Breakpoints {
            day,
            breaks: IndexSet::new(alloc),
            stops: Vec::new(alloc),
        }
    }

    // Adds a breakpoint that isn't there as the last, and returns its index.
    fn add_new(&mut self, alloc: A, breakpoint: Break) -> Result<usize, AllocError>
        requires { ¬ Contains self.old.breaks breakpoint }
        ensures index { IfOk result (λ index. slice_get self.new.breaks index ≡ Some breakpoint) }
        ensures first { IfOk result (λ index. (earlier : ℕ) → earlier < index →
            slice_get self.new.breaks earlier ≢ Some breakpoint) }
        ensures added { OnOk result (self.new.breaks ≡ self.old.breaks ++ breakpoint ∷ []) }
        ensures day { self.new.day ≡ self.old.day }
        ensures err { OnErr result (self.new ≡ self.old) }
    {
        let list = stops_of(alloc, self.day, &breakpoint)?;
        self.stops.reserve(1)?;
        let (index, _) = self.breaks.insert_full(breakpoint)?;
        self.stops.push(list).unwrap();
        Ok(index)
    }

    /// Adds a breakpoint as the last, and returns its index; one that is there keeps its index. An error
    /// leaves all as it was.
    pub fn add(&mut self, alloc: A, breakpoint: Break) -> Result<usize, AllocError>
        ensures index { IfOk result (λ index. slice_get self.new.breaks index ≡ Some breakpoint) }
        ensures first { IfOk result (λ index. (earlier : ℕ) → earlier < index →
            slice_get self.new.breaks earlier ≢ Some breakpoint) }
        ensures there { OnOk result (Contains self.old.breaks breakpoint → self.new ≡ self.old) }
        ensures new { OnOk result (¬ Contains self.old.breaks breakpoint →
            self.new.breaks ≡ self.old.breaks ++ breakpoint ∷ []) }
        ensures day { self.new.day ≡ self.old.day }
        ensures err { OnErr result (self.new ≡ self.old) }
    {
        match index_of(self.breaks.as_slice(), &breakpoint) {
            Some(index) => Ok(index),
            None => self.add_new(alloc, breakpoint),
        }
    }
}

impl<'d, A: Allocator> Breakpoints<'d, A> {
    /// How many breakpoints there are.
    pub fn len(&self) -> usize
        ensures { result ≡ length self.now.breaks }
    {
        self.breaks.len()
    }

    /// The breakpoint at an index, counted from 0.
    pub fn at(&self, index: usize) -> Option<Break>
        ensures { result ≡ slice_get self.now.breaks index }
    {
        self.breaks.get_index(index).copied()
    }

    /// Removes the breakpoint at an index, and returns it. Those after it move down by one.
    pub fn remove(&mut self, index: usize) -> Option<Break>
        ensures removed { result ≡ slice_get self.old.breaks index }
        ensures none { IfNone result (self.new ≡ self.old) }
        ensures left { IfSome result (λ _. self.new.breaks ≡ remove self.old.breaks index) }
        ensures day { self.new.day ≡ self.old.day }
    {
        if index >= self.stops.len() {
            return None;
        }
        self.stops.remove(index);
        self.breaks.shift_remove_index(index)
    }

    /// The least message after `from` at which a breakpoint stops, or where there is none the last one. The caller
    /// passes a message before the last.
    pub fn next_stop(&self, from: u32) -> u32
        requires { from < length self.now.day }
        ensures { IsOnward (stops_at self.now.breaks self.now.day) from (length self.now.day) result }
    {
        least_after(self.day, &self.stops, self.breaks.as_slice(), from)
    }

    /// The greatest message before `from` at which a breakpoint stops, or where there is none 0. The caller passes a
    /// message of the day.
    pub fn previous_stop(&self, from: u32) -> u32
        requires some { 0 < from }
        requires within { from ≤ length self.now.day }
        ensures { IsRearward (stops_at self.now.breaks self.now.day) from result }
    {
        greatest_before(self.day, &self.stops, self.breaks.as_slice(), from)
    }

    /// The index of the first breakpoint that stops at a message of the day.
    pub fn hit(&self, at: u32) -> Option<usize>
        requires some { 0 < at }
        requires within { at ≤ length self.now.day }
        ensures { result ≡ hit self.now.breaks self.now.day at }
    {
        first_hit(self.day, &self.stops, self.breaks.as_slice(), at)
    }
}
