//! A position in a day, and breakpoints.
ghost use Rattle.std.specs.Prelude.{◌≡◌, ◌≢◌, ◌↔◌, ◌+◌, ◌-◌, ◌<◌, ◌≤◌, Contains, Err, IfNone, IfOk, IfSome, IsErrOf, None, OnErr, OnOk, Some, length, slice_get, ℕ};
ghost use Rattle.itch_table.specs.After.{after, outcome_at};
ghost use Rattle.day_core.specs.Owners.{machine_of};
ghost use Rattle.debugger.specs.FaultNumbers.{number_of};
ghost use Rattle.debugger.specs.Sessions.{moved_to, new_session, next_stop, previous_stop, with_break, without_break};
ghost use Rattle.debugger.specs.Stops.{hit};
ghost use Rattle.debugger.specs.declared.debugging.DebugFault.TheVariants.{Memory};

use crate::breakpoint::Break;
use crate::breakpoints::Breakpoints;
use crate::events::{event_at, systems_of};
use crate::outcomes::outcome_at;
use crate::tracks::Tracks;
use binaryfile::Day;
use itch_table::Outcome;
use std::alloc::{AllocError, Allocator};
use std::marker::Model;
use stock_machine::Stock;

/// Why a debugger doesn't move.
#[derive(Debug, Clone, Copy, PartialEq, Eq)]
pub enum DebugFault {
    /// Memory was refused.
    Memory,
    /// The move leads past the last message.
    PastEnd,
    /// The move leads before position 0.
    BeforeStart,
}

impl DebugFault {
    /// The fault's fixed number, from 1 to 3.
    pub fn number(self) -> u8
        ensures { result ≡ number_of self }
    {
        match self {
            DebugFault::Memory => 1,
            DebugFault::PastEnd => 2,
            DebugFault::BeforeStart => 3,
        }
    }
}

impl From<AllocError> for DebugFault {
    ghost from_gives = { λ _ fault. fault ≡ Memory };

    fn from(_error: AllocError) -> DebugFault {
        DebugFault::Memory
    }
}

/// Where a search for a breakpoint came to.
#[derive(Debug, Clone, Copy, PartialEq, Eq)]
pub struct Stop {
    /// The new position.
    pub at: u32,
    /// The index of the first breakpoint that stops there, counted from 0; none where no breakpoint does.
    pub hit: Option<usize>,
}

/// A position in a day, which moves both ways, and breakpoints, at which it stops.
///
/// A position is a number of messages, from 0 to all of the day's, and shows what the day has built up after exactly
/// that many, however it was reached. The debugger is seen as the day, the position, the list of the breakpoints, and
/// how many messages of a stock lie at least from one copy of its machine to the next.
///
/// A move past an end of the day is a fault, which is decided before any memory is asked for. A fault or an error
/// leaves all as it was.
#[derive(Drop)]
pub struct Debugger<'d, A: Allocator> {
    day: &'d Day<A>,
    position: u32,
    outcome: Option<Outcome>,
    systems: Vec<u32, A>,
    breakpoints: Breakpoints<'d, A>,
    tracks: Tracks<'d, A>,
}

impl<'d, A: Allocator> Model for Debugger<'d, A> {
    ghost use Rattle.debugger.specs.Sessions.{IsSession, Session};

    ghost Value = { Session };

    ghost view = { λ d.
        record {
          day = d.day.now.payloads;
          every = d.tracks.every;
          position = d.position;
          breaks = d.breakpoints.breaks;
        } };

    ghost invariant = { λ d.
        IsSession d.day.now.payloads d.position d.outcome d.systems.items d.breakpoints d.tracks };
}

impl<'d, A: Allocator + Copy> Debugger<'d, A> {
    /// A debugger of a day at position 0, without breakpoints. It keeps copies of a stock's machine `every` of its
    /// messages apart, or further apart where that would make more than 48 ([`Track`](checkpoints::Track)); `every` is
    /// at least 1. It goes through the day twice, steps the stocks with very many messages along it, so that no later
    /// move has to, and keeps copies of these and four to eight bytes a message.
    pub fn new(alloc: A, day: &'d Day<A>, every: u32) -> Result<Debugger<'d, A>, AllocError>
        requires { 0 < every }
        ensures { IfOk result (λ debugger. debugger ≡ new_session day.now.payloads every) }
    {
        Ok(Debugger {
            day,
            position: 0,
            outcome: None,
            systems: systems_of(alloc, day)?,
            breakpoints: Breakpoints::new(alloc, day),
            tracks: Tracks::new(alloc, day, every)?,
        })
    }

    // Moves to a position of the day.
    fn move_to(&mut self, alloc: A, n: u32) -> Result<(), AllocError>
        requires { n ≤ length self.old.day }
        ensures moved { OnOk result (self.new ≡ moved_to self.old n) }
        ensures err { OnErr result (self.new ≡ self.old) }
    {
        self.outcome = outcome_at(alloc, self.day, &mut self.tracks, n)?;
        self.position = n;
        Ok(())
    }

    /// Moves to the position after `n` messages. [`DebugFault::PastEnd`] where the day has fewer.
    pub fn goto(&mut self, alloc: A, n: u32) -> Result<(), DebugFault>
        ensures moved { OnOk result (self.new ≡ moved_to self.old n) }
        ensures err { OnErr result (self.new ≡ self.old) }
        ensures past_end { IsErrOf result DebugFault.PastEnd ↔ (length self.old.day < n) }
        ensures not_before { result ≢ Err DebugFault.BeforeStart }
    {
        if n > self.day.len() {
            return Err(DebugFault::PastEnd);
        }
        self.move_to(alloc, n)?;
        Ok(())
    }

    /// Moves one message on. [`DebugFault::PastEnd`] after the last message.
    pub fn step(&mut self, alloc: A) -> Result<(), DebugFault>
        ensures moved { OnOk result (self.new ≡ moved_to self.old (self.old.position + 1)) }
        ensures err { OnErr result (self.new ≡ self.old) }
        ensures past_end { IsErrOf result DebugFault.PastEnd ↔ (self.old.position ≡ length self.old.day) }
        ensures not_before { result ≢ Err DebugFault.BeforeStart }
    {
        if self.position == self.day.len() {
            return Err(DebugFault::PastEnd);
        }
        self.move_to(alloc, self.position + 1)?;
        Ok(())
    }

    /// Moves one message back. [`DebugFault::BeforeStart`] at position 0.
    pub fn back(&mut self, alloc: A) -> Result<(), DebugFault>
        ensures moved { OnOk result (self.new ≡ moved_to self.old (self.old.position - 1)) }
        ensures err { OnErr result (self.new ≡ self.old) }
        ensures before_start { IsErrOf result DebugFault.BeforeStart ↔ (self.old.position ≡ 0) }
        ensures not_past { result ≢ Err DebugFault.PastEnd }
    {
        if self.position == 0 {
            return Err(DebugFault::BeforeStart);
        }
        self.move_to(alloc, self.position - 1)?;
        Ok(())
    }

    /// Moves to the least later message at which a breakpoint stops, or where there is none to the last message.
    /// [`DebugFault::PastEnd`] after the last message.
    pub fn onward(&mut self, alloc: A) -> Result<Stop, DebugFault>
        ensures at { IfOk result (λ stop. stop.at ≡ next_stop self.old) }
        ensures later { IfOk result (λ stop. self.old.position < stop.at) }
        ensures within { IfOk result (λ stop. stop.at ≤ length self.old.day) }
        ensures hit { IfOk result (λ stop. stop.hit ≡ hit self.old.breaks self.old.day stop.at) }
        ensures moved { IfOk result (λ stop. self.new ≡ moved_to self.old stop.at) }
        ensures err { OnErr result (self.new ≡ self.old) }
        ensures past_end { IsErrOf result DebugFault.PastEnd ↔ (self.old.position ≡ length self.old.day) }
        ensures not_before { result ≢ Err DebugFault.BeforeStart }
    {
        if self.position == self.day.len() {
            return Err(DebugFault::PastEnd);
        }
        let at = self.breakpoints.next_stop(self.position);
        let hit = self.breakpoints.hit(at);
        self.move_to(alloc, at)?;
        Ok(Stop { at, hit })
    }

    /// Moves to the greatest earlier message at which a breakpoint stops, or where there is none to position 0, which
    /// no breakpoint stops at. [`DebugFault::BeforeStart`] at position 0.
    pub fn rearward(&mut self, alloc: A) -> Result<Stop, DebugFault>
        ensures at { IfOk result (λ stop. stop.at ≡ previous_stop self.old) }
        ensures earlier { IfOk result (λ stop. stop.at < self.old.position) }
        ensures hit { IfOk result (λ stop. 0 < stop.at →
            stop.hit ≡ hit self.old.breaks self.old.day stop.at) }
        ensures start { IfOk result (λ stop. stop.at ≡ 0 → stop.hit ≡ None) }
        ensures moved { IfOk result (λ stop. self.new ≡ moved_to self.old stop.at) }
        ensures err { OnErr result (self.new ≡ self.old) }
        ensures before_start { IsErrOf result DebugFault.BeforeStart ↔ (self.old.position ≡ 0) }
        ensures not_past { result ≢ Err DebugFault.PastEnd }
    {
        if self.position == 0 {
            return Err(DebugFault::BeforeStart);
        }
        let at = self.breakpoints.previous_stop(self.position);
        let hit = if at == 0 {
            None
        } else {
            self.breakpoints.hit(at)
        };
        self.move_to(alloc, at)?;
        Ok(Stop { at, hit })
    }

    /// Adds a breakpoint as the last, and returns its index, counted from 0; one that is there keeps its index.
    ///
    /// It goes over the day once and keeps four bytes for each message at which the breakpoint stops, so that moves
    /// look for a stop by binary search.
    pub fn add_break(&mut self, alloc: A, breakpoint: Break) -> Result<usize, AllocError>
        ensures index { IfOk result (λ index. slice_get self.new.breaks index ≡ Some breakpoint) }
        ensures first { IfOk result (λ index. (earlier : ℕ) → earlier < index →
            slice_get self.new.breaks earlier ≢ Some breakpoint) }
        ensures there { OnOk result (Contains self.old.breaks breakpoint → self.new ≡ self.old) }
        ensures new { OnOk result (¬ Contains self.old.breaks breakpoint →
            self.new ≡ with_break self.old breakpoint) }
        ensures err { OnErr result (self.new ≡ self.old) }
    {
        self.breakpoints.add(alloc, breakpoint)
    }

    /// The machine of a stock at the position; that of a stock without messages is a new one.
    pub fn stock(&mut self, alloc: A, locate: u16) -> Result<Stock<A>, AllocError>
        ensures stock { IfOk result (λ stock. stock ≡ machine_of self.old.day locate self.old.position) }
        ensures unchanged { self.new ≡ self.old }
    {
        self.tracks.stock_at(alloc, locate, self.position)
    }
}

impl<'d, A: Allocator> Debugger<'d, A> {
    /// How many messages the day has, which is the last position.
    pub fn last(&self) -> u32
        ensures { result ≡ length self.now.day }
    {
        self.day.len()
    }

    /// The position: how many messages of the day come before what is shown.
    pub fn position(&self) -> u32
        ensures position { result ≡ self.now.position }
        ensures within { result ≤ length self.now.day }
    {
        self.position
    }

    /// What became of the message at the position; none at position 0.
    pub fn outcome(&self) -> Option<Outcome>
        ensures { result ≡ outcome_at self.now.day self.now.position }
    {
        self.outcome
    }

    /// The event code of the last system event message up to the position, where there is one.
    pub fn event(&self) -> Option<u8>
        ensures { result ≡ (after self.now.day self.now.position).event }
    {
        event_at(self.day, &self.systems, self.position)
    }

    /// How many breakpoints there are.
    pub fn break_len(&self) -> usize
        ensures { result ≡ length self.now.breaks }
    {
        self.breakpoints.len()
    }

    /// The breakpoint at an index, counted from 0.
    pub fn break_at(&self, index: usize) -> Option<Break>
        ensures { result ≡ slice_get self.now.breaks index }
    {
        self.breakpoints.at(index)
    }

    /// Removes the breakpoint at an index, and returns it; none, with nothing changed, where there is none. Those
    /// after it move down by one.
    pub fn remove_break(&mut self, index: usize) -> Option<Break>
        ensures removed { result ≡ slice_get self.old.breaks index }
        ensures none { IfNone result (self.new ≡ self.old) }
        ensures left { IfSome result (λ _. self.new ≡ without_break self.old index) }
    {
        self.breakpoints.remove(index)
    }
}
