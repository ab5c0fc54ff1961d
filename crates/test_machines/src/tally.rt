//! How often what becomes of messages occurs.
use crate::comparing::step;
use binaryfile::Day;
use itch_table::{Outcome, Plain};
use std::alloc::Allocator;
use std::fmt::{self, Display, Formatter, Write};
use std::test::Fail;

// The types of all messages.
const KINDS: [u8; 22] = *b"SRHYLVWKJhAFECXDUPQBIN";

// How often each outcome occurs at least over all days at random.
const LEAST: u64 = 20;

/// How many messages were applied, by type, how many were refused, by the fault's number from 1 to 12, and how many
/// passed.
#[derive(Drop)]
pub struct Tally {
    applied: [u64; 256],
    refused: [u64; 13],
    // Faults of a number that is no index of `refused`.
    strange: u64,
    passed: u64,
}

// One time more.
fn count(times: &mut u64) {
    *times = times.saturating_add(1);
}

impl Tally {
    /// No messages.
    pub const NONE: Tally = Tally {
        applied: [0; 256],
        refused: [0; 13],
        strange: 0,
        passed: 0,
    };

    // One more message.
    fn add(&mut self, kind: u8, outcome: Outcome) {
        match outcome {
            Outcome::Applied => count(&mut self.applied[usize::from(kind)]),
            Outcome::Passed => count(&mut self.passed),
            Outcome::Refused(fault) => {
                match self.refused.get_mut(usize::from(fault.number())) {
                    Some(times) => count(times),
                    None => count(&mut self.strange),
                }
            }
        }
    }

    // The messages of a day, which the machine takes.
    fn add_all<A: Allocator + Copy>(
        &mut self,
        plain: &mut Plain<A>,
        day: &Day<A>,
    ) -> Result<(), Fail> {
        for payload in day.payloads() {
            let outcome = step(plain, payload)?;
            if let Some(kind) = payload.first() {
                self.add(*kind, outcome);
            }
        }
        Ok(())
    }

    /// The messages of a day.
    pub fn add_day<A: Allocator + Copy>(&mut self, alloc: A, day: &Day<A>) -> Result<(), Fail> {
        self.add_all(&mut Plain::new(alloc), day)
    }

    /// A failure where a type is applied too seldom, or a fault or a message that passes occurs too seldom.
    pub fn judge(&self) -> Result<(), Fail> {
        for kind in KINDS {
            let count = self.applied[usize::from(kind)];
            if count < LEAST {
                return Err(Fail::new(format_args!("type {kind} is applied {count} times")));
            }
        }
        for (number, count) in self.refused.iter().enumerate().skip(1) {
            if *count < LEAST {
                return Err(Fail::new(format_args!("fault {number} occurs {count} times")));
            }
        }
        if self.strange > 0 {
            return Err(Fail::new(format_args!("{} faults aren't counted", self.strange)));
        }
        if self.passed < LEAST {
            return Err(Fail::new(format_args!("{} messages pass", self.passed)));
        }
        Ok(())
    }
}

// A line of how often a type was applied.
fn put_applied<W: Write>(f: &mut Formatter<W>, kind: u8, count: u64) -> fmt::Result {
    writeln!(f, "applied {} {count}", char::from(kind))
}

// A line of how often a fault occurs.
fn put_refused<W: Write>(f: &mut Formatter<W>, number: usize, count: u64) -> fmt::Result {
    writeln!(f, "refused F{number} {count}")
}

impl Display for Tally {
    /// A line for each type, one for each fault, and one for messages that pass.
    fn fmt<W: Write>(&self, f: &mut Formatter<W>) -> fmt::Result {
        for kind in KINDS {
            put_applied(f, kind, self.applied[usize::from(kind)])?;
        }
        for (number, count) in self.refused.iter().enumerate().skip(1) {
            put_refused(f, number, *count)?;
        }
        write!(f, "passed {}", self.passed)
    }
}
