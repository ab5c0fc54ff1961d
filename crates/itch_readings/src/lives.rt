//! The lives of a stock's orders under all of their references.
ghost use Rattle.std.specs.Prelude.{◌≡◌, ◌==◌, if◌then◌else◌, OnOk, Some, ℕ};
ghost use Rattle.std.specs.BTreeMap.{get};
ghost use Rattle.std.specs.List.{list_any};
ghost use Rattle.std.specs.Option.{option_to_list};
ghost use Rattle.std.specs.Ordering.{nat_cmp};
ghost use Rattle.itch_layouts.specs.Shapes.{shape_of};
ghost use Rattle.itch_readings.specs.OrderHistory.{first_by};
ghost use Rattle.itch_readings.specs.OrderLives.{earlier_reference, names_life, replacement_by};

use itch_layouts::{Msg, Replace, Shape, read_msg};
use itch_table::Outcome;
use std::alloc::{AllocError, Allocator};
use std::collections::BTreeMap;

// The replacement that a message is, where it was applied.
fn replacement_in(outcome: Outcome, payload: &[u8]) -> Option<Replace>
    ensures { result ≡ replacement_by outcome (shape_of payload.now) }
{
    match (outcome, read_msg(payload)) {
        (Outcome::Applied, Shape::Known(Msg::Replace(_, message))) => Some(message),
        _ => None,
    }
}

/// The lives of a stock's orders, as far as its messages were noted. It knows the first reference of each life by the other
/// ones.
#[derive(Drop)]
pub(crate) struct Lives<A: Allocator> {
    firsts: BTreeMap<u64, u64, A>,
}

impl<A: Allocator + Copy> Lives<A> {
    /// Before the first message: each reference is the first of its life.
    pub fn new(alloc: A) -> Lives<A>
        ensures { (reference : ℕ) → first_by result.firsts reference ≡ reference }
    {
        Lives {
            firsts: BTreeMap::new(alloc),
        }
    }

    /// The first reference of the life that has this one.
    pub fn first(&self, reference: u64) -> u64
        ensures { result ≡ first_by self.now.firsts reference }
    {
        self.firsts.get(&reference).copied().unwrap_or(reference)
    }

    // The new reference of a replacement goes on with the life of the old one.
    fn link(&mut self, message: Replace) -> Result<(), AllocError>
        ensures { OnOk result ((reference : ℕ) → get nat_cmp self.new.firsts reference
            ≡ (if message.new_reference == reference then (Some (first_by self.old.firsts message.reference))
            else get nat_cmp self.old.firsts reference)) }
    {
        let first = self.first(message.reference);
        self.firsts.insert(message.new_reference, first)?;
        Ok(())
    }

    /// Takes the stock's next message, with what became of it. An error says that memory was refused.
    pub fn take(&mut self, payload: &[u8], outcome: Outcome) -> Result<(), AllocError>
        ensures { OnOk result ((reference : ℕ) → first_by self.new.firsts reference
            ≡ first_by self.old.firsts (earlier_reference (replacement_by outcome (shape_of payload.now)) reference)) }
    {
        match replacement_in(outcome, payload) {
            Some(message) => self.link(message),
            None => Ok(()),
        }
    }

    // Whether a message that names an order so, or none, names one of the life that has this reference.
    fn is_of_life(&self, reference: u64, named: Option<u64>) -> bool
        ensures { result ≡ list_any (λ named. first_by self.now.firsts named == first_by self.now.firsts reference)
            (option_to_list named) }
    {
        match named {
            Some(named) => self.first(named) == self.first(reference),
            None => false,
        }
    }

    /// Whether a payload names an order by a reference of the life that has this one.
    pub fn names(&self, reference: u64, payload: &[u8]) -> bool
        ensures { result ≡ names_life (first_by self.now.firsts) reference payload.now }
    {
        let Shape::Known(message) = read_msg(payload) else {
            return false;
        };
        let (one, other) = message.references();
        self.is_of_life(reference, one) || self.is_of_life(reference, other)
    }
}
