//! A stock that is named, as one that takes messages one by one.
ghost use Rattle.itch_readings.specs.Noting.{HasTaken};

use crate::reading::TakesMessages;
use itch_readings::{Noted, Notes};
use std::alloc::{AllocError, Allocator};

impl<A: Allocator + Copy, N: Notes + Drop> TakesMessages<A> for Noted<A, N> {
    ghost has_taken = { λ first now day. HasTaken N.noted first.notes day first.search.name
        now.search now.messages now.stock now.notes };

    fn take(&mut self, alloc: A, payload: &[u8]) -> Result<(), AllocError> {
        Noted::take(self, alloc, payload)?;
        Ok(())
    }
}
