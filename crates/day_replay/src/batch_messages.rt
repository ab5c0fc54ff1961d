//! Messages of one batch, copied.
ghost use Rattle.std.specs.Prelude.{◌≡◌, ◌++◌, ◌∷◌, [], OnOk};
ghost use Rattle.std.specs.Iterator.{YieldsFirstBy, item_count};
ghost use Rattle.binaryfile.specs.Entries.{IsPayload};

use binaryfile::split_first_payload;
use std::alloc::{AllocError, Allocator};
use std::marker::Model;

/// Messages of one batch in their order, seen as a list of the number and the payload of each.
#[derive(Drop)]
pub(crate) struct BatchMessages<A: Allocator> {
    numbers: Vec<u32, A>,
    // Entry after entry, as in a file: the length of a payload in two bytes, and the payload.
    bytes: Vec<u8, A>,
}

impl<A: Allocator> Model for BatchMessages<A> {
    ghost use Rattle.std.specs.Prelude.{ℕ, List, zip};
    ghost use Rattle.binaryfile.specs.Index.{payloads_of};
    ghost use Rattle.day_replay.specs.Messages.{AreEntries};

    ghost Value = { List (ℕ × List ℕ) };

    ghost view = { λ m. zip m.numbers.items (payloads_of m.bytes.items) };

    ghost invariant = { λ m. AreEntries m.numbers.items m.bytes.items };
}

impl<A: Allocator> BatchMessages<A> {
    /// No messages. It takes no memory yet.
    pub fn new(alloc: A) -> BatchMessages<A>
    where
        A: Copy,
        ensures { result ≡ [] }
    {
        BatchMessages {
            numbers: Vec::new(alloc),
            bytes: Vec::new(alloc),
        }
    }

    /// Removes all messages. `keep` says whether the memory is kept; else it is given back.
    pub fn clear(&mut self, keep: bool)
        ensures { self.new ≡ [] }
    {
        self.numbers.clear();
        self.bytes.clear();
        if !keep {
            self.numbers.shrink_to_fit();
            self.bytes.shrink_to_fit();
        }
    }

    /// How many bytes the entries take.
    pub fn bytes(&self) -> usize {
        self.bytes.len()
    }

    /// For how many bytes of entries there is memory.
    pub fn room(&self) -> usize {
        self.bytes.capacity()
    }

    /// Adds a copy of a message. An error says that memory was refused.
    pub fn push(&mut self, number: u32, payload: &[u8]) -> Result<(), AllocError>
        requires { IsPayload payload.now }
        ensures ok { OnOk result (self.new ≡ self.old ++ (number, payload.now) ∷ []) }
    {
        let length = payload.len() as u16;
        self.numbers.reserve(1)?;
        self.bytes.reserve(2 + payload.len())?;
        self.numbers.push(number).unwrap();
        self.bytes.extend_from_slice(&length.to_be_bytes()).unwrap();
        self.bytes.extend_from_slice(payload).unwrap();
        Ok(())
    }

    /// The messages in their order, borrowed.
    pub fn messages(&self) -> MessagesLeft<'_>
        ensures { result ≡ self.now }
    {
        MessagesLeft {
            numbers: &self.numbers,
            bytes: &self.bytes,
        }
    }
}

/// A message of a batch.
#[derive(Clone, Copy)]
pub(crate) struct NumberedPayload<'m> {
    /// Its number in the day, counted from 1.
    pub number: u32,
    pub payload: &'m [u8],
}

/// The messages of a batch that are left, in their order.
#[derive(Drop)]
pub(crate) struct MessagesLeft<'m> {
    numbers: &'m [u32],
    bytes: &'m [u8],
}

impl<'m> Model for MessagesLeft<'m> {
    ghost use Rattle.std.specs.Prelude.{ℕ, List, zip};
    ghost use Rattle.binaryfile.specs.Index.{payloads_of};

    ghost Value = { List (ℕ × List ℕ) };

    ghost view = { λ it. zip it.numbers.now (payloads_of it.bytes.now) };
}

impl<'m> Iterator for MessagesLeft<'m> {
    type Item = NumberedPayload<'m>;

    ghost next_gives = { YieldsFirstBy (λ m. (m.number, m.payload.now)) (λ left. left) };

    ghost remaining = { item_count (λ left. left) };

    fn next(&mut self) -> Option<NumberedPayload<'m>> {
        let (number, numbers) = self.numbers.split_first()?;
        let (payload, bytes) = split_first_payload(self.bytes)?;
        self.numbers = numbers;
        self.bytes = bytes;
        Some(NumberedPayload {
            number: *number,
            payload,
        })
    }
}
