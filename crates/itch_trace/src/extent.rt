//! How much of a trace is written.
ghost use Rattle.std.specs.Prelude.{◌≡◌, ◌<◌, ◌≤◌, ◌-◌, ◌^◌, ◌↔◌, true};
ghost use Rattle.itch_trace.specs.Lines.{is_wanted};

/// How much of a trace is written.
#[derive(Debug, Clone, Copy, PartialEq, Eq)]
pub struct Extent {
    /// How many of the best levels of each side a line has.
    pub depth: u32,
    /// The number of the first message that has a line, counted from 1.
    pub first: u32,
    /// The number of the last one; `u32::MAX` for all.
    pub last: u32,
}

impl Extent {
    /// Whether the message of this number has a line.
    pub(crate) fn has(self, number: u32) -> bool
        ensures { result ≡ is_wanted self number }
    {
        self.first <= number && number <= self.last
    }

    /// Whether the last message that is wanted is among so many, the first of a day. Where all are wanted it never is.
    pub(crate) fn ends_within(self, messages: u64) -> bool
        ensures { (result ≡ true) ↔ ((self.last < 2 ^ 32 - 1) × (self.last ≤ messages)) }
    {
        self.last < u32::MAX && u64::from(self.last) <= messages
    }
}
