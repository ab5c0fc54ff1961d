//! Where in a day a stock is shown.
ghost use Rattle.std.specs.Prelude.{◌≡◌};
ghost use Rattle.itch_show.specs.Places.{is_before, is_later, is_past, is_reached};

use itch_layouts::{Nanos, Shape, read_msg};

/// Where in a day a stock is shown: between two of its messages, or before the first or after the last.
#[derive(Debug, Clone, Copy, PartialEq, Eq)]
pub enum Place {
    /// After the last message.
    End,
    /// After so many messages.
    After(u32),
    /// Before the first message that is later than a time, or after the last message where none is.
    At(Nanos),
}

// Whether a payload is a message that is later than a time.
fn is_later(time: Nanos, payload: &[u8]) -> bool
    ensures { result ≡ is_later time payload.now }
{
    match read_msg(payload) {
        Shape::Known(message) => time.get() < message.head().time.get(),
        _ => false,
    }
}

impl Place {
    /// Whether it lies before the message that follows so many others, by its payload.
    pub(crate) fn is_before(&self, messages: u32, payload: &[u8]) -> bool
        ensures { result ≡ is_before self.now messages payload.now }
    {
        match self {
            Place::End => false,
            Place::After(number) => *number <= messages,
            Place::At(time) => is_later(*time, payload),
        }
    }

    /// Whether it lies after so many messages, whatever follows.
    pub(crate) fn is_reached(&self, messages: u32) -> bool
        ensures { result ≡ is_reached self.now messages }
    {
        match self {
            Place::After(number) => *number <= messages,
            _ => false,
        }
    }

    /// Whether it asks for more messages than so many.
    pub(crate) fn is_past(&self, messages: u32) -> bool
        ensures { result ≡ is_past self.now messages }
    {
        match self {
            Place::After(number) => messages < *number,
            _ => false,
        }
    }
}
