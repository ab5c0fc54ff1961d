//! A day that is cut into segments.
use binaryfile::Day;
use std::alloc::Allocator;
use std::mem;
use std::test::Fail;
use test_support::day_of;

/// Where a day is cut.
#[derive(Debug, Clone, Copy, PartialEq, Eq)]
pub enum Cut {
    /// After each so many messages.
    Every(u32),
    /// After the message with this number.
    After(u32),
}

impl Cut {
    // Whether a segment ends after the message with this number.
    fn is_after(self, message: u32) -> bool {
        match self {
            Cut::Every(messages) => message.checked_rem(messages) == Some(0),
            Cut::After(last) => message == last,
        }
    }
}

/// Adds the entry of a payload to a file.
pub fn add_payload<A: Allocator>(file: &mut Vec<u8, A>, payload: &[u8]) -> Result<(), Fail> {
    let length = u16::try_from(payload.len()).map_err(|_| Fail::new("a long payload"))?;
    file.extend_from_slice(&length.to_be_bytes())?;
    file.extend_from_slice(payload)?;
    Ok(())
}

/// The segments of a day, between an empty one and what is left after the last cut, which is empty too where the day is
/// cut at its end.
pub fn segments_of<A: Allocator + Copy>(
    alloc: A,
    day: &Day<A>,
    cut: Cut,
) -> Result<Vec<Day<A>, A>, Fail> {
    let mut segments = Vec::new(alloc);
    segments.push(day_of(alloc, Vec::new(alloc))?)?;
    let mut file = Vec::new(alloc);
    let mut message = 0u32;
    for payload in day.payloads() {
        add_payload(&mut file, payload)?;
        message = message.saturating_add(1);
        if cut.is_after(message) {
            let segment = mem::replace(&mut file, Vec::new(alloc));
            segments.push(day_of(alloc, segment)?)?;
        }
    }
    segments.push(day_of(alloc, file)?)?;
    Ok(segments)
}

/// The day of the first messages of another.
pub fn first_of<A: Allocator + Copy>(
    alloc: A,
    day: &Day<A>,
    messages: usize,
) -> Result<Day<A>, Fail> {
    let mut file = Vec::new(alloc);
    for payload in day.payloads().take(messages) {
        add_payload(&mut file, payload)?;
    }
    day_of(alloc, file)
}
