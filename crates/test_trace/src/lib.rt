//! Tests of traces: of all messages and of a stock's, in segments of any size, and what was written where memory is refused or
//! a device fails.
#![tactic(auto)]

#[cfg(test)]
mod devices;
#[cfg(test)]
mod memory;
#[cfg(test)]
mod texts;
#[cfg(test)]
mod traced;
