//! Files of any bytes as days and by segments, limits, growths that are refused, and devices that fail. The expected values
//! are worked out by hand from the rules in docs/FORMATS.md.
#![tactic(auto)]

#[cfg(test)]
mod days;
#[cfg(test)]
mod feeds;
#[cfg(test)]
mod limits;
#[cfg(test)]
mod segments;
#[cfg(test)]
mod sinks;

/// Three entries, a marker and a byte after it.
#[cfg(test)]
const THREE: &[u8] = b"\x00\x01A\x00\x02BC\x00\x01D\x00\x00\xff";
