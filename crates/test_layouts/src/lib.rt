//! Messages of every type, read and written, and the table of layouts. The expected values are those of Nasdaq
//! TotalView-ITCH 5.0, "Message Formats".
#![tactic(auto)]

#[cfg(test)]
mod messages;
#[cfg(test)]
mod offsets;
#[cfg(test)]
mod table;
