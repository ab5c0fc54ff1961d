//! Tests of stocks that are shown at places of a day: a worked day with its texts, in segments of any size, within limits,
//! and where a device fails or memory is refused; and times of day as users write them.
#![tactic(auto)]

#[cfg(test)]
mod failing;
#[cfg(test)]
mod memory;
#[cfg(test)]
mod places;
#[cfg(test)]
mod times;
#[cfg(test)]
mod worked;
