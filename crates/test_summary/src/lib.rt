//! Tests of summaries: worked days with their texts, in segments of any size and by any number of threads, within limits,
//! and where a device fails or memory is refused.
#![tactic(auto)]

#[cfg(test)]
mod cases;
#[cfg(test)]
mod failing;
#[cfg(test)]
mod memory;
#[cfg(test)]
mod reading;
#[cfg(test)]
mod texts;
