//! Tests of what is said of the messages of a day: a worked day with its texts, in segments of any size, within
//! limits, and where a device fails or memory is refused.
#![tactic(auto)]

#[cfg(test)]
mod answers;
#[cfg(test)]
mod day;
#[cfg(test)]
mod failing;
#[cfg(test)]
mod limits;
#[cfg(test)]
mod texts;
