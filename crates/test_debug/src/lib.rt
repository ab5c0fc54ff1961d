//! Debugging sessions: worked lines and their answers, lines that are no command, and memory that is refused.
#![tactic(auto)]

#[cfg(test)]
mod memory;
#[cfg(test)]
mod refusals;
#[cfg(test)]
mod runs;
#[cfg(test)]
mod sessions;
#[cfg(test)]
mod transcript;
#[cfg(test)]
mod worked;
