//! Texts: what they denote, where they are faulty, and the text of a file. The expected values are worked out by hand
//! from the rules in docs/FORMATS.md; more files and their texts are in examples/, which tests/command-lines goes
//! through.
#![tactic(auto)]

#[cfg(test)]
mod faults;
#[cfg(test)]
mod fields;
#[cfg(test)]
mod lines;
#[cfg(test)]
mod memory;
#[cfg(test)]
mod texts;
