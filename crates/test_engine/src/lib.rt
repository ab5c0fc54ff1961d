//! The engines: what each writes for a worked file, and what each does where a device fails or memory is refused. More
//! files with their reports and texts are in examples/, which tests/command-lines goes through.
#![tactic(auto)]

#[cfg(test)]
mod engines;
#[cfg(test)]
mod faults;
#[cfg(test)]
mod long_days;
#[cfg(test)]
mod moments;
#[cfg(test)]
mod names;
#[cfg(test)]
mod orders;
#[cfg(test)]
mod runs;
#[cfg(test)]
mod segments;
#[cfg(test)]
mod trades;
#[cfg(test)]
mod watching;
