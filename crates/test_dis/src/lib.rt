//! The disassembler over a file that is read segment by segment: texts and parts of them in segments of any size, beside
//! those of the whole file, and what was written where memory is refused or a device fails.
#![tactic(auto)]

#[cfg(test)]
mod devices;
#[cfg(test)]
mod memory;
#[cfg(test)]
mod parts;
#[cfg(test)]
mod printing;
#[cfg(test)]
mod random;
#[cfg(test)]
mod texts;
