//! The table of instructions and the plain machine, by scripts whose outcomes are worked out by hand from the rules in
//! docs/FORMATS.md; and the memory that the machine takes: steps and lists with each of their growths refused, and steps
//! that take none.
#![tactic(auto)]

#[cfg(test)]
mod checks;
#[cfg(test)]
mod comparing;
#[cfg(test)]
mod growing;
#[cfg(test)]
mod listing;
#[cfg(test)]
mod orders;
#[cfg(test)]
mod parts;
#[cfg(test)]
mod spent;
#[cfg(test)]
mod steady;
#[cfg(test)]
mod stocks;
#[cfg(test)]
mod trades;
