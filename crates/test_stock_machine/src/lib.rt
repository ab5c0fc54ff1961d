//! The machine of one stock: its own messages of a day of several stocks, and the memory that it takes.
#![tactic(auto)]

#[cfg(test)]
mod comparing;
#[cfg(test)]
mod growing;
#[cfg(test)]
mod listing;
#[cfg(test)]
mod own;
#[cfg(test)]
mod spent;
#[cfg(test)]
mod steady;
