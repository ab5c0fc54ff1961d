//! The book of one stock: what it shows after calls whose effects are worked out by hand, and what it keeps where
//! memory is refused.
#![tactic(auto)]

#[cfg(test)]
mod calls;
#[cfg(test)]
mod changes;
#[cfg(test)]
mod growing;
