//! A debugger: where its moves lead, where it stops, how much it steps, and what it keeps where memory is refused.
#![tactic(auto)]

#[cfg(test)]
mod breakpoints;
#[cfg(test)]
mod busy;
#[cfg(test)]
mod calls;
#[cfg(test)]
mod counts;
#[cfg(test)]
mod days;
#[cfg(test)]
mod moves;
#[cfg(test)]
mod refusals;
#[cfg(test)]
mod tracks;
