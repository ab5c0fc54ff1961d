//! A day that workers replay in threads: the same for each number of workers, one worker turn by turn, workers that are
//! held, and memory that is refused.
#![tactic(auto)]

#[cfg(test)]
mod alone;
#[cfg(test)]
mod gates;
#[cfg(test)]
mod looks;
#[cfg(test)]
mod memory;
#[cfg(test)]
mod retries;
#[cfg(test)]
mod runs;
#[cfg(test)]
mod screens;
#[cfg(test)]
mod stocks;
#[cfg(test)]
mod turns;
