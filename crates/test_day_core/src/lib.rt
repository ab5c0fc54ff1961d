//! A day in parts: how it is split, what its workers make of it, and outcomes that are put together of pieces.
#![tactic(auto)]

#[cfg(test)]
mod days;
#[cfg(test)]
mod merging;
#[cfg(test)]
mod schedules;
#[cfg(test)]
mod showing;
#[cfg(test)]
mod splitting;
#[cfg(test)]
mod turning;
