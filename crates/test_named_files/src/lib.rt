//! Tests of files that are replaced as a whole, over the files of the system, of whose calls one fails; and of what is
//! said of a reader or a writer that fails.
#![tactic(auto)]

#[cfg(test)]
mod faulty;
#[cfg(test)]
mod naming;
#[cfg(test)]
mod refusals;
#[cfg(test)]
mod replacing;
