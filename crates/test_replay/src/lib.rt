//! A day that is replayed segment by segment, beside the plain machine: cut anywhere, by several numbers of threads, while its
//! file is read, and where memory is refused or a device fails.
#![tactic(auto)]

#[cfg(test)]
mod comparing;
#[cfg(test)]
mod cutting;
#[cfg(test)]
mod days;
#[cfg(test)]
mod files;
#[cfg(test)]
mod memory;
#[cfg(test)]
mod random;
#[cfg(test)]
mod replaying;
#[cfg(test)]
mod unusual;
