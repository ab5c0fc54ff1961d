//! The report of a replayed file, line by line.
pub(crate) mod file;
mod messages;
