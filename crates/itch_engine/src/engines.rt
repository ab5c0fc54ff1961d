//! The engines, a file each: an input, a whole output in memory, and then the writing of it.
pub(crate) mod asm;
pub(crate) mod digits;
pub(crate) mod dis;
pub(crate) mod replay;
pub(crate) mod report;
