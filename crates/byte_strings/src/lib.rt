//! Words that the contracts of the other crates share: what a string of bytes is, and what it means to append to one.
#![tactic(auto)]
