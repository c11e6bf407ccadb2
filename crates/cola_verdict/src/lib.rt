//! The verdict on a file: whether its header and its cells stand for a map, or the first flaw that keeps them from it.
//!
//! Nothing here reads a device. Whoever tests a file cites these definitions.
#![tactic(auto)]

pub mod laws;
mod verdict;

pub use verdict::{Flaw, Verdict};
