//! When a file stands for a map: over its header, the cells that its bytes spell, and the soundness of the levels that
//! these cells make.
//!
//! Nothing here reads a file. The crates that make, open, change and close one cite these definitions.
#![tactic(auto)]

pub mod laws;
