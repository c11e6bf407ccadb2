//! Blocks 0 and 1 of a store in memory: the cells behind the header, which are read and written without the device.
#![tactic(auto)]

pub mod block;
mod front;
pub mod laws;

pub use front::Front;
