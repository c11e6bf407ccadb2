//! The protocol of a checkpoint by way of a journal: which step comes next.
#![tactic(auto)]

pub mod laws;
mod stage;

pub use stage::{Stage, Step};
