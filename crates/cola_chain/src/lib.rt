//! The chain of a store: its levels and its clock over the cells of its runs, and the steps by which it changes.
#![tactic(auto)]

mod chains;
mod counting;
pub mod laws;
mod lists;
mod reading;
mod room;

pub use chains::Chain;
pub use room::Room;
