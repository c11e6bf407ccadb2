//! The copy of a closed file of version 1 into a new file of version 2.
#![tactic(auto)]

mod cells;
mod copying;
mod fault;
mod head;
pub mod laws;
mod laying;
mod upgrading;

pub use fault::UpgradeFault;
pub use upgrading::upgrade;
