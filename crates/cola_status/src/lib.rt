//! The statuses that the program ends with.
#![tactic(auto)]

mod laws;
mod status;

pub use laws::statuses_are_apart;
pub use status::Status;
