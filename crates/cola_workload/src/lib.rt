//! The stated workload over a new file of a device.
#![tactic(auto)]

pub mod laws;
mod refused;
mod workload;

pub use refused::opening_status;
pub use workload::{new_workloads_complete, serve_workload};
