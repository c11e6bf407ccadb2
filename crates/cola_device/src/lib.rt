//! A device: so many bytes that are read and written at any place, where each call may fail.
#![tactic(auto)]

mod counts;
mod device;
pub mod laws;
mod memory;

pub use counts::Counts;
pub use device::{Device, DeviceFault, MAX_TRANSFER};
pub use memory::{MemoryDevice, SPOILED};
