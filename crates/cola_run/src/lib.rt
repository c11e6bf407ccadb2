//! The cells of runs over a device: in the front, in the tails of shadows, and in blocks of the device.
#![tactic(auto)]

mod device_cells;
pub mod laws;
mod run_store;
mod saving;
mod tails;
mod traits;
mod weaving;

pub use run_store::RunStore;
pub use tails::{Tails, bytes_of_block, cells_of_block, fills_block};
