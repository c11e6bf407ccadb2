//! What is done to whole stores in lent bytes: one is tested, its map is copied into other bytes, or a new one is filled with rows.
#![tactic(auto)]

pub mod check_laws;
mod checking;
mod fault;
pub mod grow_laws;
mod growing;
pub mod load_laws;
mod loading;
mod new_device;
mod shown;

pub use checking::check;
pub use fault::ToolFault;
pub use growing::grow;
pub use loading::Load;
pub use new_device::NewDevice;
pub use shown::Shown;
