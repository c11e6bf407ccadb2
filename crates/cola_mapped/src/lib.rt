//! A device over bytes of memory that a caller outside lends.
#![tactic(auto)]

mod device;
mod lent;
mod region;

pub use device::MappedDevice;
pub use lent::Lent;
pub use region::Region;
