//! A device over a file of the system. What the file holds is the system's word, so it tells no bytes.
#![tactic(auto)]

mod access;
mod file;
mod handle;
pub mod laws;
mod locks;
mod system;

pub use access::{OpenedFile, Opener};
pub use file::PathDevice;
pub use locks::{LockedDevice, LockedFile, Locking, Locks};
pub use system::{FileDevice, SystemFile};
