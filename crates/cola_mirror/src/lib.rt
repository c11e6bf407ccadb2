//! A device over two devices that hold the same bytes, which goes on while one of them works; two devices compared; and one
//! made equal to the other.
#![tactic(auto)]

mod calls;
mod comparing;
mod fault;
pub mod laws;
mod mirror;
pub mod rebuild_laws;
mod rebuilding;
mod sides;

pub use comparing::compare;
pub use fault::RebuildFault;
pub use mirror::Mirror;
pub use rebuilding::rebuild;
pub use sides::Sides;
