//! A device over a device, which marks each page that it writes.
#![tactic(auto)]

pub mod laws;
mod marked;
mod marks;
mod pages;

pub use marked::MarkedDevice;
pub use marks::Marks;
pub use pages::PAGE;
