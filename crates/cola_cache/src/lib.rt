//! Whole blocks of any device, some of which are kept in memory: a cache that is a device, and over it the blocks of a file,
//! read by way of buffers that each keep one.
#![tactic(auto)]

mod buffers;
mod cached;
mod index;
mod order;

pub use buffers::Buffers;
pub use cached::Cached;
