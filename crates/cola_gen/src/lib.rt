//! A stated workload over any table: puts of scattered keys, deletes of every second one, and gets that
//! check what is left.
#![tactic(auto)]

mod calls;
mod generating;
mod keys;
pub mod laws;
mod verifying;

pub use generating::generate;
pub use keys::{expected, key_of, made, value_of};
pub use verifying::verify;

/// What the calls of a workload did.
#[derive(Clone, Copy, Debug, PartialEq, Eq, Drop)]
pub struct Tally {
    /// Puts that made a new key.
    pub fresh: u64,
    /// Deletes that found their key.
    pub gone: u64,
    /// Gets whose answer was not the expected one.
    pub wrong: u64,
    /// Puts, deletes and gets whose cost was above its bound: 40 ticks a level for a put or a delete, 8 for a get.
    pub over: u64,
}
