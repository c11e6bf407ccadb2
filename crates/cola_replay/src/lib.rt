//! The calls of a log, made again on an open store.
#![tactic(auto)]

pub mod laws;
mod making;

pub use making::{Replayed, replay};
