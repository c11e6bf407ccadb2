//! The merge at the bottom of a store, whose next run has values alone: no tombstone and no lookahead cell.
//!
//! Nothing lies below the bottom, so what was deleted there leaves nothing behind, and no link of it is followed.
#![tactic(auto)]

mod aim;
pub mod laws;

pub use aim::bottom_aim;
