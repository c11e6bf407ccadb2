//! The live pairs of a list of runs in an interval of keys: what a range over a store gives. Of all the items of
//! the runs each key has the first, and a tombstone leaves its key out.
//!
//! A law is a function that does nothing: its clauses are the law, over any ordered key and any value. Nothing
//! here stores a cell.
#![tactic(auto)]

mod living;
mod walking;

pub use living::{live_at_key, live_from_places, live_of_entries};
pub use walking::live_by_key;
