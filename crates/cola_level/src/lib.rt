//! A level of the lookahead array: its visible run, its shadow, and the merge that builds the shadow, on any object of
//! cells; and what a level's merge reads, by the clock and the lengths of the runs around it.
//!
//! A level works in a window of mutations, a fixed number of merge steps in each. That a merge is spread over later
//! mutations is of "Cache-oblivious streaming B-trees" (Bender, Farach-Colton, Fineman, Fogel, Kuszmaul and Nelson, SPAA
//! 2007); the windows and the number of steps are this store's own.
#![tactic(auto)]

mod aims;
mod building;
pub mod laws;
mod level;

pub use aims::{top_aim, work_by};
pub use level::Level;
