//! The search of a list of runs for a key: the item of the first run that has one.
//!
//! The runs stand in the order in which they are searched, the newest first. Each run is searched from the
//! link that the search of the run above found, by at most eight cells.
#![tactic(auto)]

mod finding;

pub use finding::find;
