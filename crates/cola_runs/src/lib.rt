//! Runs of the store as lists of cells: the order in a run, the weave of two runs with a sample, the cut
//! that a half-done build keeps, the five rules of a merge, and the search by links, with their laws.
//! Nothing here stores a cell: the crates that do stand on these definitions.
//!
//! A law is a function that does nothing: its clauses are the law, over any ordered key and any value.
//! The merge of a level's own run, the incoming run above it and a sample of the run below, by cursors that
//! move a few steps at each mutation, and the search by lookahead cells are of "Cache-oblivious streaming
//! B-trees" (Bender, Farach-Colton, Fineman, Fogel, Kuszmaul and Nelson, SPAA 2007). The five rules, the
//! parts and the young flag are this store's own.
#![tactic(auto)]

mod building;
mod sampling;
mod searching;
mod weaving;

pub use building::{
    begun_build, done_cells, done_looks, rule_at_cursors, steps_advance, steps_build_weave,
    steps_fit, used_up_build,
};
pub use sampling::{sample_cells, sample_keys};
pub use searching::{find_answer, place_in_window, seat_of_key, stop_at_place};
pub use weaving::{
    bottom_weave, merge_answer, weave_at_key, weave_counts, weave_is_formed, weave_size,
};
