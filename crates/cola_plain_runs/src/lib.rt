//! Runs of cells as plain slow programs, whose contracts are the definitions: cells and the test of a run, the weave, the
//! steps of a merge, and the live pairs of a list of runs. They are for tests.
#![tactic(auto)]

pub mod cells;
pub mod merge;
pub mod pairs;
pub mod weave;
