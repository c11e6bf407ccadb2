//! The abstract cell: what a cell of the store is to its laws, over any key and any value.
//!
//! It stands by itself, so that the crates that only speak of cells do not stand on the laws of runs.
#![tactic(auto)]
