//! The maps of a format, and what a map stores of a key as a cell has it.
//!
//! It stands by itself, so that cells do not stand on maps.
#![tactic(auto)]
