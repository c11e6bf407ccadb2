//! The merge that stops and resumes: the next run of a level, built from its own run, the run above it and a sample of
//! the run below, a few steps at a time, on any object of cells.
//!
//! A merge that moves a few cells at each mutation is of "Cache-oblivious streaming B-trees" (Bender, Farach-Colton,
//! Fineman, Fogel, Kuszmaul and Nelson, SPAA 2007); the rules and the quotas are this store's own.
#![tactic(auto)]

mod aims;
mod heads;
pub mod laws;
mod merging;
mod rules;
mod weaving;

pub use aims::{Aim, Feed, Progress};
pub use merging::Merger;
pub use weaving::Share;
