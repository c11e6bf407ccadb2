//! A merge of cells where their bytes lie.
#![tactic(auto)]

mod seeking;
mod windows;

pub use seeking::{Stop, nth_cell, seek_window};
pub use windows::{Lasts, Rules, Taken, merge_windows};
