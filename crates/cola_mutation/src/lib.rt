//! One mutation of a chain of levels, over any object of cells.
#![tactic(auto)]

mod ending;
pub mod laws;
pub mod maps;
mod stepping;
mod topping;
mod working;

pub use stepping::step;
