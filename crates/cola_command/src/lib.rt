//! The session over the lines of a source, and the one call that the program makes.
#![tactic(auto)]

mod checked;
mod file;
mod lines;
mod mirrored;
mod place;
mod program;
mod serving;
mod upgrading;

pub use file::Session;
pub use place::Place;
pub use program::{Served, serve};
