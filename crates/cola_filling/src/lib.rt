//! The modes that fill a new file: rows of text are loaded into it, or the map of another file is copied.
#![tactic(auto)]

mod growing;
pub mod laws;
mod loading;

pub use growing::grow_file;
pub use loading::load_file;
