//! The rows of a list of lines, as `range` and `scan` print them, judged line by line; a new file that is filled with rows; and
//! the map of a file, copied into a new one for another number of keys.
#![tactic(auto)]

mod answer;
mod fault;
pub mod filled_laws;
pub mod grow_laws;
mod growing;
mod judging;
pub mod laws;
mod loader;
mod loader_header;
pub mod loader_laws;
pub mod plain;
mod said;
mod tails;
mod words;

pub use answer::{RowLine, Word};
pub use fault::{GrowFault, LoadFault};
pub use growing::grow;
pub use judging::Rows;
pub use loader::Loader;
