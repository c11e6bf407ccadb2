//! The one line that a mode of the program writes: how its text is made, and how the mode ends by it.
#![tactic(auto)]

mod laws;
mod text;
mod writing;

pub use laws::lines_are_written;
pub use text::{Text, push_bytes, push_number};
pub use writing::write_line;
