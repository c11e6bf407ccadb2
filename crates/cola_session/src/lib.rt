//! A session over the lines of a source and any home of a table: in memory here, in a file above.
#![tactic(auto)]

mod home;
mod laws;
mod memory;
mod reading;
mod session;

pub use home::Home;
pub use laws::{all_answered_is_no_line_ahead, fronts_have_the_least, reads_are_for_lines};
pub use memory::{MemorySession, serve_memory};
pub use reading::{INPUT_LIMIT, text_of};
pub use session::{carry_out, serve_lines};
