//! The bytes of a journal, written and read.
#![tactic(auto)]

pub mod laws;
mod reading;
mod writing;

pub use reading::{is_applied, next_piece, read_journal};
pub use writing::{JournalWriter, piece_head};
