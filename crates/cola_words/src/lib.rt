//! The words of the command line, and the mode that they name.
#![tactic(auto)]

mod files;
mod given;
mod law;
mod mode;
mod modes;
mod options;
mod sizes;
mod words;

pub use files::files_of;
pub use law::{blocks_suit_levels, options_in_any_order};
pub use mode::{Mode, Opening};
pub use modes::read_words;
