//! The lines of a session: the command of a line, and the reply that a table gives to it.
#![tactic(auto)]

mod answers;
mod ask;
mod command;
mod parse;
mod reply;
mod rows;
mod words;

pub use answers::answer;
pub use command::Command;
pub use parse::{number, parse_line};
pub use reply::{Failure, Outcome, Refusal, Reply, write_reply};
