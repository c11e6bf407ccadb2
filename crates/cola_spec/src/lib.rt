//! What the words of the product mean: the ordered map, lines and commands, replies, the session, and the bounds.
#![tactic(auto)]

pub mod bound_laws;
pub mod command_laws;
pub mod laws;
pub mod order_laws;
pub mod reply_laws;
pub mod step_laws;
