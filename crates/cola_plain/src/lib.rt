//! A session over a small map in memory, slow and simple, with its faults by a script, and the bounds: what the
//! store is compared with.
#![tactic(auto)]

pub mod bounds;
pub mod causes;
pub mod command;
pub mod laws;
pub mod lines;
pub mod map;
pub mod reply;
pub mod script;
pub mod session;
pub mod shape;
pub mod turn;
