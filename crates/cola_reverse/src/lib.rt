//! The live pairs of a list of runs from the last one on: what a falling range over a store gives, and the walk
//! that gives it. The order of keys is turned round: each law of a walk holds in every order of keys, and of a
//! walk in the turned order it is the law of the falling one.
//!
//! A law is a function that does nothing: its clauses are the law. Nothing here stores a cell.
#![tactic(auto)]

mod falling;
pub mod plain;
mod successor;
mod turning;

pub use falling::live_by_key_falling;
pub use successor::next_of_bytes;
pub use turning::turned_gives_back;
