//! Ranges: a cursor over a list of runs, which gives the live pairs of an interval of keys, one by one.
//!
//! A cursor goes by key. Of the next cells of all runs it takes the least key, lookahead cells included, and
//! passes every cell of that key in every run. The first item among them is the answer; a tombstone, or no item
//! at all, goes on. It keeps the next cell of each run, and reads each cell at most once.
#![tactic(auto)]

mod cursor;
pub mod laws;
mod line;
mod lines;
mod saved;
mod simple;
mod starts;
mod stop;

pub use cursor::Cursor;
pub use line::Line;
