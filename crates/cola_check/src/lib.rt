//! The test of a closed file: whether its header and its cells stand for a map, or the first flaw that keeps them from it.
//!
//! Each run is read from its first cell on, a fixed number of times, by blocks; nothing is written, and no memory is taken
//! while cells are read.
#![tactic(auto)]

mod aims;
mod carried;
mod cells;
mod checking;
mod cut;
mod fault;
mod finished;
mod firsts;
mod fitting;
mod kinds;
mod laws;
mod leasts;
mod level_walks;
mod live;
mod living;
mod others;
mod prefix;
mod runs;
mod shadows;
mod tally;
mod testing;
mod visible;
mod visibles;
mod walk;

pub use checking::check;
pub use fault::CheckFault;
pub use laws::{tested_files_are_read_by_blocks, tests_are_answered};
