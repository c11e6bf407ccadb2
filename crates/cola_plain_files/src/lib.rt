//! Files as plain slow programs, whose contracts are the definitions: the cells that a file's bytes spell, and the verdict
//! on a file. They are for tests.
#![tactic(auto)]

pub mod cells;
pub mod verdict;
