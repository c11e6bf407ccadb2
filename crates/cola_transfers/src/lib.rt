//! Bounds on the blocks that a chain of levels reads and writes, as laws over numbers: an account from which each
//! mutation pays for 14 cells read and 4 written at each level, and which no window overdraws.
//!
//! A law is a function that does nothing: its clauses are the law. Nothing here reads or stores a cell. The account is
//! this store's own; paying in advance for later work is the accounting method of amortized analysis.
#![tactic(auto)]

mod accounts;
mod levels;

pub use accounts::{new_chain_is_paid, one_mutation_is_paid, paid_chains_are_bounded};
pub use levels::{credits_go_on, merges_end_in_time, windows_cost_little, work_adds_up};
