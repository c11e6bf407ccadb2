//! The bytes of a log of calls, written and read: each record bears a sum that is chained to all before it.
#![tactic(auto)]

mod call;
pub mod laws;
mod reading;
mod writing;

pub use call::Call;
pub use writing::LogSum;
