//! The header of a file, read and judged: whether a file has a header and all cells of its store, or why it has none.
#![tactic(auto)]

mod fault;
pub mod laws;
mod reading;

pub use fault::{ClosedFault, HeaderFault};
pub use reading::{FoundHeader, read_closed, read_header, size_of};
