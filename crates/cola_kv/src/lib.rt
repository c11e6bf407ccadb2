//! A store for embedders: made, opened, asked and closed by byte strings, with one type of error, and no ledger of steps but
//! where one is wanted.
#![tactic(auto)]

mod backward;
mod calls;
mod counted;
mod error;
mod iterator;
mod kv;
mod list;
mod listed;
mod opened;
mod options;
mod prefix;
mod range;
mod told;

pub use cola_cell::{Format, Key, Value};
pub use cola_store::{Closing, LevelInfo};
pub use cola_table::{Put, PutIf};
pub use error::Error;
pub use kv::{Kv, Unfinished};
pub use list::{Answer, Call};
pub use opened::create;
pub use options::Options;
pub use prefix::{prefix_end, prefixes_are_intervals};
pub use range::Range;
pub use told::Info;
