//! A store in a file: how a new one is made, opened, asked and closed.
#![tactic(auto)]

mod account;
mod backward;
mod calls;
mod closing;
mod conditional;
mod deletes;
mod fault;
pub mod laws;
mod new_file;
mod opening;
mod puts;
mod session;
pub mod session_laws;
mod store;
mod table;
mod told;
mod transfers;
pub mod walk_laws;

pub use account::Account;
pub use closing::Closing;
pub use fault::{CreateFault, OpenFault};
pub use new_file::{create, create_as};
pub use opening::open_runs;
pub use store::Store;
pub use told::LevelInfo;
