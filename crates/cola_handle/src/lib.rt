//! What the library for C calls: an open store behind a handle, in bytes that the caller lends.
#![tactic(auto)]

mod answer;
mod creating;
mod cursor;
mod falling;
mod handle;
pub mod laws;
mod loose;
mod marks;
mod opening;
mod prefixed;
mod session;
mod stored;
mod telling;
mod turning;
mod walking;

pub use answer::Answer;
pub use creating::{create, size};
pub use cursor::{Cursor, Row};
pub use falling::prev;
pub use handle::Cola;
pub use loose::Loose;
pub use marks::{LentDevice, LentMarks};
pub use opening::{close, open};
pub use session::Session;
pub use stored::stored_size;
pub use telling::{tell_delete, tell_put, tell_put_if, tell_stamp, tell_value};
pub use walking::next;
