//! Keys, values and cells of the store, and their bytes in the two formats.
//!
//! A store keeps cells: an item (a value or a tombstone under its key) or a lookahead cell, which
//! carries a key of the next level's run. Contracts see a key and a value as their lists of bytes.
//! Lookahead cells and their links are of the cache-oblivious lookahead array of Bender,
//! Farach-Colton, Fineman, Fogel, Kuszmaul and Nelson (SPAA 2007); the formats are this store's own.
#![tactic(auto)]

mod cell;
mod cell_room;
mod fault;
mod flat_cells;
mod format;
mod key;
mod law;
pub mod object_laws;
mod packed;
mod short;
mod sink;
mod source;
mod spelling;
pub mod told_laws;
mod value;
mod windows;

pub use cell::{Cell, Item, MOST_LEVELS, Reader, Run};
pub use cell_room::CellRoom;
pub use fault::{PushFault, ReadFault, StepFault};
pub use flat_cells::FlatCells;
pub use format::Format;
pub use key::Key;
pub use law::{cell_is_one, decoding_gives_back, decoding_is_a_function, spelling_is_one};
pub use packed::{
    Packed, Pass, cmp_keys_in, is_cell, is_look_in, is_tombstone_in, is_young_in, item_in,
    key_cmp_in, link_in, look_in, renew_in,
};
pub use sink::{CellSink, Shadow};
pub use source::CellSource;
pub use spelling::{LAST_STAMP, decode, decode_wide, encode, encode_in, encode_wide};
pub use value::Value;
pub use windows::{Passed, Reach, Window, WindowMerge, WindowSearch, tick_all};
