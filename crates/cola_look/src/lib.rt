//! The search of one run: which cells it reads, where it stops, and how many blocks it turns to.
//!
//! A search of a run begins at the link that the search of the run above found, and reads at most eight
//! cells. That a link and the seven cells behind it are enough, since each run has every eighth key of the
//! next, is of "Cache-oblivious streaming B-trees" (Bender, Farach-Colton, Fineman, Fogel, Kuszmaul and
//! Nelson, SPAA 2007).
#![tactic(auto)]

pub mod laws;
mod scanning;
mod seeking;
mod windowing;

pub use scanning::Sight;
pub use seeking::{Seat, seek, seek_into};
pub use windowing::{sample_index, window};
