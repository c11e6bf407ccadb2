//! Cells, and how a run of them is named.

use crate::key::Key;
use crate::value::Value;

/// What a key has: a value with its stamp, or a tombstone where it was deleted. The stamp is the
/// number of the write that made the value, and 0 in format One.
#[derive(Clone, Copy, Debug, PartialEq, Eq, Drop)]
pub enum Item {
    Value { value: Value, stamp: u64 },
    Tombstone,
}

/// A cell of a run. An item is young where a merge in an even period of its level took it in from the
/// level above; a merge marks every other item old. A lookahead cell has a key of the next level's run.
/// The link is a place in that run, in cells.
#[derive(Clone, Copy, Debug, PartialEq, Eq, Drop)]
pub enum Cell {
    Item {
        key: Key,
        item: Item,
        young: bool,
        link: u32,
    },
    Look {
        key: Key,
        link: u32,
    },
}

/// The most levels that an object of cells has.
pub const MOST_LEVELS: usize = 23;

/// The run of the first `len` cells of a level's slot. A level has slots 0 and 1.
#[derive(Clone, Copy, Debug, Default, PartialEq, Eq, Drop)]
pub struct Run {
    pub level: u8,
    pub slot: u8,
    pub len: u32,
}

/// Which source of a merge reads: the level's own run, the run that comes in from above, or the
/// sample of the run below.
#[derive(Clone, Copy, Debug, PartialEq, Eq, Drop)]
pub enum Reader {
    Own,
    Incoming,
    Sample,
}

impl Cell {
    ghost use Rattle.std.specs.Prelude.{◌≡◌};
    ghost use Rattle.cola_cell.specs.Cell.{key_of, link_of};

    /// The key of the cell.
    #[inline]
    pub fn key(&self) -> &Key
        ensures { result.now ≡ key_of self.now }
    {
        match self {
            Cell::Item { key, .. } => key,
            Cell::Look { key, .. } => key,
        }
    }

    /// The link of the cell.
    #[inline]
    pub fn link(&self) -> u32
        ensures { result ≡ link_of self.now }
    {
        match self {
            Cell::Item { link, .. } => *link,
            Cell::Look { link, .. } => *link,
        }
    }
}
