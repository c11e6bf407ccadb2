//! What a new store is made for, and how many blocks an open one keeps in memory.
ghost use Rattle.std.specs.Prelude.{◌≡◌};
ghost use Rattle.cola_cell.specs.declared.format.Format.TheVariants.{One};

use cola_cell::Format;

/// How a new store is made: for how many keys, in which blocks and in which format; and behind which cache a store is opened.
#[derive(Clone, Copy, Debug, PartialEq, Eq, Drop)]
pub struct Options {
    /// The most keys that the store may have: 1 to 2^24.
    pub keys: u64,
    /// A block has `2^block_exp` cells: 3 to 9, and at most the lowest level plus 2.
    pub block_exp: u8,
    /// Version 1 has cells of 64 bytes, version 2 cells of 128 bytes and stamps.
    pub format: Format,
    /// The most blocks of the file that are kept in memory while the store is open, at most 4096.
    pub cache: u32,
}

impl Options {
    /// A store for so many keys, in blocks of 32 cells, of version 1, behind no cache.
    pub fn new(keys: u64) -> Options
        ensures { result ≡ record { keys = keys; block_exp = 5; format = One; cache = 0 } }
    {
        Options {
            keys,
            block_exp: 5,
            format: Format::One,
            cache: 0,
        }
    }
}
