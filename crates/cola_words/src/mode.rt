//! What the words of the command line may ask for.
use cola_cell::Format;

/// A mode of the program, with the numbers and flags of its words, or their defaults.
///
/// In all modes but `Mem` the file is the second word, and in `Upgrade`, `Grow` and `Rebuild` the
/// file that is written is the third. The words are counted from 0.
#[derive(Clone, Copy, Debug, PartialEq, Eq, Drop)]
pub enum Mode {
    /// `mem N`: a session over a table in memory for 1 to 65536 keys.
    Mem {
        keys: u32,
    },
    /// `create FILE`: a new file for 1 to 2^24 keys, with blocks of `2^block_exp` cells.
    Create {
        keys: u64,
        block_exp: u8,
        format: Format,
    },
    /// `run FILE`: a session over a file, with a cache of at most 4096 blocks. Where `cost` is set, costs
    /// are printed. `mirror` is the place among the words of the second file, where there is one.
    Run {
        cache: u32,
        cost: bool,
        mirror: Option<u8>,
    },
    /// `gen FILE`: the stated workload over a new file for 1 to 2^24 keys.
    Gen {
        keys: u32,
    },
    /// `upgrade FILE TO`: a copy in version 2 of a file of version 1.
    Upgrade,
    /// `check FILE`: the verdict on a file.
    Check,
    /// `load FILE`: a new file from rows in rising order, with the sizes of a `Create`.
    Load {
        keys: u64,
        block_exp: u8,
        format: Format,
    },
    /// `grow FILE TO`: a copy for so many keys, with blocks of `2^block_exp` cells.
    Grow {
        keys: u64,
        block_exp: u8,
    },
    /// `rebuild FILE TO`: a lost side of a mirror, made equal again.
    Rebuild,
}

/// How a mode opens a file that its words name, with the place of the name among the words.
#[derive(Clone, Copy, Debug, PartialEq, Eq, Drop)]
pub enum Opening {
    /// The file has to be there.
    Existing(u8),
    /// The file is made where it is not there.
    Made(u8),
}
