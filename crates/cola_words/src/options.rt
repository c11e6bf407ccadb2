//! The options of the command line, as they were given.
use cola_cell::Format;

/// One option with its value. Numbers are as they were written, in range or not.
#[derive(Clone, Copy, Debug, PartialEq, Eq, Drop)]
pub enum Given {
    /// `--keys N`.
    Keys(u64),
    /// `--block b`.
    Block(u64),
    /// `--version v`.
    Version(u64),
    /// `--cache n`.
    Cache(u64),
    /// `--cost`.
    Cost,
    /// `--mirror OTHER`, with the place of OTHER among the words.
    Mirror(u8),
}

/// The options that were given, each at most once.
#[derive(Clone, Copy, Debug, PartialEq, Eq, Drop)]
pub struct Options {
    pub keys: Option<u64>,
    pub block: Option<u64>,
    pub version: Option<u64>,
    pub cache: Option<u64>,
    pub cost: bool,
    pub mirror: Option<u8>,
}

/// What the options of a new file say.
#[derive(Clone, Copy, Debug, PartialEq, Eq, Drop)]
pub struct NewFile {
    pub keys: u64,
    pub block_exp: u8,
    pub format: Format,
}
