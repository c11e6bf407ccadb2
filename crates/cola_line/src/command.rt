//! What a line may ask for.
use cola_cell::{Key, Value};

/// The command of a line.
#[derive(Clone, Copy, Debug, PartialEq, Eq, Drop)]
pub enum Command {
    /// `put K V`: gives the key a value.
    Put(Key, Value),
    /// `putif K S V`: a put that is made only where the key has the stamp S. Format Two alone.
    PutIf(Key, u64, Value),
    /// `del K`: takes the key out.
    Del(Key),
    /// `get K`: the key's value.
    Get(Key),
    /// `stamp K`: the key's stamp. Format Two alone.
    Stamp(Key),
    /// `range LO HI`: the pairs from LO on and below HI.
    Range(Key, Key),
    /// `scan LO N`: the first N pairs from LO on.
    Scan(Key, u64),
    /// `count`: the number of keys.
    Count,
    /// `close`: closes the store.
    Close,
    /// `open`: opens the store again.
    Reopen,
}
