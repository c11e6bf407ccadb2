//! Why something was not done to a store in lent bytes.
use thiserror::Error;

/// Why a call was refused. Its message is the name of the variant.
#[derive(Clone, Copy, Debug, PartialEq, Eq, Error)]
pub enum ToolFault {
    /// There are fewer bytes than the store has.
    #[error("Small")]
    Small,
    /// The bytes have no store's header.
    #[error("NotStore")]
    NotStore,
    /// The store was not closed.
    #[error("NotClosed")]
    NotClosed,
    /// There was no memory.
    #[error("Memory")]
    Memory,
    /// The number of keys, the block or the version is none that a store can have.
    #[error("Options")]
    Options,
    /// The bytes in which a store was to be made are not all zero.
    #[error("NotEmpty")]
    NotEmpty,
    /// A cell is damaged, or the keys do not rise: the store stands for no map.
    #[error("BadCell")]
    BadCell,
    /// The new store is for fewer keys than there are rows.
    #[error("Fewer")]
    Fewer,
    /// A key has no bytes, or a key or a value has more than the version allows.
    #[error("Length")]
    Length,
    /// There are as many rows as the store is for.
    #[error("Full")]
    Full,
    /// A key is not above that of the row before.
    #[error("Order")]
    Order,
}
