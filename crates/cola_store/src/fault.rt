//! Why no file of a store was made, and why none was opened.
use thiserror::Error;

/// Why no file of a store was made. Its message is the name of the variant.
#[derive(Debug, PartialEq, Eq, Drop, Error)]
pub enum CreateFault {
    /// There are to be no keys, or more than 2^24.
    #[error("Keys")]
    Keys,
    /// The block's exponent is below 3, or above 9 or above the lowest level plus 2.
    #[error("Block")]
    Block,
    /// The device has bytes already.
    #[error("NotEmpty")]
    NotEmpty,
    /// The device refused a call.
    #[error("Device")]
    Device,
}

/// Why the file of a store was not opened. Its message is the name of the variant; that of a bad cell has the cell's
/// number behind it.
#[derive(Debug, PartialEq, Eq, Drop, Error)]
pub enum OpenFault {
    /// The first 512 bytes spell no header.
    #[error("NotStore")]
    NotStore,
    /// The header says that the store is in use: it was not closed.
    #[error("NotClosed")]
    NotClosed,
    /// The file is too small for a header, or for the cells of the store that its header names.
    #[error("Small")]
    Small,
    /// The device refused a call.
    #[error("Device")]
    Device,
    /// Want of memory.
    #[error("OutOfMemory")]
    OutOfMemory,
    /// The bytes of the cell of this number, in a run of the two first blocks, spell no cell.
    #[error("BadCell {0}")]
    BadCell(u64),
}
