//! Why a file was not upgraded.
use thiserror::Error;

/// Why a file was not upgraded. Its message is the name of the variant; that of a bad cell has the cell's number behind it.
#[derive(Debug, PartialEq, Eq, Drop, Error)]
pub enum UpgradeFault {
    /// The file is too small for a header, or for the cells of the store that its header names.
    #[error("Small")]
    Small,
    /// The first 512 bytes spell no header.
    #[error("NotStore")]
    NotStore,
    /// The file is of version 2 already.
    #[error("Already")]
    Already,
    /// The header says that the store is in use: it was not closed.
    #[error("NotClosed")]
    NotClosed,
    /// Want of memory.
    #[error("OutOfMemory")]
    OutOfMemory,
    /// The device that is to have the new file has bytes already.
    #[error("NotEmpty")]
    NotEmpty,
    /// A device refused a call.
    #[error("Device")]
    Device,
    /// The bytes of the cell of this number, in a run, spell no cell.
    #[error("BadCell {0}")]
    BadCell(u64),
}
