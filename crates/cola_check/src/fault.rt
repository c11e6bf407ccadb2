//! Why a file was not tested.
use thiserror::Error;

/// Why a file has no verdict. Its message is the name of the variant.
#[derive(Debug, PartialEq, Eq, Drop, Error)]
pub enum CheckFault {
    /// The first 512 bytes spell no header.
    #[error("NotStore")]
    NotStore,
    /// The store in the file was not closed.
    #[error("NotClosed")]
    NotClosed,
    /// The file is too small for a header, or for the cells of the store that its header names.
    #[error("Small")]
    Small,
    /// The device refused a call.
    #[error("Device")]
    Device,
    /// There was no memory for the blocks that a test keeps.
    #[error("OutOfMemory")]
    OutOfMemory,
}
