//! Why a device was not rebuilt.
use thiserror::Error;

/// Why a device was not made equal to another. Its message is the name of the variant; that of another size has the size
/// behind it.
#[derive(Debug, PartialEq, Eq, Drop, Error)]
pub enum RebuildFault {
    /// The file is too small for a header, or for the cells of the store that its header names.
    #[error("Small")]
    Small,
    /// The first 512 bytes spell no header.
    #[error("NotStore")]
    NotStore,
    /// The header says that the store is in use: it was not closed.
    #[error("NotClosed")]
    NotClosed,
    /// The device that is to be rebuilt has so many bytes: neither none, nor as many as the file.
    #[error("Other {0}")]
    Other(u64),
    /// A device refused a call.
    #[error("Device")]
    Device,
}
