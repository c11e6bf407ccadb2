//! Why no header was found in a file, or none of a closed store.
use thiserror::Error;

/// Why no header was found in a file. Its message is the name of the variant.
#[derive(Debug, PartialEq, Eq, Drop, Error)]
pub enum HeaderFault {
    /// The first 512 bytes spell no header.
    #[error("NotStore")]
    NotStore,
    /// The file is too small for a header, or for the cells of the store that its header names.
    #[error("Small")]
    Small,
    /// The device refused a call.
    #[error("Device")]
    Device,
}

/// Why no header of a closed store was found in a file. Its message is the name of the variant.
#[derive(Debug, PartialEq, Eq, Drop, Error)]
pub enum ClosedFault {
    /// The first 512 bytes spell no header.
    #[error("NotStore")]
    NotStore,
    /// The file is too small for a header, or for the cells of the store that its header names.
    #[error("Small")]
    Small,
    /// The store is in use: it was not closed.
    #[error("NotClosed")]
    NotClosed,
    /// The device refused a call.
    #[error("Device")]
    Device,
}
