//! Why rows are not loaded.
use thiserror::Error;

/// Why a load did not begin. Its message is the name of the variant.
#[derive(Debug, PartialEq, Eq, Drop, Error)]
pub enum LoadFault {
    /// The device has a byte already.
    #[error("NotEmpty")]
    NotEmpty,
    /// There was no memory.
    #[error("OutOfMemory")]
    OutOfMemory,
    /// The device refused a call.
    #[error("Device")]
    Device,
}

/// Why the map of a file was not copied into a new file. Its message is the name of the variant, with its number.
#[derive(Debug, PartialEq, Eq, Drop, Error)]
pub enum GrowFault {
    /// The file is too small for a header, or for the cells of the store that its header names.
    #[error("Small")]
    Small,
    /// The first 512 bytes of the file spell no header.
    #[error("NotStore")]
    NotStore,
    /// The store in the file was not closed.
    #[error("NotClosed")]
    NotClosed,
    /// The file has so many keys, and the new one is for fewer.
    #[error("Fewer {0}")]
    Fewer(u64),
    /// There was no memory.
    #[error("OutOfMemory")]
    OutOfMemory,
    /// The bytes of the cell with this number of the file spell none.
    #[error("BadCell {0}")]
    BadCell(u64),
    /// The new file has a byte already.
    #[error("NotEmpty")]
    NotEmpty,
    /// The pair with this number that the runs of the file give, from 1, may not be the next row: the file stands for no map.
    #[error("Disorder {0}")]
    Disorder(u64),
    /// One of the two devices refused a call.
    #[error("Device")]
    Device,
}
