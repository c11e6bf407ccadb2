//! Why a call was refused.
use cola_cell::{ReadFault, StepFault};
use cola_store::{CreateFault, OpenFault};
use cola_table::PutFault;

/// Why a call was refused. Its message says what happened and what the caller may do.
#[derive(Clone, Copy, Debug, PartialEq, Eq, Drop, thiserror::Error)]
pub enum Error {
    /// The key has no bytes, or more than the format has room for: 24 in version 1, 40 in version 2.
    #[error("a key has 1 to 24 bytes, in version 2 up to 40")]
    KeyLength,
    /// The value has more bytes than the format has room for: 32 in version 1, 72 in version 2.
    #[error("a value has at most 32 bytes, in version 2 at most 72")]
    ValueLength,
    /// A store is to be made for no keys, or for more than 2^24.
    #[error("a store is for 1 to 16777216 keys")]
    Keys,
    /// A store is to be made in blocks that do not suit its number of keys.
    #[error("a block has 2^3 to 2^9 cells, and no more than a slot of the lowest level")]
    Block,
    /// A store is to be made on a device that has bytes.
    #[error("the device has bytes already: open its store, or take an empty one")]
    NotEmpty,
    /// The first 512 bytes of the file spell no header.
    #[error("the file is no store")]
    NotStore,
    /// The file has fewer bytes than its store has cells, or none for a header.
    #[error("the file is too small for its store")]
    Small,
    /// The store of the file is in use, or was not closed.
    #[error("the store is in use, or was not closed")]
    NotClosed,
    /// The bytes of the cell of this number spell no cell. Never on a store that holds a map.
    #[error("the bytes of cell {0} spell no cell: the file is damaged")]
    BadCell(u64),
    /// There is not enough memory.
    #[error("out of memory")]
    OutOfMemory,
    /// The key is new, and the store has as many keys as it is for.
    #[error("the key is new, and the store has as many keys as it is for: delete one first")]
    Full,
    /// No stamp is left to give. Only in version 2.
    #[error("no stamp is left to give: put the pairs into a new store")]
    Worn,
    /// The next run of this level has no room. Never on a store that holds a map.
    #[error("the next run of level {0} has no room: the file is damaged")]
    Overfull(u8),
    /// The device refused a call.
    #[error("the device failed: try again")]
    Device,
}

impl From<ReadFault> for Error {
    ghost use Rattle.std.specs.Prelude.{◌≡◌};
    ghost use Rattle.cola_kv.specs.Errors.{of_read};

    ghost from_gives = { λ fault error. error ≡ of_read fault };

    fn from(fault: ReadFault) -> Error {
        match fault {
            ReadFault::Device => Error::Device,
            ReadFault::BadCell(cell) => Error::BadCell(cell),
        }
    }
}

impl From<StepFault> for Error {
    ghost use Rattle.std.specs.Prelude.{◌≡◌};
    ghost use Rattle.cola_kv.specs.Errors.{of_step};

    ghost from_gives = { λ fault error. error ≡ of_step fault };

    fn from(fault: StepFault) -> Error {
        match fault {
            StepFault::Device => Error::Device,
            StepFault::BadCell(cell) => Error::BadCell(cell),
            StepFault::Overfull(level) => Error::Overfull(level),
        }
    }
}

impl From<PutFault> for Error {
    ghost use Rattle.std.specs.Prelude.{◌≡◌};
    ghost use Rattle.cola_kv.specs.Errors.{of_put};

    ghost from_gives = { λ fault error. error ≡ of_put fault };

    fn from(fault: PutFault) -> Error {
        match fault {
            PutFault::Full => Error::Full,
            PutFault::Worn => Error::Worn,
            PutFault::Device => Error::Device,
            PutFault::BadCell(cell) => Error::BadCell(cell),
            PutFault::Overfull(level) => Error::Overfull(level),
        }
    }
}

impl From<CreateFault> for Error {
    ghost use Rattle.std.specs.Prelude.{◌≡◌};
    ghost use Rattle.cola_kv.specs.Errors.{of_create};

    ghost from_gives = { λ fault error. error ≡ of_create fault };

    fn from(fault: CreateFault) -> Error {
        match fault {
            CreateFault::Keys => Error::Keys,
            CreateFault::Block => Error::Block,
            CreateFault::NotEmpty => Error::NotEmpty,
            CreateFault::Device => Error::Device,
        }
    }
}

impl From<OpenFault> for Error {
    ghost use Rattle.std.specs.Prelude.{◌≡◌};
    ghost use Rattle.cola_kv.specs.Errors.{of_open};

    ghost from_gives = { λ fault error. error ≡ of_open fault };

    fn from(fault: OpenFault) -> Error {
        match fault {
            OpenFault::NotStore => Error::NotStore,
            OpenFault::NotClosed => Error::NotClosed,
            OpenFault::Small => Error::Small,
            OpenFault::Device => Error::Device,
            OpenFault::OutOfMemory => Error::OutOfMemory,
            OpenFault::BadCell(cell) => Error::BadCell(cell),
        }
    }
}
