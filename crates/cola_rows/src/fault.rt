//! Why a row cannot be done.
use std::alloc::{AllocError, AllocFailed};

/// Why a row cannot be done.
#[derive(Clone, Copy, Debug, Drop)]
pub(crate) enum Fault {
    /// There is no memory.
    Memory,
    /// It cannot be read, and why.
    Row(&'static str),
}

impl From<AllocError> for Fault {
    fn from(_fault: AllocError) -> Fault {
        Fault::Memory
    }
}

impl<T: Drop> From<AllocFailed<T>> for Fault {
    fn from(_fault: AllocFailed<T>) -> Fault {
        Fault::Memory
    }
}
