//! Why a read, a push or a step of a merge was refused. The message of a fault says what happened and what the caller may do.
use thiserror::Error;

/// Why a cell was not read.
#[derive(Clone, Copy, Debug, PartialEq, Eq, Drop, Error)]
pub enum ReadFault {
    /// The device failed.
    #[error("the device failed: try again")]
    Device,
    /// The bytes of the cell of this number are invalid: they spell no cell.
    #[error("the bytes of cell {0} spell no cell: the file is damaged")]
    BadCell(u64),
}

/// Why a cell was not pushed.
#[derive(Clone, Copy, Debug, PartialEq, Eq, Drop, Error)]
pub enum PushFault {
    /// The device failed.
    #[error("the device failed: try again")]
    Device,
    /// The run that this level builds has no room left.
    #[error("the next run of level {0} has no room: the file is damaged")]
    Overfull(u8),
}

/// Why a step that reads and pushes was refused.
#[derive(Clone, Copy, Debug, PartialEq, Eq, Drop, Error)]
pub enum StepFault {
    /// The device failed.
    #[error("the device failed: try again")]
    Device,
    /// The bytes of the cell of this number are invalid: they spell no cell.
    #[error("the bytes of cell {0} spell no cell: the file is damaged")]
    BadCell(u64),
    /// The run that this level builds has no room left.
    #[error("the next run of level {0} has no room: the file is damaged")]
    Overfull(u8),
}

impl From<ReadFault> for StepFault {
    ghost use Rattle.std.specs.Prelude.{◌≡◌};
    ghost use Rattle.cola_cell.specs.Fault.{step_of_read};

    ghost from_gives = { λ fault step. step ≡ step_of_read fault };

    fn from(fault: ReadFault) -> StepFault {
        match fault {
            ReadFault::Device => StepFault::Device,
            ReadFault::BadCell(cell) => StepFault::BadCell(cell),
        }
    }
}

impl From<PushFault> for StepFault {
    ghost use Rattle.std.specs.Prelude.{◌≡◌};
    ghost use Rattle.cola_cell.specs.Fault.{step_of_push};

    ghost from_gives = { λ fault step. step ≡ step_of_push fault };

    fn from(fault: PushFault) -> StepFault {
        match fault {
            PushFault::Device => StepFault::Device,
            PushFault::Overfull(level) => StepFault::Overfull(level),
        }
    }
}
