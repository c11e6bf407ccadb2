//! The table: an ordered map with a key limit, as the session sees it, and one kept in memory.
#![tactic(auto)]

mod entries;
mod entry;
mod flat;
mod law;
mod table;

use cola_cell::{ReadFault, StepFault, Value};
pub use flat::{FlatTable, FlatWalk};
pub use law::{entries_fit_cells, stored_is_stamped};
pub use table::Table;
use thiserror::Error;

/// What an accepted put did.
#[derive(Clone, Copy, Debug, PartialEq, Eq, Drop)]
pub enum Put {
    /// The key is new.
    New,
    /// The key had this value, which is replaced.
    Old(Value),
}

/// What a put that depends on the stamp seen did.
#[derive(Clone, Copy, Debug, PartialEq, Eq, Drop)]
pub enum PutIf {
    /// The key is new.
    New,
    /// The key had this value, which is replaced.
    Old(Value),
    /// The key has another stamp than the one seen, this one, or 0 where it is absent. Nothing changed.
    Other(u64),
}

impl From<Put> for PutIf {
    ghost use Rattle.std.specs.Prelude.{◌≡◌};
    ghost use Rattle.cola_table.specs.Answers.{put_answer, put_if_answer};

    ghost from_gives = { λ put result. put_if_answer result ≡ put_answer put };

    fn from(put: Put) -> PutIf {
        match put {
            Put::New => PutIf::New,
            Put::Old(value) => PutIf::Old(value),
        }
    }
}

/// Why a put was refused. Nothing that the table holds changed. Its message says what happened and what the caller may do.
#[derive(Clone, Copy, Debug, PartialEq, Eq, Drop, Error)]
pub enum PutFault {
    /// The key is new, and the table has as many keys as it may have.
    #[error("the key is new, and the table has as many keys as it may have: delete one first")]
    Full,
    /// No stamp is left to give. Only in format Two.
    #[error("no stamp is left to give: put the pairs into a new table")]
    Worn,
    /// The device failed.
    #[error("the device failed: try again")]
    Device,
    /// The bytes of the cell of this number are no spelling. Never on a sound table.
    #[error("the bytes of cell {0} spell no cell: the file is damaged")]
    BadCell(u64),
    /// The next run of this level has no room. Never on a sound table.
    #[error("the next run of level {0} has no room: the file is damaged")]
    Overfull(u8),
}

impl From<StepFault> for PutFault {
    ghost use Rattle.std.specs.Prelude.{◌≡◌};
    ghost use Rattle.cola_spec.specs.Reply.{Failed};
    ghost use Rattle.cola_table.specs.Replies.{put_of_step, put_refused, step_failure};

    ghost from_gives = { λ fault put. (put ≡ put_of_step fault) × (put_refused put ≡ Failed (step_failure fault)) };

    fn from(fault: StepFault) -> PutFault {
        match fault {
            StepFault::Device => PutFault::Device,
            StepFault::BadCell(cell) => PutFault::BadCell(cell),
            StepFault::Overfull(level) => PutFault::Overfull(level),
        }
    }
}

impl From<ReadFault> for PutFault {
    ghost use Rattle.std.specs.Prelude.{◌≡◌};
    ghost use Rattle.cola_spec.specs.Reply.{Failed};
    ghost use Rattle.cola_cell.specs.Fault.{step_of_read};
    ghost use Rattle.cola_table.specs.Replies.{put_of_step, put_refused, read_failure};

    ghost from_gives = { λ fault put. (put ≡ put_of_step (step_of_read fault)) × (put_refused put ≡ Failed (read_failure fault)) };

    fn from(fault: ReadFault) -> PutFault {
        match fault {
            ReadFault::Device => PutFault::Device,
            ReadFault::BadCell(cell) => PutFault::BadCell(cell),
        }
    }
}
