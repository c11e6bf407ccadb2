//! The test of a closed store in lent bytes.
ghost use Rattle.std.specs.Prelude.{◌≡◌};
ghost use Rattle.cola_tools.specs.Checking.{Checks, refusal};

use crate::fault::ToolFault;
use crate::shown::Shown;
use cola_check::CheckFault;
use cola_outside::Steps;
use cola_verdict::Verdict;
use std::alloc::Global;
use std::sync::ledger::Ledger;

/// The refusal of a test. A device over bytes that are only read does not fail.
fn refusal(fault: CheckFault) -> ToolFault
    ensures { result ≡ refusal fault }
{
    match fault {
        CheckFault::NotStore => ToolFault::NotStore,
        CheckFault::NotClosed => ToolFault::NotClosed,
        CheckFault::Small | CheckFault::Device => ToolFault::Small,
        CheckFault::OutOfMemory => ToolFault::Memory,
    }
}

/// Tests whether the bytes of a closed store stand for a map: the verdict, `Sound` with the number of keys, or the first test
/// that they fail, with the level and the number of the cell. The bytes are only read.
///
/// `Small`, `NotStore`, `NotClosed`: the bytes are none of a store that was closed. `Memory`: there was none.
pub fn check<L: Ledger>(
    alloc: Global,
    bytes: &[u8],
    steps: &mut Steps<L>,
) -> Result<Verdict, ToolFault>
    ensures { Checks bytes.now steps.old steps.new result }
{
    if bytes.is_empty() {
        return Err(ToolFault::Small);
    }
    let (_, answer) = cola_check::check(alloc, Shown::over(bytes), steps);
    match answer {
        Ok(verdict) => Ok(verdict),
        Err(fault) => Err(refusal(fault)),
    }
}
