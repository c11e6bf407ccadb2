//! The work of one mutation on a level's merge.
ghost use Rattle.std.specs.Prelude.{◌≡◌};
ghost use Rattle.cola_merge.specs.Heads.{IsReady};
ghost use Rattle.cola_level.specs.Calls.{StepsLeave, BuildLeaves};

use cola_cell::{CellSink, CellSource, StepFault};
use cola_merge::{Aim, Merger, Progress};
use cola_outside::Steps;
use std::sync::ledger::Ledger;

/// How many steps of its merge a mutation takes at each level of 1 and more that works.
const QUOTA: u32 = 28;

/// Takes the steps of one mutation, or all that are left.
#[inline(always)]
fn take_steps<W: CellSource + CellSink, L: Ledger>(
    merger: &mut Merger,
    work: &mut W,
    aim: &Aim,
    steps: &mut Steps<L>,
) -> Result<Progress, StepFault>
    requires { IsReady (W.CellSource.state work.old).held aim.now merger.old }
    ensures kept { W.CellSource.kept work.new ≡ W.CellSource.kept work.old }
    ensures stepped { StepsLeave W.CellSource work.old work.new aim.now
        merger.old merger.new steps.old steps.new result }
{
    merger.advance(work, aim, QUOTA, steps)
}

/// Takes the steps of one mutation, and finishes the shadow where they end its merge.
#[inline(always)]
pub(crate) fn build<W: CellSource + CellSink, L: Ledger>(
    merger: &mut Merger,
    work: &mut W,
    aim: &Aim,
    steps: &mut Steps<L>,
) -> Result<(), StepFault>
    requires { IsReady (W.CellSource.state work.old).held aim.now merger.old }
    ensures kept { W.CellSource.kept work.new ≡ W.CellSource.kept work.old }
    ensures built { BuildLeaves W.CellSource work.old work.new aim.now
        merger.old merger.new steps.old steps.new result }
{
    match take_steps(merger, work, aim, steps)? {
        Progress::Done => work.finish(aim.level)?,
        Progress::More => {}
    }
    Ok(())
}
