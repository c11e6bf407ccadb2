//! The build of level 0 in one mutation.
ghost use Rattle.std.specs.Prelude.{◌≡◌, ◌≤◌, ◌<◌, ◌^◌};
ghost use Rattle.cola_mutation.specs.Calls.{MayBuild, TopBuildLeaves};

use cola_cell::{Cell, CellSink, CellSource, StepFault};
use cola_level::{Level, top_aim};
use cola_merge::Merger;
use cola_outside::Steps;
use std::sync::ledger::Ledger;

/// One step more than the sources of level 0 have cells: at most four of its own run, the new one, and one of the sample.
const ENOUGH: u32 = 7;

/// Builds the shadow of level 0 whole from its visible run, the new cell and the sample of level 1, which is `next`. It
/// makes at most 9 ticks.
#[inline(always)]
pub(crate) fn build_top<W: CellSink, L: Ledger>(
    work: &mut W,
    top: &mut Level,
    next: &Level,
    clock: u64,
    bottom: u8,
    cell: Cell,
    steps: &mut Steps<L>,
) -> Result<(), StepFault>
    requires below_zero { 1 ≤ bottom }
    requires bottom_in { bottom ≤ 22 }
    requires clock_in { clock < 2 ^ 23 }
    requires ready { MayBuild (W.CellSource.state work.old).held clock cell top.old next.now }
    requires empty { ((W.CellSource.state work.old).held.shadows 0).len ≡ 0 }
    ensures kept { W.CellSource.kept work.new ≡ W.CellSource.kept work.old }
    ensures builds { TopBuildLeaves W.CellSource work.old work.new steps.old steps.new
        clock cell top.old top.new next.now result }
{
    let aim = top_aim(clock, bottom, top.visible, cell, next);
    let mut merger = Merger::begin();
    merger.advance(work, &aim, ENOUGH, steps)?;
    top.shadow = work.shadow_len(0);
    Ok(())
}
