//! Whether the shadow of a level is finished, once its window is over.
ghost use Rattle.std.specs.Prelude.{◌≡◌, ◌↔◌, ◌+◌, ◌*◌, ◌^◌, ◌≤◌, None, IsTrue, IfOk, OnOk};
ghost use Rattle.cola_cell.specs.Looks.{OnlyLooks};
ghost use Rattle.cola_verdict.specs.Tests.{AreCellsTold};
ghost use Rattle.cola_check.specs.Blocks.{TurnsTo, run_blocks, blocks_below, shadow_blocks};
ghost use Rattle.cola_check.specs.Found.{tested_by, shadow_of};
ghost use Rattle.cola_check.specs.Shadows.{IsReached, FitAt, FinishedAt};
ghost use Rattle.cola_check.specs.Testing.{HasLevels, ReadsFile};

use crate::aims::next_run;
use crate::carried::is_carried;
use crate::runs::{few_at, is_odd_at, shadow_run, visible_run};
use crate::visible::{RunTests, test_run};
use cola_cell::{CellSource, ReadFault};
use cola_layout::Header;
use cola_outside::Steps;
use std::sync::ledger::Ledger;

/// Whether the tests of a run found no flaw.
fn is_good(tests: &RunTests) -> bool
    ensures { IsTrue result ↔
        ((tests.now.disorder ≡ None) × IsTrue tests.now.is_sampled × IsTrue tests.now.has_few) }
{
    tests.disorder.is_none() && tests.is_sampled && tests.has_few
}

/// Whether the shadow of a level is a run as it may be visible in the next period.
fn is_fit<W: CellSource, L: Ledger>(
    work: &mut W,
    header: &Header,
    level: u8,
    steps: &mut Steps<L>,
) -> Result<bool, ReadFault>
    requires level { level ≤ header.now.geometry.bottom }
    requires levels { HasLevels header.now (W.state work.old).held }
    ensures fit { IfOk result (λ fit. AreCellsTold (tested_by header.now (W.state work.old).held) →
        (IsTrue fit ↔ FitAt (tested_by header.now (W.state work.old).held) level)) }
    ensures reads { ReadsFile header.now (W.state work.old) (W.state work.new) steps.old steps.new
        (5 * 2 ^ level) result }
    ensures blocks { OnOk result (TurnsTo (W.state work.old) (W.state work.new)
        (run_blocks (W.state work.old).held (shadow_of header.now level) + blocks_below header.now (W.state work.old).held level)) }
    ensures looks { OnlyLooks W.CellSource work.old work.new result }
{
    let shadow = shadow_run(header, level);
    let next = next_run(header, level);
    let few = few_at(header, level, !is_odd_at(header, level));
    let tests = test_run(work, &shadow, next, few, steps)?;
    Ok(is_good(&tests))
}

/// Whether the shadow of a level of 1 and more is finished: a run as it may be visible in the next period, which has what
/// it must of the run above and of the level's own run.
pub(crate) fn is_finished<W: CellSource, L: Ledger>(
    work: &mut W,
    header: &Header,
    level: u8,
    steps: &mut Steps<L>,
) -> Result<bool, ReadFault>
    requires level { level ≤ header.now.geometry.bottom }
    requires above { 1 ≤ level }
    requires levels { HasLevels header.now (W.state work.old).held }
    ensures finished { IfOk result (λ finished.
        IsReached (tested_by header.now (W.state work.old).held) level →
        (IsTrue finished ↔ FinishedAt (tested_by header.now (W.state work.old).held) level)) }
    ensures reads { ReadsFile header.now (W.state work.old) (W.state work.new) steps.old steps.new
        (18 * 2 ^ level) result }
    ensures blocks { OnOk result (TurnsTo (W.state work.old) (W.state work.new)
        (shadow_blocks header.now (W.state work.old).held level)) }
    ensures looks { OnlyLooks W.CellSource work.old work.new result }
{
    if !is_fit(work, header, level, steps)? {
        return Ok(false);
    }
    let above = visible_run(header, level - 1);
    let own = visible_run(header, level);
    let shadow = shadow_run(header, level);
    let odd = is_odd_at(header, level);
    let bottom = level == header.geometry.bottom;
    is_carried(work, &above, &own, &shadow, odd, bottom, steps)
}
