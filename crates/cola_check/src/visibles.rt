//! The tests of the visible runs, from level 0 down.
ghost use Rattle.std.specs.Prelude.{◌≡◌, ◌+◌, ◌*◌, ◌^◌, ◌≤◌, ◌<◌, ◌∷◌, [], IfOk, OnOk, IfSome};
ghost use Rattle.cola_cell.specs.Looks.{OnlyLooks};
ghost use Rattle.cola_cell.specs.Places.{slot_size};
ghost use Rattle.cola_verdict.specs.Tests.{AreCellsTold};
ghost use Rattle.cola_verdict.specs.declared.verdict.Flaw.TheVariants as flaw;
ghost use Rattle.cola_check.specs.Blocks.{TurnsTo, level_blocks, blocks_below, all_blocks};
ghost use Rattle.cola_check.specs.Firsts.{IsBelow, AreTestsAt};
ghost use Rattle.cola_check.specs.Found.{tested_by};
ghost use Rattle.cola_check.specs.Testing.{HasLevels, FindsFlaw, ReadsFile, visible_ticks};

use crate::firsts::{FirstFlaws, verdict_by};
use crate::runs::{few_at, is_odd_at, visible_run};
use crate::visible::{RunTests, test_run};
use cola_cell::{CellSource, ReadFault, Run};
use cola_layout::Header;
use cola_outside::Steps;
use cola_verdict::Verdict;
use std::sync::ledger::Ledger;

/// The visible run below that of a level, above the bottom.
fn below_run(header: &Header, level: u8) -> Option<Run>
    requires { level ≤ header.now.geometry.bottom }
    ensures { IsBelow header.now level result }
{
    if level < header.geometry.bottom {
        Some(visible_run(header, level + 1))
    } else {
        None
    }
}

/// Tests the visible run of a level.
fn test_level<W: CellSource, L: Ledger>(
    work: &mut W,
    header: &Header,
    level: u8,
    steps: &mut Steps<L>,
) -> Result<RunTests, ReadFault>
    requires level { level ≤ header.now.geometry.bottom }
    requires levels { HasLevels header.now (W.state work.old).held }
    ensures tests { IfOk result (λ tests. AreCellsTold (tested_by header.now (W.state work.old).held) →
        AreTestsAt (tested_by header.now (W.state work.old).held) level tests) }
    ensures within { IfOk result (λ tests. IfSome tests.disorder (λ index. index < slot_size level)) }
    ensures reads { ReadsFile header.now (W.state work.old) (W.state work.new) steps.old steps.new
        (5 * 2 ^ level) result }
    ensures blocks { OnOk result (TurnsTo (W.state work.old) (W.state work.new)
        (level_blocks header.now (W.state work.old).held level + blocks_below header.now (W.state work.old).held level)) }
    ensures looks { OnlyLooks W.CellSource work.old work.new result }
{
    let run = visible_run(header, level);
    let below = below_run(header, level);
    let few = few_at(header, level, is_odd_at(header, level));
    test_run(work, &run, below, few, steps)
}

/// The first of the tests of visible runs that the file fails, if it fails one: of their order, their samples and their
/// lengths. Each visible run is read once, and of each below level 0 its sample once more.
pub(crate) fn test_visibles<W: CellSource, L: Ledger>(
    work: &mut W,
    header: &Header,
    steps: &mut Steps<L>,
) -> Result<Option<Verdict>, ReadFault>
    requires { HasLevels header.now (W.state work.old).held }
    ensures finds { IfOk result (FindsFlaw (tested_by header.now (W.state work.old).held)
        (flaw.Cell ∷ []) (flaw.Order ∷ flaw.Sample ∷ flaw.Length ∷ [])) }
    ensures reads { ReadsFile header.now (W.state work.old) (W.state work.new) steps.old steps.new
        (visible_ticks header.now.geometry.bottom) result }
    ensures blocks { OnOk result (TurnsTo (W.state work.old) (W.state work.new)
        (2 * all_blocks header.now (W.state work.old).held)) }
    ensures looks { OnlyLooks W.CellSource work.old work.new result }
{
    let mut flaws = FirstFlaws::none();
    for level in 0..header.geometry.levels() {
        let tests = test_level(work, header, level, steps)?;
        flaws = flaws.with(level, &tests);
    }
    Ok(verdict_by(header, &flaws))
}
