//! The tests of the shadows, from the bottom up.
ghost use Rattle.std.specs.Prelude.{◌≡◌, ◌∷◌, ◌↔◌, ◌*◌, ◌-◌, ◌^◌, ◌≤◌, [], true, IsTrue, IfOk, OnOk};
ghost use Rattle.cola_cell.specs.Looks.{OnlyLooks};
ghost use Rattle.cola_cell.specs.Places.{number_of};
ghost use Rattle.cola_clock.specs.Clock.{works, visible_slot};
ghost use Rattle.cola_clock.specs.Schedule.{phase_at};
ghost use Rattle.cola_verdict.specs.Tests.{ShadowAt};
ghost use Rattle.cola_verdict.specs.declared.verdict.Flaw.TheVariants as flaw;
ghost use Rattle.cola_check.specs.Blocks.{TurnsTo, shadow_blocks, all_blocks};
ghost use Rattle.cola_check.specs.Found.{tested_by};
ghost use Rattle.cola_check.specs.Shadows.{IsReached, CutAt};
ghost use Rattle.cola_check.specs.Testing.{HasLevels, FindsFlaw, ReadsFile, shadow_ticks};

use crate::aims::{aim_at, cursors_at};
use crate::cut::is_cut;
use crate::finished::is_finished;
use crate::runs::{broken_at, shadow_run};
use cola_cell::{CellSource, ReadFault};
use cola_clock::{Phase, phase};
use cola_layout::Header;
use cola_outside::Steps;
use cola_verdict::{Flaw, Verdict};
use std::sync::ledger::Ledger;

/// Whether the cursors of a level that works cut its build after its shadow.
fn has_cut<W: CellSource, L: Ledger>(
    work: &mut W,
    header: &Header,
    level: u8,
    steps: &mut Steps<L>,
) -> Result<bool, ReadFault>
    requires level { level ≤ header.now.geometry.bottom }
    requires above { 1 ≤ level }
    requires inside { works header.now.clock level ≡ true }
    requires levels { HasLevels header.now (W.state work.old).held }
    ensures cut { IfOk result (λ cut. IsReached (tested_by header.now (W.state work.old).held) level →
        (IsTrue cut ↔ CutAt (tested_by header.now (W.state work.old).held) level)) }
    ensures reads { ReadsFile header.now (W.state work.old) (W.state work.new) steps.old steps.new
        (18 * 2 ^ level) result }
    ensures blocks { OnOk result (TurnsTo (W.state work.old) (W.state work.new)
        (shadow_blocks header.now (W.state work.old).held level)) }
    ensures looks { OnlyLooks W.CellSource work.old work.new result }
{
    let aim = aim_at(header, level);
    let cursors = cursors_at(header, level);
    let shadow = shadow_run(header, level);
    is_cut(work, &aim, &cursors, &shadow, steps)
}

/// Where a level of 1 and more stands in its period.
fn phase_of(header: &Header, level: u8) -> Phase
    requires level { level ≤ header.now.geometry.bottom }
    requires above { 1 ≤ level }
    ensures { result ≡ phase_at header.now.clock level }
{
    phase(header.clock, level)
}

/// Whether the shadow of a level of 1 and more is what the level builds. Before its window nothing is asked of it.
fn has_shadow<W: CellSource, L: Ledger>(
    work: &mut W,
    header: &Header,
    level: u8,
    steps: &mut Steps<L>,
) -> Result<bool, ReadFault>
    requires level { level ≤ header.now.geometry.bottom }
    requires above { 1 ≤ level }
    requires levels { HasLevels header.now (W.state work.old).held }
    ensures has { IfOk result (λ has. IsReached (tested_by header.now (W.state work.old).held) level →
        (IsTrue has ↔ ShadowAt (tested_by header.now (W.state work.old).held) level)) }
    ensures reads { ReadsFile header.now (W.state work.old) (W.state work.new) steps.old steps.new
        (18 * 2 ^ level) result }
    ensures blocks { OnOk result (TurnsTo (W.state work.old) (W.state work.new)
        (shadow_blocks header.now (W.state work.old).held level)) }
    ensures looks { OnlyLooks W.CellSource work.old work.new result }
{
    match phase_of(header, level) {
        Phase::Before => Ok(true),
        Phase::Inside(_) => has_cut(work, header, level, steps),
        Phase::After => is_finished(work, header, level, steps),
    }
}

/// The verdict where a shadow is not what its level builds: at the lowest such level, whose shadow is the last that is read.
pub(crate) fn test_shadows<W: CellSource, L: Ledger>(
    work: &mut W,
    header: &Header,
    steps: &mut Steps<L>,
) -> Result<Option<Verdict>, ReadFault>
    requires { HasLevels header.now (W.state work.old).held }
    ensures finds { IfOk result (FindsFlaw (tested_by header.now (W.state work.old).held)
        (flaw.Cell ∷ flaw.Order ∷ flaw.Sample ∷ flaw.Length ∷ []) (flaw.Shadow ∷ [])) }
    ensures reads { ReadsFile header.now (W.state work.old) (W.state work.new) steps.old steps.new
        (shadow_ticks header.now.geometry.bottom) result }
    ensures blocks { OnOk result (TurnsTo (W.state work.old) (W.state work.new)
        (6 * all_blocks header.now (W.state work.old).held)) }
    ensures looks { OnlyLooks W.CellSource work.old work.new result }
{
    let mut level = header.geometry.bottom;
    while level > 0 {
        if !has_shadow(work, header, level, steps)? {
            let shadow = shadow_run(header, level);
            return Ok(Some(broken_at(header, Flaw::Shadow, shadow, 0)));
        }
        level -= 1;
    }
    Ok(None)
}
