//! The tests of the cells of a file, one after another.
ghost use Rattle.std.specs.Prelude.{◌≡◌, ◌+◌, ◌*◌, ◌^◌, ◌∷◌, [], IfOk, OnOk};
ghost use Rattle.cola_cell.specs.Costs.{Costs};
ghost use Rattle.cola_cell.specs.Looks.{OnlyLooks};
ghost use Rattle.cola_verdict.specs.declared.verdict.Flaw.TheVariants as flaw;
ghost use Rattle.cola_check.specs.Blocks.{TurnsTo, all_blocks};
ghost use Rattle.cola_check.specs.Check.{test_ticks};
ghost use Rattle.cola_check.specs.Found.{tested_by};
ghost use Rattle.cola_check.specs.Testing.{HasLevels, FindsVerdict, ReadsFile, Tests, rest_ticks, run_ticks};

use crate::cells::first_bad_cell;
use crate::living::test_live;
use crate::shadows::test_shadows;
use crate::visibles::test_visibles;
use cola_cell::{CellSource, ReadFault};
use cola_layout::Header;
use cola_outside::Steps;
use cola_verdict::{Flaw, Verdict};
use std::sync::ledger::Ledger;

/// The verdict on a file whose visible runs pass their tests: by its shadows and its live keys.
fn test_rest<W: CellSource, L: Ledger>(
    work: &mut W,
    header: &Header,
    steps: &mut Steps<L>,
) -> Result<Verdict, ReadFault>
    requires { HasLevels header.now (W.state work.old).held }
    ensures finds { IfOk result (FindsVerdict (tested_by header.now (W.state work.old).held)
        (flaw.Cell ∷ flaw.Order ∷ flaw.Sample ∷ flaw.Length ∷ [])) }
    ensures reads { ReadsFile header.now (W.state work.old) (W.state work.new) steps.old steps.new
        (rest_ticks header.now.geometry.bottom) result }
    ensures blocks { OnOk result (TurnsTo (W.state work.old) (W.state work.new)
        (7 * all_blocks header.now (W.state work.old).held)) }
    ensures looks { OnlyLooks W.CellSource work.old work.new result }
{
    match test_shadows(work, header, steps)? {
        Some(verdict) => Ok(verdict),
        None => test_live(work, header, steps),
    }
}

/// The verdict on a file whose runs are cells: by its visible runs, its shadows and its live keys.
fn test_runs<W: CellSource, L: Ledger>(
    work: &mut W,
    header: &Header,
    steps: &mut Steps<L>,
) -> Result<Verdict, ReadFault>
    requires { HasLevels header.now (W.state work.old).held }
    ensures finds { IfOk result (FindsVerdict (tested_by header.now (W.state work.old).held)
        (flaw.Cell ∷ [])) }
    ensures reads { ReadsFile header.now (W.state work.old) (W.state work.new) steps.old steps.new
        (run_ticks header.now.geometry.bottom) result }
    ensures blocks { OnOk result (TurnsTo (W.state work.old) (W.state work.new)
        (9 * all_blocks header.now (W.state work.old).held)) }
    ensures looks { OnlyLooks W.CellSource work.old work.new result }
{
    match test_visibles(work, header, steps)? {
        Some(verdict) => Ok(verdict),
        None => test_rest(work, header, steps),
    }
}

/// Tests the cells of an object with the levels of a header: that they are cells, then the visible runs, the shadows, and the
/// live keys. The first test that fails ends it.
pub(crate) fn test_cells<W: CellSource, L: Ledger>(
    work: &mut W,
    header: &Header,
    steps: &mut Steps<L>,
) -> Result<Verdict, ReadFault>
    requires { HasLevels header.now (W.state work.old).held }
    ensures tests { Tests header.now (W.state work.old) (W.state work.new) result }
    ensures costs { Costs (W.state work.old).spent (W.state work.new).spent steps.old steps.new
        (test_ticks header.now.geometry.bottom) (test_ticks header.now.geometry.bottom) }
    ensures blocks { OnOk result (TurnsTo (W.state work.old) (W.state work.new)
        (10 * all_blocks header.now (W.state work.old).held)) }
    ensures looks { OnlyLooks W.CellSource work.old work.new result }
{
    match first_bad_cell(work, header, steps)? {
        Some((level, number)) => Ok(Verdict::Broken(Flaw::Cell, level, number)),
        None => test_runs(work, header, steps),
    }
}
