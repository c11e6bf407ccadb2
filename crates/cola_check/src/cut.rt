//! Whether cursors cut a build after its shadow.
ghost use Rattle.std.specs.Prelude.{◌≡◌, ◌+◌, ◌*◌, ◌↔◌, IsTrue, IfOk, OnOk, ◌∷◌};
ghost use Rattle.cola_cell.specs.Held.{as_cell};
ghost use Rattle.cola_cell.specs.Looks.{OnlyLooks};
ghost use Rattle.cola_cell.specs.ToldCells.{run_cells};
ghost use Rattle.cola_look.specs.Runs.{HasRun};
ghost use Rattle.cola_merge.specs.Heads.{HasHeads};
ghost use Rattle.cola_merge.specs.Advance.{cells_read};
ghost use Rattle.cola_merge.specs.Pulls.{AreInOrder, Pulls};
ghost use Rattle.cola_merge.specs.States.{state};
ghost use Rattle.cola_check.specs.Reading.{IsRunTold, ReadsRuns};
ghost use Rattle.cola_check.specs.Blocks.{TurnsTo, run_blocks};
ghost use Rattle.cola_check.specs.Cut.{CutFits, CutsAfter, Followed, Compared, runs_of_aim};
ghost use Rattle.cola_check.specs.Cut.{IsAway, IsSpread, FollowsBlocks, ComparesBlocks, aim_blocks};
ghost use Rattle.cola_check.specs.Others.{by_others};

use crate::others::ByOthers;
use cola_cell::{Cell, CellSource, ReadFault, Reader, Run};
use cola_merge::{Aim, Merger};
use cola_outside::Steps;
use std::sync::ledger::Ledger;

/// How many cells of each of its three sources a merge has consumed.
#[derive(Clone, Copy, Debug, Drop)]
pub(crate) struct Cursors {
    pub(crate) own: u32,
    pub(crate) incoming: u32,
    pub(crate) sample: u32,
}

/// Whether two cells are the same.
fn is_same(one: &Cell, other: &Cell) -> bool
    ensures { IsTrue result ↔ (as_cell one.now ≡ as_cell other.now) }
{
    one == other
}

/// Whether the next cells of a merge are those of a run, one after another.
///
/// The run is read by the reader of incoming cells, by which a merge that builds at the run's level reads another level.
fn gives_run<W: CellSource, L: Ledger>(
    merger: &mut Merger,
    work: &mut W,
    aim: &Aim,
    run: &Run,
    steps: &mut Steps<L>,
) -> Result<bool, ReadFault>
    requires heads { HasHeads (W.state work.old).held aim.now merger.old }
    requires run { HasRun (W.state work.old).held run.now }
    ensures blocks { OnOk result (IsAway run.now.level aim.now.incoming →
        FollowsBlocks (W.state work.old) (W.state work.new) aim.now run.now merger.old merger.new) }
    ensures followed { Followed (W.state work.old) (W.state work.new) aim.now run.now
        merger.old merger.new steps.old steps.new result }
    ensures looks { OnlyLooks W.CellSource work.old work.new result }
{
    for index in 0..run.len {
        let Some(given) = merger.pull(work, aim, steps)? else {
            return Ok(false);
        };
        let cell = work.read_for(Reader::Incoming, run.level, run.slot, index, steps)?;
        if !is_same(&given, &cell) {
            return Ok(false);
        }
    }
    Ok(true)
}

/// The next cell of a merge, which reads by the other readers.
fn pull_by_others<W: CellSource, L: Ledger>(
    merger: &mut Merger,
    work: &mut W,
    aim: &Aim,
    steps: &mut Steps<L>,
) -> Result<Option<Cell>, ReadFault>
    requires { HasHeads (W.state work.old).held aim.now merger.old }
    ensures kept { W.kept work.new ≡ W.kept work.old }
    ensures pulls { Pulls aim.now (state (by_others (W.state work.old)) merger.old steps.old)
        (state (by_others (W.state work.new)) merger.new steps.new) result }
{
    let mut others = ByOthers { object: work };
    merger.pull(&mut others, aim, steps)
}

/// Whether two merges of an aim give the same cells until both have none. They read the same runs by different buffers, since
/// their cursors may stand far apart.
fn gives_same<W: CellSource, L: Ledger>(
    first: &mut Merger,
    second: &mut Merger,
    work: &mut W,
    aim: &Aim,
    steps: &mut Steps<L>,
) -> Result<bool, ReadFault>
    requires first { HasHeads (W.state work.old).held aim.now first.old }
    requires second { HasHeads (W.state work.old).held aim.now second.old }
    ensures blocks { OnOk result (IsSpread aim.now →
        ComparesBlocks (W.state work.old) (W.state work.new) aim.now first.old second.old) }
    ensures compared { Compared (W.state work.old) (W.state work.new) aim.now
        first.old second.old steps.old steps.new result }
    ensures looks { OnlyLooks W.CellSource work.old work.new result }
{
    while let Some(one) = first.pull(work, aim, steps)? {
        let Some(other) = pull_by_others(second, work, aim, steps)? else {
            return Ok(false);
        };
        if !is_same(&one, &other) {
            return Ok(false);
        }
    }
    Ok(pull_by_others(second, work, aim, steps)?.is_none())
}

/// Whether the cursors cut the build of the aim after its shadow: the shadow, followed by the weave of what is left of the
/// sources behind the cursors, is the weave of the whole sources.
///
/// A merge from the beginning must give the shadow's cells, and then the same cells as one that is resumed at the cursors.
/// Each of the two reads a cell of the sources once, and each cell of the shadow is read once. It is refused where the device
/// failed, and where a cell of the sources or the shadow is bad.
pub(crate) fn is_cut<W: CellSource, L: Ledger>(
    work: &mut W,
    aim: &Aim,
    cursors: &Cursors,
    shadow: &Run,
    steps: &mut Steps<L>,
) -> Result<bool, ReadFault>
    requires fits { CutFits (W.state work.old).held aim.now cursors.now shadow.now }
    ensures cut { AreInOrder (W.state work.old).held aim.now →
        IsRunTold (W.state work.old).held shadow.now →
        IfOk result (λ cut. IsTrue cut ↔ CutsAfter (W.state work.old).held aim.now cursors.now (run_cells (W.state work.old).held shadow.now)) }
    ensures blocks { OnOk result (TurnsTo (W.state work.old) (W.state work.new)
        (2 * aim_blocks (W.state work.old).held aim.now + run_blocks (W.state work.old).held shadow.now)) }
    ensures reads { ReadsRuns (W.state work.old) (W.state work.new) steps.old steps.new
        (shadow.now ∷ runs_of_aim aim.now) (2 * cells_read aim.now + shadow.now.len) result }
    ensures looks { OnlyLooks W.CellSource work.old work.new result }
{
    let mut whole = Merger::begin();
    if !gives_run(&mut whole, work, aim, shadow, steps)? {
        return Ok(false);
    }
    let mut rest = Merger::resume(cursors.own, cursors.incoming, cursors.sample);
    gives_same(&mut whole, &mut rest, work, aim, steps)
}
