//! The lowest cell of the runs of a file whose bytes spell none.
ghost use Rattle.std.specs.Prelude.{◌≡◌, ◌+◌, ◌^◌, ◌≤◌, ◌<◌, [], None, IfOk};
ghost use Rattle.cola_cell.specs.Looks.{OnlyLooks};
ghost use Rattle.cola_cell.specs.declared.cell.Reader.TheVariants.{Own};
ghost use Rattle.cola_look.specs.Runs.{HasRun};
ghost use Rattle.cola_check.specs.BadCells.{FindsOne, FindsIn, FindsAt, FindsCell, level_cells, all_cells};
ghost use Rattle.cola_check.specs.Blocks.{GoesOn, TurnsTo, run_blocks, level_blocks, all_blocks};
ghost use Rattle.cola_check.specs.Reading.{ReadsRuns};

use crate::runs::run_at;
use cola_cell::{CellSource, Packed, ReadFault, Reader, Run};
use cola_layout::Header;
use cola_outside::Steps;
use std::sync::ledger::Ledger;

/// The number of the cell at an index of a run, where its bytes spell none. It is read into a room of the caller's.
fn bad_at<W: CellSource, L: Ledger>(
    work: &mut W,
    run: &Run,
    index: u32,
    cell: &mut Packed,
    steps: &mut Steps<L>,
) -> Result<Option<u64>, ReadFault>
    requires run { HasRun (W.state work.old).held run.now }
    requires index { index < run.now.len }
    ensures finds { IfOk result (FindsOne (W.state work.old).held run.now index) }
    ensures reads { ReadsRuns (W.state work.old) (W.state work.new) steps.old steps.new
        [] 1 result }
    ensures goes { IfOk result (λ bad. bad ≡ None →
        GoesOn (W.state work.old) (W.state work.new) Own run.now index (index + 1)) }
    ensures looks { OnlyLooks W.CellSource work.old work.new result }
{
    match work.read_packed(Some(Reader::Own), run.level, run.slot, index, cell, steps) {
        Ok(()) => Ok(None),
        Err(ReadFault::BadCell(number)) => Ok(Some(number)),
        Err(ReadFault::Device) => Err(ReadFault::Device),
    }
}

/// The number of the first cell of a run whose bytes spell none. Only the device's fault is an error.
pub(crate) fn bad_in_run<W: CellSource, L: Ledger>(
    work: &mut W,
    run: &Run,
    steps: &mut Steps<L>,
) -> Result<Option<u64>, ReadFault>
    requires { HasRun (W.state work.old).held run.now }
    ensures finds { IfOk result (FindsIn (W.state work.old).held run.now) }
    ensures reads { ReadsRuns (W.state work.old) (W.state work.new) steps.old steps.new
        [] run.now.len result }
    ensures blocks { TurnsTo (W.state work.old) (W.state work.new)
        (run_blocks (W.state work.old).held run.now) }
    ensures looks { OnlyLooks W.CellSource work.old work.new result }
{
    let mut cell = Packed::blank();
    for index in 0..run.len {
        if let Some(number) = bad_at(work, run, index, &mut cell, steps)? {
            return Ok(Some(number));
        }
    }
    Ok(None)
}

/// The number of the first cell of the two runs of a level whose bytes spell none, slot 0 before slot 1.
fn bad_in_level<W: CellSource, L: Ledger>(
    work: &mut W,
    header: &Header,
    level: u8,
    steps: &mut Steps<L>,
) -> Result<Option<u64>, ReadFault>
    requires level { level ≤ header.now.geometry.bottom }
    requires levels { (W.state work.old).held.fixed.levels ≡ header.now.geometry.bottom + 1 }
    ensures finds { IfOk result (FindsAt header.now (W.state work.old).held level) }
    ensures reads { ReadsRuns (W.state work.old) (W.state work.new) steps.old steps.new
        [] (level_cells header.now level) result }
    ensures blocks { TurnsTo (W.state work.old) (W.state work.new)
        (level_blocks header.now (W.state work.old).held level) }
    ensures looks { OnlyLooks W.CellSource work.old work.new result }
{
    match bad_in_run(work, &run_at(header, level, 0), steps)? {
        Some(number) => Ok(Some(number)),
        None => bad_in_run(work, &run_at(header, level, 1), steps),
    }
}

/// The level and the number of the lowest cell of all runs of a file whose bytes spell none. Each cell up to that one is
/// read once. Only the device's fault is an error.
#[tactic(auto, using(crate::proofs::BadRuns::few_cells))]
pub(crate) fn first_bad_cell<W: CellSource, L: Ledger>(
    work: &mut W,
    header: &Header,
    steps: &mut Steps<L>,
) -> Result<Option<(u8, u64)>, ReadFault>
    requires { (W.state work.old).held.fixed.levels ≡ header.now.geometry.bottom + 1 }
    ensures finds { IfOk result (FindsCell header.now (W.state work.old).held) }
    ensures reads { ReadsRuns (W.state work.old) (W.state work.new) steps.old steps.new
        [] (all_cells header.now) result }
    ensures blocks { TurnsTo (W.state work.old) (W.state work.new)
        (all_blocks header.now (W.state work.old).held) }
    ensures few { all_cells header.now ≤ 2 ^ (header.now.geometry.bottom + 4) }
    ensures looks { OnlyLooks W.CellSource work.old work.new result }
{
    for level in 0..header.geometry.levels() {
        if let Some(number) = bad_in_level(work, header, level, steps)? {
            return Ok(Some((level, number)));
        }
    }
    Ok(None)
}
