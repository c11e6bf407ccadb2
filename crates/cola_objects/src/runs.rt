//! Runs in an object of cells.
ghost use Rattle.std.specs.Prelude.{◌≡◌, ◌<◌, ◌≤◌, All, length, IfOk};
ghost use Rattle.cola_cell.specs.declared.format.Format.TheVariants.{One};
ghost use Rattle.cola_look.specs.Runs.{HasRun};
ghost use Rattle.cola_merge.specs.Feeds.{IsSource};
ghost use Rattle.cola_cursor.specs.Seeking.{LevelsRise};

use crate::rows::{Row, cell_of};
use arrayvec::ArrayVec;
use cola_cell::{CellSink, CellSource, MOST_LEVELS, ReadFault, Run, StepFault};
use cola_outside::Steps;
use std::sync::ledger::Ledger;

/// Pushes the cells to the level's shadow, which stands in this slot.
#[tactic(auto, using(cola_cell::proofs::RunLemmas::slot_stays))]
fn push_rows<W: CellSink, L: Ledger>(
    work: &mut W,
    level: u8,
    slot: u8,
    rows: &[Row],
    steps: &mut Steps<L>,
) -> Result<(), StepFault>
    requires level_in { level < (W.CellSource.state work.old).held.fixed.levels }
    requires format { (W.CellSource.state work.old).held.fixed.format ≡ One }
    requires in_slot { slot ≡ ((W.CellSource.state work.old).held.shadows level).slot }
    ensures fixed { (W.CellSource.state work.new).held.fixed ≡ (W.CellSource.state work.old).held.fixed }
{
    for row in rows {
        if let Some(cell) = cell_of(row) {
            match work.push(level, slot, &cell, steps) {
                Ok(()) => {}
                Err(fault) => return Err(fault.into()),
            }
        }
    }
    Ok(())
}

/// Puts a run of these cells into a slot, which takes an access for each. The level's shadow stands in the slot afterwards.
pub fn put_run<W: CellSink, L: Ledger>(
    work: &mut W,
    level: u8,
    slot: u8,
    rows: &[Row],
    steps: &mut Steps<L>,
) -> Result<Run, StepFault>
    requires level_in { level < (W.CellSource.state work.old).held.fixed.levels }
    requires slot_in { slot < 2 }
    requires format { (W.CellSource.state work.old).held.fixed.format ≡ One }
    ensures fixed { (W.CellSource.state work.new).held.fixed ≡ (W.CellSource.state work.old).held.fixed }
    ensures source { IfOk result (λ run. IsSource (W.CellSource.state work.old).held.fixed run) }
    ensures place { IfOk result (λ run. (run.level ≡ level) × (run.slot ≡ slot)) }
{
    work.restart(level, slot);
    push_rows(work, level, slot, rows, steps)?;
    work.finish(level)?;
    let len = work.shadow_len(level);
    Ok(Run { level, slot, len })
}

/// Whether a run has these cells and no more.
pub fn has_rows<W: CellSource, L: Ledger>(
    work: &mut W,
    run: &Run,
    rows: &[Row],
    steps: &mut Steps<L>,
) -> Result<bool, ReadFault>
    requires { IsSource (W.state work.old).held.fixed run.now }
    ensures cells_stay { (W.state work.new).held ≡ (W.state work.old).held }
{
    for index in 0..run.len {
        let found = work.read(run.level, run.slot, index, steps)?;
        if rows.get(index as usize).and_then(cell_of) != Some(found) {
            return Ok(false);
        }
    }
    Ok(rows.len() == run.len as usize)
}

/// Runs in their order.
fn in_order(runs: &[Run; 4]) -> ArrayVec<Run, MOST_LEVELS>
    ensures { result.items ≡ runs.now }
{
    let mut list = ArrayVec::new();
    list.push(runs[0]);
    list.push(runs[1]);
    list.push(runs[2]);
    list.push(runs[3]);
    list
}

/// Puts the runs of levels 0 to 3 into slots 0, and answers them as a search and a cursor take them.
pub fn put_chain<W: CellSink, L: Ledger>(
    work: &mut W,
    chain: &[Vec<Row>],
    steps: &mut Steps<L>,
) -> Result<ArrayVec<Run, MOST_LEVELS>, StepFault>
    requires levels { 3 < (W.CellSource.state work.old).held.fixed.levels }
    requires format { (W.CellSource.state work.old).held.fixed.format ≡ One }
    requires four { length chain.now ≡ 4 }
    ensures runs { IfOk result (λ runs. All (HasRun (W.CellSource.state work.new).held) runs.items) }
    ensures rise { IfOk result (λ runs. LevelsRise 0 runs.items) }
{
    let zero = put_run(work, 0, 0, &chain[0], steps)?;
    let one = put_run(work, 1, 0, &chain[1], steps)?;
    let two = put_run(work, 2, 0, &chain[2], steps)?;
    let three = put_run(work, 3, 0, &chain[3], steps)?;
    Ok(in_order(&[zero, one, two, three]))
}
