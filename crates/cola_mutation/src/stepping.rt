//! One mutation.
ghost use Rattle.std.specs.Prelude.{◌≡◌, ◌≤◌, ◌<◌, ◌^◌, length};
ghost use Rattle.cola_laws.specs.Plain.{next_clock};
ghost use Rattle.cola_cell.specs.Format.{CellFits, KeyFits, ItemFits};
ghost use Rattle.cola_mutation.specs.Levels.{IsChain};
ghost use Rattle.cola_mutation.specs.Calls.{PrepareLeaves, MutationLeaves};

use crate::ending::end_levels;
use crate::topping::build_top;
use crate::working::work_levels;
use cola_cell::{Cell, CellSink, CellSource, Item, Key, StepFault};
use cola_clock::visible_slot;
use cola_level::Level;
use cola_outside::Steps;
use std::sync::ledger::Ledger;

/// Builds what the mutation needs: the levels of 1 and more have their turns, and then level 0's shadow is built whole.
fn build_shadows<W: CellSink, L: Ledger>(
    work: &mut W,
    levels: &mut [Level],
    clock: u64,
    cell: Cell,
    steps: &mut Steps<L>,
) -> Result<(), StepFault>
    requires chain { IsChain (W.CellSource.state work.old).held clock levels.old }
    requires levels_in { length levels.old ≤ 23 }
    requires clock_in { clock < 2 ^ 23 }
    requires fits { CellFits (W.CellSource.state work.old).held.fixed.format cell }
    ensures kept { W.CellSource.kept work.new ≡ W.CellSource.kept work.old }
    ensures prepares { PrepareLeaves W.CellSource work.old work.new steps.old steps.new
        clock cell levels.old levels.new result }
{
    let bottom = (levels.len() - 1) as u8;
    let Some((top, below)) = levels.split_first_mut() else {
        return Ok(());
    };
    work_levels(work, below, clock, 0, top.visible, steps)?;
    build_top(work, top, &below[0], clock, bottom, cell, steps)
}

/// How many clocks there are with so many levels.
fn clocks(levels: usize) -> u64
    requires { levels ≤ 23 }
    ensures value { result ≡ 2 ^ levels }
    ensures above_zero { 0 < result }
{
    1 << levels
}

/// The clock after an accepted mutation: it counts modulo `2^(L+1)`, where `L` is the number of the bottom.
fn clock_after(clock: u64, levels: usize) -> u64
    requires levels_in { levels ≤ 23 }
    requires clock_in { clock < 2 ^ 23 }
    ensures { result ≡ next_clock levels clock }
{
    (clock + 1) % clocks(levels)
}

/// One mutation of the levels on `work`, at `clock`: the key gets the item, which is a value or a tombstone. Each level of
/// 1 and more that works at the clock takes 28 steps of its merge, or as many as are left; level 0 is built whole; then
/// levels flip, and one window ends. It answers the next clock. The caller looks first whether the key may be put.
///
/// It is refused where the device failed, where a cell that a merge reads next is bad, and as overfull where a level's
/// next run fills its slot and a step would emit another cell. A refusal empties the shadow of level 0, leaves every
/// visible run and the clock, and keeps what the merges have done. The same mutation may be asked for again.
///
/// It makes at most 9 ticks, and 59 for each level of 1 and more that works; these are at most half as many as there are
/// levels.
pub fn step<W: CellSink, L: Ledger>(
    work: &mut W,
    levels: &mut [Level],
    clock: u64,
    key: &Key,
    item: &Item,
    steps: &mut Steps<L>,
) -> Result<u64, StepFault>
    requires chain { IsChain (W.CellSource.state work.old).held clock levels.old }
    requires key_fits { KeyFits (W.CellSource.state work.old).held.fixed.format key.now }
    requires item_fits { ItemFits (W.CellSource.state work.old).held.fixed.format item.now }
    ensures kept { W.CellSource.kept work.new ≡ W.CellSource.kept work.old }
    ensures steps { MutationLeaves W.CellSource work.old work.new steps.old steps.new
        clock key.now item.now levels.old levels.new result }
{
    // every object has at most 23 levels
    work.known();
    let cell = Cell::Item {
        key: *key,
        item: *item,
        young: false,
        link: 0,
    };
    if let Err(fault) = build_shadows(work, levels, clock, cell, steps) {
        work.restart(0, 1 - visible_slot(clock, 0));
        return Err(fault);
    }
    end_levels(work, levels, clock, 0);
    Ok(clock_after(clock, levels.len()))
}
