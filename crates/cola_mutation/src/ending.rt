//! The end of an accepted mutation: levels flip, and one window ends.
ghost use Rattle.std.specs.Prelude.{◌≡◌, ◌+◌, ◌<◌, ◌≤◌, ◌^◌, true, length};
ghost use Rattle.cola_clock.specs.Clock.{ends};
ghost use Rattle.cola_level.specs.Marks.{IsOwnRunConsumed};
ghost use Rattle.cola_mutation.specs.Ends.{ended, all_ended, AreDone};
ghost use Rattle.cola_mutation.specs.Calls.{EndLeaves};

use cola_cell::{CellSink, CellSource};
use cola_clock::{flips, visible_slot};
use cola_level::Level;

/// Ends the mutation at one level: where the level flips, its shadow is visible, and its new shadow is empty and stands
/// in the slot of the run that was visible; where its window ends, its cursors are 0.
#[inline(always)]
fn end_level<W: CellSink>(work: &mut W, level: &mut Level, clock: u64, number: u8)
    requires level_in { number < (W.CellSource.state work.old).held.fixed.levels }
    requires number_in { number ≤ 22 }
    requires clock_in { clock < 2 ^ 23 }
    requires done { ends clock number ≡ true → IsOwnRunConsumed level.old }
    ensures kept { W.CellSource.kept work.new ≡ W.CellSource.kept work.old }
    ensures spends_nothing { (W.CellSource.state work.new).spent ≡ (W.CellSource.state work.old).spent }
    ensures ended { level.new ≡ ended clock number level.old }
    ensures restarted { EndLeaves W.CellSource work.old work.new clock number 1 }
{
    if flips(clock, number) {
        level.flip();
        work.restart(number, visible_slot(clock, number));
        return;
    }
    // level 0 flips at every clock
    if number == 0 {
        return;
    }
    if !flips(clock, number - 1) {
        return;
    }
    level.leave_window();
}

/// Ends the mutation at these levels, of which the first has this number. No call on the device is made.
pub(crate) fn end_levels<W: CellSink>(work: &mut W, levels: &mut [Level], clock: u64, number: u8)
    requires levels_in { number + length levels.old ≤ (W.CellSource.state work.old).held.fixed.levels }
    requires numbers_in { number + length levels.old ≤ 23 }
    requires clock_in { clock < 2 ^ 23 }
    requires done { AreDone clock number levels.old }
    ensures kept { W.CellSource.kept work.new ≡ W.CellSource.kept work.old }
    ensures spends_nothing { (W.CellSource.state work.new).spent ≡ (W.CellSource.state work.old).spent }
    ensures ended { levels.new ≡ all_ended clock number levels.old }
    ensures restarted { EndLeaves W.CellSource work.old work.new clock number (length levels.old) }
{
    let Some((level, below)) = levels.split_first_mut() else {
        return;
    };
    end_level(work, level, clock, number);
    // behind a level that does not flip no level flips, and no window ends
    if flips(clock, number) {
        end_levels(work, below, clock, number + 1);
    }
}
