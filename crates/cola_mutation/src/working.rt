//! The work of the levels of 1 and more in one mutation.
ghost use Rattle.std.specs.Prelude.{◌≡◌, ◌+◌, ◌<◌, ◌≤◌, ◌^◌, true, length, take};
ghost use Rattle.cola_clock.specs.Clock.{works};
ghost use Rattle.cola_mutation.specs.Levels.{Fits, AreFit, DoRest, last_visible};
ghost use Rattle.cola_mutation.specs.Calls.{TurnLeaves, TurnsLeave};
ghost use Rattle.cola_level.specs.Marks.{all_marks_of};

use cola_cell::{CellSink, CellSource, StepFault};
use cola_clock::works;
use cola_level::{Level, work_by};
use cola_outside::Steps;
use std::sync::ledger::Ledger;

/// The turn of a level that works at the clock: `upper` is the number of the level above it, which has a visible run of
/// `above` cells; `below` are the levels behind it.
#[inline(never)]
fn work_now<W: CellSink, L: Ledger>(
    work: &mut W,
    level: &mut Level,
    below: &[Level],
    clock: u64,
    upper: u8,
    above: u32,
    steps: &mut Steps<L>,
) -> Result<(), StepFault>
    requires fits { Fits (W.CellSource.state work.old).held clock upper above
        level.old (all_marks_of below.now) }
    requires clock_in { clock < 2 ^ 23 }
    requires levels_in { upper + length below.now < 22 }
    requires works { works clock (upper + 1) ≡ true }
    ensures kept { W.CellSource.kept work.new ≡ W.CellSource.kept work.old }
    ensures turn { TurnLeaves W.CellSource work.old work.new steps.old steps.new
        clock upper above level.old level.new below.now result }
{
    work_by(level, work, clock, upper + 1, above, below, steps)
}

/// How many of the levels behind the one of number `upper` rest at the clock before the first that works.
#[inline]
fn resting(levels: &[Level], clock: u64, upper: u8) -> usize
    requires clock_in { clock < 2 ^ 23 }
    requires levels_in { upper + length levels.now ≤ 22 }
    ensures few { result ≤ length levels.now }
    ensures rest { DoRest clock upper result }
    ensures next { result < length levels.now → works clock (upper + result + 1) ≡ true }
{
    for i in 0..levels.len() {
        if works(clock, upper + i as u8 + 1) {
            return i;
        }
    }
    levels.len()
}

/// The length of the visible run above the levels behind the first ones, so many, where there are these `above` the first.
#[inline]
fn above_behind(levels: &[Level], count: usize, above: u32) -> u32
    requires { count ≤ length levels.now }
    ensures { result ≡ last_visible above (take count levels.now) }
{
    if count == 0 {
        above
    } else {
        levels[count - 1].visible
    }
}

/// The turns of all levels behind the one of number `upper`, down to the bottom, up to the first that is refused. A level that
/// rests is passed over.
pub(crate) fn work_levels<W: CellSink, L: Ledger>(
    work: &mut W,
    levels: &mut [Level],
    clock: u64,
    upper: u8,
    above: u32,
    steps: &mut Steps<L>,
) -> Result<(), StepFault>
    requires fit { AreFit (W.CellSource.state work.old).held clock upper above levels.old }
    requires clock_in { clock < 2 ^ 23 }
    requires levels_in { upper + length levels.old ≤ 22 }
    ensures kept { W.CellSource.kept work.new ≡ W.CellSource.kept work.old }
    ensures turns { TurnsLeave W.CellSource work.old work.new steps.old steps.new
        clock upper above levels.old levels.new result }
{
    let rest = resting(levels, clock, upper);
    let over = above_behind(levels, rest, above);
    let (_, left) = levels.split_at_mut(rest);
    let Some((level, below)) = left.split_first_mut() else {
        return Ok(());
    };
    let number = upper + rest as u8;
    work_now(work, level, below, clock, number, over, steps)?;
    work_levels(work, below, clock, number + 1, level.visible, steps)
}
