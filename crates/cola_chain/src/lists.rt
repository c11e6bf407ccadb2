//! Levels of a header, and what a chain tells of its levels: their marks and their visible runs.
ghost use Rattle.std.specs.Prelude.{◌≡◌, ◌≤◌, ◌<◌, ◌^◌, ◌+◌, length};
ghost use Rattle.cola_layout.specs.Marks.{all_numbers};
ghost use Rattle.cola_level.specs.Aims.{visible_run};
ghost use Rattle.cola_level.specs.Marks.{all_marks_of};
ghost use Rattle.cola_mutation.specs.Levels.{levels_with};
ghost use Rattle.cola_chain.specs.Runs.{visible_runs};

use arrayvec::ArrayVec;
use cola_cell::{MOST_LEVELS, Run};
use cola_clock::visible_slot;
use cola_layout::Marks;
use cola_level::Level;

/// The visible run of a level.
fn run_of(level: &Level, number: u8, clock: u64) -> Run
    requires number_in { number ≤ 22 }
    requires clock_in { clock < 2 ^ 23 }
    ensures { result ≡ visible_run clock number level.now.visible }
{
    Run {
        level: number,
        slot: visible_slot(clock, number),
        len: level.visible,
    }
}

/// The levels with these marks.
pub(crate) fn levels_of(marks: &[Marks]) -> ArrayVec<Level, MOST_LEVELS>
    requires { length marks.now ≤ 23 }
    ensures { result.items ≡ levels_with (all_numbers marks.now) }
{
    let mut levels = ArrayVec::new();
    for level_marks in marks {
        levels.push(Level::of(level_marks));
    }
    levels
}

/// The marks of these levels.
pub(crate) fn marks_of_levels(levels: &[Level]) -> ArrayVec<Marks, MOST_LEVELS>
    requires { length levels.now ≤ 23 }
    ensures numbers { all_numbers result.items ≡ all_marks_of levels.now }
    ensures many { length result.items ≡ length levels.now }
{
    let mut marks = ArrayVec::new();
    for level in levels {
        marks.push(level.marks());
    }
    marks
}

/// The visible runs of these levels, from level 0 on.
pub(crate) fn runs_of(levels: &[Level], clock: u64) -> ArrayVec<Run, MOST_LEVELS>
    requires levels_in { length levels.now ≤ 23 }
    requires clock_in { clock < 2 ^ 23 }
    ensures { result.items ≡ visible_runs clock 0 levels.now }
{
    let mut runs = ArrayVec::new();
    for (number, level) in levels.iter().enumerate() {
        runs.push(run_of(level, number as u8, clock));
    }
    runs
}
