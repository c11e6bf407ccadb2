//! The lines of a cursor where it begins.
ghost use Rattle.std.specs.Prelude.{◌≡◌, ◌+◌, ◌*◌, ◌≤◌, drop, length, map, IfOk, false};
ghost use Rattle.std.specs.List.{AllByRecursion};
ghost use Rattle.cola_cell.specs.Costs.{Costs};
ghost use Rattle.cola_cell.specs.Looks.{OnlyLooks};
ghost use Rattle.cola_look.specs.Outcome.{Answers};
ghost use Rattle.cola_look.specs.Runs.{HasRun};
ghost use Rattle.cola_cursor.specs.Causes.{HasRunsCause};
ghost use Rattle.cola_cursor.specs.Lines.{LineFits, Reading};
ghost use Rattle.cola_cursor.specs.Seeking.{
  ArePlaced,
  cells_of,
  left_lines,
  length_of_first,
  places_of,
  places_told,
};
ghost use Rattle.cola_cursor.specs.Standing.{runs_of};
ghost use Rattle.cola_cursor.specs.Turning.{turned_line, end_line, sought};

use crate::line::Line;
use crate::stop::stop_in;
use arrayvec::ArrayVec;
use cola_cell::{CellSource, Key, MOST_LEVELS, ReadFault, Run};
use cola_outside::Steps;
use std::sync::ledger::Ledger;

/// The length of the run of this number, and 0 where there is none.
fn length_at(runs: &[Run], i: usize) -> u32
    ensures { result ≡ length_of_first (drop i runs.now) }
{
    match runs.get(i) {
        Some(run) => run.len,
        None => 0,
    }
}

/// A line for each run, where the search of the key stops in it, or with `over` the search of the first key above it.
pub(crate) fn seek_lines<W: CellSource, L: Ledger>(
    work: &mut W,
    runs: &[Run],
    key: &Key,
    over: bool,
    steps: &mut Steps<L>,
) -> Result<ArrayVec<Line, MOST_LEVELS>, ReadFault>
    requires runs { AllByRecursion (HasRun (W.state work.old).held) runs.now }
    requires few { length runs.now ≤ 23 }
    ensures places { ArePlaced (W.state work.old).held runs.now (sought over key.now) result }
    ensures begins { IfOk result (λ lines. runs_of lines.items ≡ runs.now) }
    ensures fit { IfOk result (λ lines.
        AllByRecursion (LineFits false (W.state work.old).held) lines.items) }
    ensures left { steps.new + left_lines result
        ≤ steps.old + 8 * length runs.now + cells_of runs.now }
    ensures exact { Answers (places_told (W.state work.old).held (sought over key.now) 0 runs.now)
        places_of result }
    ensures costs { Costs (W.state work.old).spent (W.state work.new).spent steps.old steps.new
        (8 * length runs.now) (2 * length runs.now) }
    ensures reading { Reading (W.state work.old) (W.state work.new) steps.old steps.new }
    ensures cause { HasRunsCause false W.CellSource work.old work.new runs.now result }
    ensures looks { OnlyLooks W.CellSource work.old work.new result }
{
    let mut lines = ArrayVec::new();
    let mut start = 0;
    for i in 0..runs.len() {
        let run = &runs[i];
        let next_len = length_at(runs, i + 1);
        let stop = stop_in(work, run, next_len, start, key, over, steps)?;
        lines.push(Line::at(*run, stop.place));
        start = stop.link;
    }
    Ok(lines)
}

/// The lines that go back from where these stand.
pub(crate) fn turned_lines(lines: &[Line]) -> ArrayVec<Line, MOST_LEVELS>
    requires few { length lines.now ≤ 23 }
    requires fit { AllByRecursion (λ line. line.place ≤ line.run.len) lines.now }
    ensures { result.items ≡ map turned_line lines.now }
{
    let mut turned = ArrayVec::new();
    for line in lines {
        turned.push(line.turned());
    }
    turned
}

/// The lines that go back from the ends of the runs.
pub(crate) fn end_lines(runs: &[Run]) -> ArrayVec<Line, MOST_LEVELS>
    requires few { length runs.now ≤ 23 }
    ensures { result.items ≡ map end_line runs.now }
{
    let mut lines = ArrayVec::new();
    for run in runs {
        lines.push(Line::at(*run, 0));
    }
    lines
}
