//! Cursors.
ghost use Rattle.std.specs.Prelude.{◌≡◌, ◌≤◌, [], All, length, option_copied};
ghost use Rattle.cola_cell.specs.Looks.{OnlyLooks};
ghost use Rattle.cola_look.specs.Runs.{HasRun};
ghost use Rattle.cola_cursor.specs.Giving.{LinesGive};
ghost use Rattle.cola_cursor.specs.Saving.{Saves, cursor_at};
ghost use Rattle.cola_cursor.specs.Seeking.{LevelsRise};
ghost use Rattle.cola_cursor.specs.Standing.{StandsAlong};
ghost use Rattle.cola_cursor.specs.Turning.{EndGives, TurnedGives, sought};

use crate::line::Line;
use crate::lines::{least_key, pass_all, read_heads};
use crate::saved::{Saved, put_back};
use crate::simple::simple_step;
use crate::starts::{end_lines, seek_lines, turned_lines};
use arrayvec::ArrayVec;
use cola_cell::{CellSource, Item, Key, MOST_LEVELS, ReadFault, Run, Value};
use cola_outside::Steps;
use std::ops::Bound;
use std::sync::ledger::Ledger;

/// Where a range stands: a line for each run, the newest run first, and the upper end of its keys, which is
/// itself left out, if there is one.
#[derive(Drop)]
pub struct Cursor {
    pub lines: ArrayVec<Line, MOST_LEVELS>,
    pub end: Option<Key>,
    pub falls: bool,
}

impl Cursor {
    ghost use Rattle.std.specs.Prelude.{All, option_copied, false};
    ghost use Rattle.std.specs.Bound.{bound_map};
    ghost use Rattle.cola_cell.specs.Looks.{OnlyLooks};
    ghost use Rattle.cola_look.specs.Runs.{HasRun};
    ghost use Rattle.cola_cursor.specs.Giving.{SeekGives, NextGives, NextGivesPair};
    ghost use Rattle.cola_cursor.specs.Seeking.{LevelsRise};
    ghost use Rattle.cola_cursor.specs.Turning.{SeekBackGives};
    ghost use Rattle.cola_cursor.specs.Standing.{StandsAlong, Stands};

    /// A cursor over the runs, the newest first, at the first key that is at least `lo`; its pairs end below `hi`,
    /// where there is one. It searches each run from the link of the run above it, as a look-up does, in at most
    /// 8 ticks for each run.
    pub fn seek<W: CellSource, L: Ledger>(
        work: &mut W,
        runs: &ArrayVec<Run, MOST_LEVELS>,
        lo: &Key,
        hi: Option<&Key>,
        steps: &mut Steps<L>,
    ) -> Result<Cursor, ReadFault>
        requires runs { All (HasRun (W.state work.old).held) runs.now.items }
        requires levels { LevelsRise 0 runs.now.items }
        ensures looks { OnlyLooks W.CellSource work.old work.new result }
        ensures seeks { SeekGives runs.now.items lo.now (option_copied hi.entry)
            (W.state work.old) (W.state work.new) steps.old steps.new result }
    {
        let lines = seek_lines(work, runs.as_slice(), lo, false, steps)?;
        let end = hi.copied();
        Ok(Cursor {
            lines,
            end,
            falls: false,
        })
    }

    /// A cursor that falls, from the last key up to `hi` down to `lo`, which is one of its keys, where there is one.
    /// It searches each run as `seek` does, in at most 8 ticks for each; without an upper bound it reads nothing.
    pub fn seek_back<W: CellSource, L: Ledger>(
        work: &mut W,
        runs: &ArrayVec<Run, MOST_LEVELS>,
        lo: Option<&Key>,
        hi: Bound<&Key>,
        steps: &mut Steps<L>,
    ) -> Result<Cursor, ReadFault>
        requires runs { All (HasRun (W.state work.old).held) runs.now.items }
        requires levels { LevelsRise 0 runs.now.items }
        ensures looks { OnlyLooks W.CellSource work.old work.new result }
        ensures seeks { SeekBackGives runs.now.items (option_copied lo.entry)
            (bound_map (λ key. key.now) hi.entry) (W.state work.old) (W.state work.new)
            steps.old steps.new result }
    {
        match hi {
            Bound::Included(hi) => turned_at(work, runs, lo, hi, true, steps),
            Bound::Excluded(hi) => turned_at(work, runs, lo, hi, false, steps),
            Bound::Unbounded => Ok(turned_at_end(work, runs, lo)),
        }
    }

    /// The next pair in a direction, with its stamp; none where no pair is left. After a refusal the cursor stands where
    /// it was. It makes a tick for each cell that it reads.
    pub fn next_stamped<W: CellSource, L: Ledger>(
        &mut self,
        work: &mut W,
        steps: &mut Steps<L>,
    ) -> Result<Option<(Key, Value, u64)>, ReadFault>
        requires { Stands (W.state work.old).held self.old }
        ensures { NextGives self.old.falls W.CellSource work.old work.new self.old self.new
            steps.old steps.new result }
    {
        match simple_step(
            work,
            self.lines.as_mut_slice(),
            &self.end,
            self.falls,
            steps,
        ) {
            Ok(Some(pair)) => Ok(Some(pair)),
            Ok(None) => self.next_saving(work, steps),
            Err(fault) => Err(fault),
        }
    }

    /// The same with a room in which each line that changes is saved. It is a function of its own, so that the room is
    /// cleared for the steps alone that need it.
    #[inline(never)]
    fn next_saving<W: CellSource, L: Ledger>(
        &mut self,
        work: &mut W,
        steps: &mut Steps<L>,
    ) -> Result<Option<(Key, Value, u64)>, ReadFault>
        requires { Stands (W.state work.old).held self.old }
        ensures { NextGives self.old.falls W.CellSource work.old work.new self.old self.new
            steps.old steps.new result }
    {
        let mut saved = ArrayVec::new();
        match advance(
            work,
            self.lines.as_mut_slice(),
            &self.end,
            &mut saved,
            self.falls,
            steps,
        ) {
            Ok(answer) => Ok(answer),
            Err(fault) => {
                put_back(self.lines.as_mut_slice(), &mut saved);
                Err(fault)
            }
        }
    }

    /// The next pair of the interval, as `next_stamped` gives it, without its stamp.
    pub fn next<W: CellSource, L: Ledger>(
        &mut self,
        work: &mut W,
        steps: &mut Steps<L>,
    ) -> Result<Option<(Key, Value)>, ReadFault>
        requires { Stands (W.state work.old).held self.old }
        ensures { NextGivesPair self.old.falls W.CellSource work.old work.new self.old self.new
            steps.old steps.new result }
    {
        match self.next_stamped(work, steps) {
            Ok(Some((key, value, _))) => Ok(Some((key, value))),
            Ok(None) => Ok(None),
            Err(fault) => Err(fault),
        }
    }
}

/// A cursor that falls from the last key below `hi`, and with `over` from the last that is at most `hi`.
fn turned_at<W: CellSource, L: Ledger>(
    work: &mut W,
    runs: &ArrayVec<Run, MOST_LEVELS>,
    lo: Option<&Key>,
    hi: &Key,
    over: bool,
    steps: &mut Steps<L>,
) -> Result<Cursor, ReadFault>
    requires runs { All (HasRun (W.state work.old).held) runs.now.items }
    requires levels { LevelsRise 0 runs.now.items }
    ensures looks { OnlyLooks W.CellSource work.old work.new result }
    ensures turns { TurnedGives runs.now.items (option_copied lo.entry) (sought over hi.now)
        (W.state work.old) (W.state work.new) steps.old steps.new result }
{
    let found = seek_lines(work, runs.as_slice(), hi, over, steps)?;
    let lines = turned_lines(found.as_slice());
    let end = lo.copied();
    Ok(Cursor {
        lines,
        end,
        falls: true,
    })
}

/// A cursor that falls from the end.
fn turned_at_end<W: CellSource>(
    work: &W,
    runs: &ArrayVec<Run, MOST_LEVELS>,
    lo: Option<&Key>,
) -> Cursor
    requires runs { All (HasRun (W.state work.now).held) runs.now.items }
    requires levels { LevelsRise 0 runs.now.items }
    ensures { EndGives (W.state work.now).held runs.now.items (option_copied lo.entry) result }
{
    let _held = work;
    let end = lo.copied();
    Cursor {
        lines: end_lines(runs.as_slice()),
        end,
        falls: true,
    }
}

/// The next pair of the lines below the upper end, with its stamp: it changes the lines in place, and saves each that it
/// changes. After a refusal they are somewhere on the way.
fn advance<W: CellSource, L: Ledger>(
    work: &mut W,
    lines: &mut [Line],
    end: &Option<Key>,
    saved: &mut ArrayVec<Saved, MOST_LEVELS>,
    falls: bool,
    steps: &mut Steps<L>,
) -> Result<Option<(Key, Value, u64)>, ReadFault>
    requires stands { StandsAlong falls (W.state work.old).held (cursor_at lines.old end.now falls) }
    requires few { length lines.old ≤ 23 }
    requires none { saved.old.items ≡ [] }
    ensures gives { LinesGive falls W.CellSource work.old work.new end.now lines.old lines.new
        saved.new.items steps.old steps.new result }
    ensures saves { Saves lines.old lines.new [] saved.new.items }
{
    read_heads(work, lines, saved, falls, steps)?;
    while let Some(least) = least_key(lines, end, falls) {
        let item = pass_all(work, lines, saved, &least.key, least.first, falls, steps)?;
        match item {
            Some(item) => match item {
                Item::Value { value, stamp } => return Ok(Some((least.key, value, stamp))),
                Item::Tombstone => {}
            },
            None => {}
        }
    }
    Ok(None)
}
