//! A level.
ghost use Rattle.std.specs.Prelude.{◌≡◌};

use crate::building::build;
use cola_cell::{CellSink, CellSource, StepFault};
use cola_layout::Marks;
use cola_merge::{Aim, Merger};
use cola_outside::Steps;
use std::sync::ledger::Ledger;

/// A level: the lengths of its two runs, in cells, and the merge that builds the shadow.
#[derive(Drop)]
pub struct Level {
    /// The length of the visible run.
    pub visible: u32,
    /// The length of the shadow run, which is not visible yet.
    pub shadow: u32,
    /// How far the shadow's merge has come.
    pub merger: Merger,
}

impl Default for Level {
    ghost use Rattle.cola_clock.specs.Marks.{no_marks};
    ghost use Rattle.cola_level.specs.Marks.{level_with};

    /// A level with no cells, whose merge has not begun.
    fn default() -> Level
        ensures { result ≡ level_with no_marks }
    {
        Level {
            visible: 0,
            shadow: 0,
            merger: Merger::begin(),
        }
    }
}

impl Level {
    ghost use Rattle.cola_layout.specs.Marks.{numbers_of};
    ghost use Rattle.cola_merge.specs.Heads.{IsReady};
    ghost use Rattle.cola_level.specs.Marks.{marks_of, level_with, out_of_window, flipped, IsOwnRunConsumed};
    ghost use Rattle.cola_level.specs.Calls.{WorkLeaves};

    /// The level with these marks.
    pub fn of(marks: &Marks) -> Level
        ensures { result ≡ level_with (numbers_of marks.now) }
    {
        Level {
            visible: marks.visible,
            shadow: marks.shadow,
            merger: Merger::resume(marks.own, marks.incoming, marks.sample),
        }
    }

    /// The marks of the level.
    pub fn marks(&self) -> Marks
        ensures { numbers_of result ≡ marks_of self.now }
    {
        Marks {
            visible: self.visible,
            shadow: self.shadow,
            own: self.merger.own(),
            incoming: self.merger.incoming(),
            sample: self.merger.sample(),
        }
    }

    /// Works at the level in a mutation: takes 28 steps of its merge, or all that are left, and where it is done has what
    /// is not yet on the device of the shadow written. It makes at most 59 ticks.
    ///
    /// It is refused where the device failed, where a cell that its merge reads next is bad, and as overfull where the
    /// shadow fills its slot and a step would emit another cell. A refusal keeps the steps that were taken before it, and
    /// the level's lengths are those of its runs after it too. The work may be asked for again.
    #[inline(always)]
    pub fn work<W: CellSource + CellSink, L: Ledger>(
        &mut self,
        work: &mut W,
        aim: &Aim,
        steps: &mut Steps<L>,
    ) -> Result<(), StepFault>
        requires { IsReady (W.CellSource.state work.old).held aim.now self.old.merger }
        ensures kept { W.CellSource.kept work.new ≡ W.CellSource.kept work.old }
        ensures works { WorkLeaves W.CellSource work.old work.new aim.now
            self.old self.new steps.old steps.new result }
    {
        let result = build(&mut self.merger, work, aim, steps);
        // a refused call may have made the shadow longer, too
        self.shadow = work.shadow_len(aim.level);
        result
    }

    /// Leaves the window: no source cell is consumed from here on. The level's merge is done and its shadow was finished.
    #[inline(always)]
    pub fn leave_window(&mut self)
        requires { IsOwnRunConsumed self.old }
        ensures { self.new ≡ out_of_window self.old }
    {
        self.merger = Merger::begin();
    }

    /// Makes the shadow the visible run, with an empty new shadow. The cursors stay where they are.
    pub fn flip(&mut self)
        ensures { self.new ≡ flipped self.old }
    {
        self.visible = self.shadow;
        self.shadow = 0;
        self.merger = Merger::resume(
            self.merger.own(),
            self.merger.incoming(),
            self.merger.sample(),
        );
    }
}
