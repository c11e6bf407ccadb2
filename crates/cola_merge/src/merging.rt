//! The merger.
ghost use Rattle.std.specs.Prelude.{◌≡◌, ◌+◌, ◌*◌, ◌<◌, ◌≤◌, ◌^◌, ◌↔◌, IsTrue, Some};
ghost use Rattle.cola_merge.specs.declared.aims.Progress.{Progress};
ghost use Rattle.std.specs.Borrow.{sem};
ghost use Rattle.cola_cell.specs.declared.format.Format.{Format};
ghost use Rattle.cola_merge.specs.Rules.{HeadFits, Suits, emitted_of};
ghost use Rattle.cola_merge.specs.Calls.{Adds};

use crate::aims::{Aim, Ends, Progress};
use crate::heads::Head;
use crate::rules::{Choice, first_rule};
use cola_cell::{Cell, CellSink, CellSource, Pass, PushFault, ReadFault, Reader, StepFault};
use cola_outside::Steps;
use std::sync::ledger::Ledger;

/// A merge on its way: how many cells of each of its three sources were consumed, and the heads that were read already.
#[derive(Drop)]
pub struct Merger {
    pub(crate) own: Head,
    pub(crate) incoming: Head,
    pub(crate) sample: Head,
}

/// Puts what becomes of the head's cell, if it is passed on, behind the shadow.
#[inline(always)]
fn emit<W: CellSink, L: Ledger>(
    work: &mut W,
    level: u8,
    slot: u8,
    head: &Head,
    pass: Option<Pass>,
    steps: &mut Steps<L>,
) -> Result<(), PushFault>
    requires level_in { level < (W.CellSource.state work.old).held.fixed.levels }
    requires in_slot { slot ≡ ((W.CellSource.state work.old).held.shadows level).slot }
    requires slot_in { slot < 2 }
    requires fits { HeadFits (W.CellSource.state work.old).held.fixed.format head.now.cell }
    requires suits { Suits pass head.now.cell }
    ensures kept { W.CellSource.kept work.new ≡ W.CellSource.kept work.old }
    ensures adds { Adds W.CellSource work.old work.new level pass head.now steps.old steps.new result }
{
    match (pass, head.cell()) {
        (Some(pass), Some(cell)) => work.push_as(level, slot, cell, pass, steps),
        _ => Ok(()),
    }
}

/// What becomes of the head's cell, if it is passed on.
fn given(head: &Head, pass: Option<Pass>) -> Option<Cell>
    requires suits { Suits pass head.now.cell }
    ensures value { result ≡ emitted_of pass head.now.cell }
    ensures fits { (format : Format) → HeadFits format head.now.cell → HeadFits format result }
{
    let pass = pass?;
    Some(head.cell()?.cell_as(pass))
}

/// How often in turn an object took no step, after it took so many.
#[inline(always)]
fn misses_after(misses: u32, taken: u32) -> u32
    ensures { 0 < taken → result ≡ 0 }
{
    if taken > 0 {
        0
    } else {
        misses.saturating_add(1)
    }
}

impl Merger {
    ghost use Rattle.cola_merge.specs.Ends.{ends_of};
    ghost use Rattle.cola_merge.specs.Heads.{fresh, merger_at, head_of, HasHeads, IsReady, AreFetched, IsUsedUp};
    ghost use Rattle.cola_merge.specs.Lending.{LendsHead};
    ghost use Rattle.cola_merge.specs.Rules.{as_action, next_action, ChoiceSuits};
    ghost use Rattle.cola_merge.specs.Calls.{AdvanceLeaves, PullLeaves, NextLeaves, StepLeaves, TakeLeaves, RunLeaves, DrawLeaves};

    /// A merge that has consumed nothing.
    #[inline(always)]
    pub fn begin() -> Merger
        ensures { result ≡ fresh }
    {
        Merger::resume(0, 0, 0)
    }

    /// A merge that has consumed so many cells of its own run, of the incoming one and of the sample.
    #[inline(always)]
    pub fn resume(own: u32, incoming: u32, sample: u32) -> Merger
        ensures { result ≡ merger_at own incoming sample }
    {
        Merger {
            own: Head::behind(own),
            incoming: Head::behind(incoming),
            sample: Head::behind(sample),
        }
    }

    /// How many cells of its own run were consumed.
    #[inline(always)]
    pub fn own(&self) -> u32
        ensures { result ≡ self.now.own.at }
    {
        self.own.at()
    }

    /// How many cells of the incoming run were consumed.
    #[inline(always)]
    pub fn incoming(&self) -> u32
        ensures { result ≡ self.now.incoming.at }
    {
        self.incoming.at()
    }

    /// How many cells of the sample were consumed.
    #[inline(always)]
    pub fn sample(&self) -> u32
        ensures { result ≡ self.now.sample.at }
    {
        self.sample.at()
    }

    /// Whether each source cell was consumed.
    #[inline(always)]
    pub fn is_done(&self, aim: &Aim) -> bool
        ensures { IsTrue result ↔ IsUsedUp aim.now self.now }
    {
        self.own.at() >= aim.own.len()
            && self.incoming.at() >= aim.incoming.len()
            && self.sample.at() >= aim.sample.len()
    }

    /// Takes steps of the merge until so many are taken or no source cell is left. What is under way stays under way, in
    /// whatever quotas it is called and also after a refusal, which leaves the cursors before the step that failed.
    /// Each source cell costs one step and at most two ticks: one to read it, none where the feed is one cell, and one
    /// to push what it emits.
    ///
    /// It is refused where the device failed, where the cell that a feed reads next is bad, and as overfull where the
    /// run fills its slot and a step would emit another cell.
    #[inline(always)]
    pub fn advance<W: CellSink, L: Ledger>(
        &mut self,
        work: &mut W,
        aim: &Aim,
        quota: u32,
        steps: &mut Steps<L>,
    ) -> Result<Progress, StepFault>
        requires { IsReady (W.CellSource.state work.old).held aim.now self.old }
        ensures kept { W.CellSource.kept work.new ≡ W.CellSource.kept work.old }
        ensures advances { AdvanceLeaves W.CellSource work.old work.new aim.now
            self.old self.new steps.old steps.new quota result }
    {
        // every object has at most 23 levels, and its shadows stand in slot 0 or 1 and fit it
        work.known();
        let _ = work.shadow_len(aim.level);
        self.run(work, aim, quota, steps)
    }

    /// Gives the next cell of the run that the merge makes, or none where each source cell was consumed. Nothing is pushed:
    /// the level and the slot of the aim are not looked at. Source cells that emit nothing are consumed on the way.
    ///
    /// It is refused where the device failed and where the cell that a feed reads next is bad. A refused call consumes
    /// at most source cells that emit nothing, so the same cells are ahead, and it may be called again.
    pub fn pull<W: CellSource, L: Ledger>(
        &mut self,
        work: &mut W,
        aim: &Aim,
        steps: &mut Steps<L>,
    ) -> Result<Option<Cell>, ReadFault>
        requires { HasHeads (W.state work.old).held aim.now self.old }
        ensures kept { W.kept work.new ≡ W.kept work.old }
        ensures pulls { PullLeaves W.CellSource work.old work.new aim.now
            self.old self.new steps.old steps.new result }
    {
        // every object has at most 23 levels
        work.known();
        self.draw(work, aim, steps)
    }

    /// What the rules ask for by the heads that are held.
    #[inline(always)]
    fn choice(&self, aim: &Aim) -> Option<Choice>
        requires small { 8 * self.now.sample.at < 2 ^ 32 }
        ensures choice { as_action self.now result ≡ next_action aim.now self.now }
        ensures suits { ChoiceSuits self.now result }
    {
        let link = 8 * self.sample.at();
        first_rule(aim, link, &self.own, &self.incoming, &self.sample)
    }

    /// The head of this reader, to consume it.
    #[inline(always)]
    fn head_mut(&mut self, reader: Reader) -> &mut Head
        ensures value { result.now ≡ head_of self.old reader }
        ensures* writes_back { sem 𝓛 (LendsHead self.entry reader result) }
    {
        match reader {
            Reader::Own => &mut self.own,
            Reader::Incoming => &mut self.incoming,
            Reader::Sample => &mut self.sample,
        }
    }

    /// Reads the heads that are not held, and chooses what the rules ask for by the three; none where no source cell is left.
    #[inline(always)]
    fn next<W: CellSource, L: Ledger>(
        &mut self,
        work: &mut W,
        aim: &Aim,
        ends: Ends,
        steps: &mut Steps<L>,
    ) -> Result<Option<Choice>, ReadFault>
        requires ends { ends ≡ ends_of aim.now }
        requires heads { HasHeads (W.state work.old).held aim.now self.old }
        requires levels { (W.state work.old).held.fixed.levels ≤ 23 }
        ensures kept { W.kept work.new ≡ W.kept work.old }
        ensures next { NextLeaves W.CellSource work.old work.new aim.now
            self.old self.new steps.old steps.new result }
    {
        self.own
            .fetch(Reader::Own, &aim.own, ends.own, work, steps)?;
        self.incoming.fetch(Reader::Incoming, &aim.incoming, ends.incoming, work, steps)?;
        self.sample
            .fetch(Reader::Sample, &aim.sample, ends.sample, work, steps)?;
        Ok(self.choice(aim))
    }

    /// Takes the step that was chosen: emits its cell, if there is one, and consumes its head.
    #[inline(always)]
    fn step<W: CellSink, L: Ledger>(
        &mut self,
        work: &mut W,
        aim: &Aim,
        choice: &Choice,
        steps: &mut Steps<L>,
    ) -> Result<(), PushFault>
        requires ready { IsReady (W.CellSource.state work.old).held aim.now self.old }
        requires fetched { AreFetched aim.now self.old }
        requires asked { as_action self.old (Some choice.now) ≡ next_action aim.now self.old }
        requires suits { ChoiceSuits self.old (Some choice.now) }
        requires levels { (W.CellSource.state work.old).held.fixed.levels ≤ 23 }
        requires slot_in { ((W.CellSource.state work.old).held.shadows aim.now.level).slot < 2 }
        ensures kept { W.CellSource.kept work.new ≡ W.CellSource.kept work.old }
        ensures stepped { StepLeaves W.CellSource work.old work.new aim.now
            self.old self.new steps.old steps.new result }
    {
        let head = self.head_mut(choice.head);
        emit(work, aim.level, aim.slot, head, choice.pass, steps)?;
        head.pass();
        Ok(())
    }

    /// Takes one step, if a source cell is left: false where none is.
    #[inline(always)]
    fn take<W: CellSink, L: Ledger>(
        &mut self,
        work: &mut W,
        aim: &Aim,
        ends: Ends,
        steps: &mut Steps<L>,
    ) -> Result<bool, StepFault>
        requires ends { ends ≡ ends_of aim.now }
        requires ready { IsReady (W.CellSource.state work.old).held aim.now self.old }
        requires levels { (W.CellSource.state work.old).held.fixed.levels ≤ 23 }
        requires slot_in { ((W.CellSource.state work.old).held.shadows aim.now.level).slot < 2 }
        ensures kept { W.CellSource.kept work.new ≡ W.CellSource.kept work.old }
        ensures taken { TakeLeaves W.CellSource work.old work.new aim.now
            self.old self.new steps.old steps.new result }
    {
        let Some(choice) = self.next(work, aim, ends, steps)? else {
            return Ok(false);
        };
        self.step(work, aim, &choice, steps)?;
        Ok(true)
    }

    /// Takes steps until so many are taken or no source cell is left: as many as the object takes over its own bytes, and
    /// between these single ones, which read and write blocks. An object that took none three times is not asked again,
    /// since most that have no bytes at hand never do.
    fn run<W: CellSink, L: Ledger>(
        &mut self,
        work: &mut W,
        aim: &Aim,
        quota: u32,
        steps: &mut Steps<L>,
    ) -> Result<Progress, StepFault>
        requires ready { IsReady (W.CellSource.state work.old).held aim.now self.old }
        requires levels { (W.CellSource.state work.old).held.fixed.levels ≤ 23 }
        requires slot_in { ((W.CellSource.state work.old).held.shadows aim.now.level).slot < 2 }
        ensures kept { W.CellSource.kept work.new ≡ W.CellSource.kept work.old }
        ensures ran { RunLeaves W.CellSource work.old work.new aim.now
            self.old self.new steps.old steps.new quota result }
    {
        if self.is_done(aim) {
            return Ok(Progress::Done);
        }
        let ends = aim.ends();
        let mut left = quota;
        let mut misses: u32 = 0;
        while left > 0 {
            let taken = self.weave(work, aim, left, misses < 3, steps);
            misses = misses_after(misses, taken);
            let rest = left - taken;
            if rest == 0 {
                return Ok(self.progress(aim));
            }
            if self.is_done(aim) {
                return Ok(Progress::Done);
            }
            if !self.take(work, aim, ends, steps)? {
                return Ok(Progress::Done);
            }
            left = rest - 1;
        }
        Ok(self.progress(aim))
    }

    /// Whether source cells are left.
    #[inline(always)]
    fn progress(&self, aim: &Aim) -> Progress
        ensures more { result ≡ Progress.More → IsUsedUp aim.now self.now → ⊥ }
        ensures done { result ≡ Progress.Done → IsUsedUp aim.now self.now }
    {
        if self.is_done(aim) {
            Progress::Done
        } else {
            Progress::More
        }
    }

    /// Consumes source cells until one is given or none is left.
    fn draw<W: CellSource, L: Ledger>(
        &mut self,
        work: &mut W,
        aim: &Aim,
        steps: &mut Steps<L>,
    ) -> Result<Option<Cell>, ReadFault>
        requires heads { HasHeads (W.state work.old).held aim.now self.old }
        requires levels { (W.state work.old).held.fixed.levels ≤ 23 }
        ensures kept { W.kept work.new ≡ W.kept work.old }
        ensures drawn { DrawLeaves W.CellSource work.old work.new aim.now
            self.old self.new steps.old steps.new result }
    {
        let ends = aim.ends();
        while let Some(next) = self.next(work, aim, ends, steps)? {
            let head = self.head_mut(next.head);
            let cell = given(head, next.pass);
            head.pass();
            if cell.is_some() {
                return Ok(cell);
            }
        }
        Ok(None)
    }
}
