//! A merge over windows.
ghost use Rattle.std.specs.Prelude.{◌≡◌, ◌+◌, ◌*◌, ◌^◌, ◌≤◌, ◌<◌, IfSome, is_some, true, false, length};
ghost use Rattle.cola_merge.specs.Feeds.{IsFeed, IsApart, feed_len};
ghost use Rattle.cola_merge.specs.Heads.{IsReady};
ghost use Rattle.cola_merge.specs.States.{Took, state};
ghost use Rattle.cola_cell.specs.Format.{width};
ghost use Rattle.cola_cell.specs.Windows.{AreSpelled, views_of};
ghost use Rattle.cola_merge.specs.Weaving.{CanPass, Passes, PassesOver, rules_of, one_at, IsReachOf, IsIncomingReachOf, IsSampleReachOf};

use crate::aims::{Aim, Feed};
use crate::heads::Head;
use crate::merging::Merger;
use cola_cell::{CellSink, Format, Passed, Reach, Run, Window, WindowMerge};
use cola_clock::Part;
use cola_outside::Steps;
use cola_window::{Rules, merge_windows};
use std::sync::ledger::Ledger;

/// What a pass of a merge is told: its rules, how many steps it takes at most, and whether the feed that comes in is the one
/// cell that its head holds.
#[derive(Clone, Copy, Debug)]
pub struct Share {
    pub(crate) rules: Rules,
    pub(crate) quota: u32,
    pub(crate) has_one: bool,
}

impl WindowMerge for Merger {
    type Job = Share;

    ghost can = { CanPass };

    ghost wove = { Passes };

    fn pass(
        &mut self,
        job: &Share,
        format: Format,
        own: Window,
        incoming: Window,
        sample: Window,
        room: &mut [u8],
    ) -> Passed {
        match self.incoming.cell_if(job.has_one) {
            Some(cell) => {
                let mut room_of_one = [0u8; 128];
                let bytes = &mut room_of_one[..format.width()];
                cell.write(format, bytes);
                let is_last = true;
                let one = Window { bytes, is_last };
                self.pass_over(job, format, own, one, sample, room)
            }
            None => self.pass_over(job, format, own, incoming, sample, room),
        }
    }
}

/// Where the next cell of a feed stands, if the object has it.
#[inline]
fn reach_of(feed: &Feed, at: u32) -> Option<Reach>
    requires within { at ≤ feed_len feed.now }
    requires few { feed_len feed.now ≤ 2 ^ 25 }
    ensures { IfSome result (IsReachOf feed.now at) }
{
    match feed {
        Feed::Run(run) => Some(Reach {
            run: *run,
            from: at,
        }),
        Feed::Nothing => Some(Reach {
            run: Run::default(),
            from: 0,
        }),
        _ => None,
    }
}

/// The same of the feed that comes in, of which one cell is a run of none.
#[inline]
fn incoming_reach_of(feed: &Feed, at: u32) -> Option<Reach>
    requires within { at ≤ feed_len feed.now }
    requires few { feed_len feed.now ≤ 2 ^ 25 }
    ensures { IfSome result (IsIncomingReachOf feed.now at) }
{
    match feed {
        Feed::One(_) => Some(Reach {
            run: Run::default(),
            from: 0,
        }),
        _ => reach_of(feed, at),
    }
}

/// Whether a feed is one cell, which was not consumed.
#[inline(always)]
fn is_one(feed: &Feed, at: u32) -> bool
    ensures { result ≡ is_some (one_at feed.now at) }
{
    match feed {
        Feed::One(_) => at == 0,
        _ => false,
    }
}

/// Whether one cell comes in that the head does not hold yet.
#[inline(always)]
fn waits(has_one: bool, head: &Head) -> bool
    ensures { result ≡ false → has_one ≡ true → is_some head.now.cell ≡ true }
{
    has_one && !head.has_cell()
}

/// Where the next cell of a sample stands, if the object has it.
#[inline]
fn sample_reach_of(feed: &Feed, at: u32) -> Option<Reach>
    requires within { at ≤ feed_len feed.now }
    requires few { feed_len feed.now ≤ 2 ^ 25 }
    ensures { IfSome result (IsSampleReachOf feed.now at) }
{
    match feed {
        Feed::Sampled(run) => Some(Reach {
            run: *run,
            from: 8 * at + 7,
        }),
        Feed::Nothing => Some(Reach {
            run: Run::default(),
            from: 0,
        }),
        _ => None,
    }
}

/// The rules of an aim.
#[inline]
fn rules(aim: &Aim) -> Rules
    ensures { result ≡ rules_of aim.now }
{
    Rules {
        only_young: aim.part == Part::Young,
        marks_young: aim.young,
        drops_tombstones: aim.bottom,
    }
}

impl Merger {
    /// A pass over the windows of its sources.
    #[inline(always)]
    fn pass_over(
        &mut self,
        job: &Share,
        format: Format,
        own: Window,
        incoming: Window,
        sample: Window,
        room: &mut [u8],
    ) -> Passed
        requires can { CanPass self.old job.now format }
        ensures size { length room.new ≡ length room.old }
        ensures fits { result.cells * width format ≤ length room.old }
        ensures spelled { AreSpelled format result.cells room.new }
        ensures passes { PassesOver self.old self.new job.now format (views_of own.entry incoming.entry sample.entry)
            room.new result }
    {
        let base = 8 * self.sample.at();
        let taken = merge_windows(
            format, job.rules, base, own, incoming, sample, room, job.quota,
        );
        let width = format.width();
        let owns = self.own.go(format, own.bytes, taken.own, width);
        let incomings = self
            .incoming
            .go(format, incoming.bytes, taken.incoming, width);
        let samples = self
            .sample
            .go(format, sample.bytes, taken.sample, 8 * width);
        Passed {
            steps: taken.own + taken.incoming + taken.sample,
            cells: taken.pushed,
            ticks: owns + incomings + samples + taken.pushed,
        }
    }

    /// Takes as many steps as the object lets it take over the bytes of its sources, at most so many; none where it is
    /// not to be asked, and none where one cell comes in that no head holds yet.
    #[inline]
    pub(crate) fn weave<W: CellSink, L: Ledger>(
        &mut self,
        work: &mut W,
        aim: &Aim,
        quota: u32,
        is_asked: bool,
        steps: &mut Steps<L>,
    ) -> u32
        requires ready { IsReady (W.CellSource.state work.old).held aim.now self.old }
        requires levels { (W.CellSource.state work.old).held.fixed.levels ≤ 23 }
        requires slot_in { ((W.CellSource.state work.old).held.shadows aim.now.level).slot < 2 }
        ensures kept { W.CellSource.kept work.new ≡ W.CellSource.kept work.old }
        ensures few { result ≤ quota }
        ensures took { Took aim.now (state (W.CellSource.state work.old) self.old steps.old)
            (state (W.CellSource.state work.new) self.new steps.new) result }
    {
        let has_one = is_one(&aim.incoming, self.incoming.at());
        if !is_asked || waits(has_one, &self.incoming) {
            return 0;
        }
        let Some(own) = reach_of(&aim.own, self.own.at()) else {
            return 0;
        };
        let Some(incoming) = incoming_reach_of(&aim.incoming, self.incoming.at()) else {
            return 0;
        };
        let Some(sample) = sample_reach_of(&aim.sample, self.sample.at()) else {
            return 0;
        };
        let share = Share {
            rules: rules(aim),
            quota: quota.min(65536),
            has_one,
        };
        work.weave(aim.level, own, incoming, sample, self, &share, steps)
    }
}
