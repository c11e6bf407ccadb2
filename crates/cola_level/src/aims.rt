//! What the next run of a level is built of.
ghost use Rattle.std.specs.Prelude.{◌≡◌, ◌+◌, ◌-◌, ◌≤◌, ◌<◌, ◌^◌, length, not, List, ◌∷◌};
ghost use Rattle.cola_clock.specs.Clock.{visible_slot};
ghost use Rattle.cola_clock.specs.Marks.{Marks};
ghost use Rattle.cola_merge.specs.Feeds.{takes_young};
ghost use Rattle.cola_level.specs.Marks.{marks_of, all_marks_of};
ghost use Rattle.cola_level.specs.Aims.{sampled_run, aim_with, aim_at, top_at};
ghost use Rattle.cola_level.specs.Calls.{WorkLeaves};
ghost use Rattle.cola_merge.specs.Heads.{IsReady};

use crate::level::Level;
use cola_bottom::bottom_aim;
use cola_cell::{Cell, CellSink, Run, StepFault};
use cola_clock::{Below, Part, next_of, own_part, visible_slot};
use cola_merge::{Aim, Feed};
use cola_outside::Steps;
use std::sync::ledger::Ledger;

/// The run of which level `level` samples every eighth cell: that which will lie below it once it flips.
#[inline(always)]
fn sample_of(clock: u64, level: u8, bottom: u8, next: &Level) -> Run
    requires bottom_in_range { bottom ≤ 22 }
    requires above_bottom { level < bottom }
    requires clock_in_range { clock < 2 ^ 23 }
    ensures { result ≡ sampled_run clock level (marks_of next.now) }
{
    let below = level + 1;
    let visible = visible_slot(clock, below);
    match next_of(clock, level, bottom) {
        Below::Visible => Run {
            level: below,
            slot: visible,
            len: next.visible,
        },
        Below::Shadow => Run {
            level: below,
            slot: 1 - visible,
            len: next.shadow,
        },
        // no level above the bottom
        Below::Nothing => Run::default(),
    }
}

/// Whether incoming items are marked young above the bottom: in even periods, in which all own items are taken.
#[inline(always)]
fn marks_young(part: Part) -> bool
    ensures { result ≡ not (takes_young part) }
{
    match part {
        Part::All => true,
        Part::Young => false,
    }
}

/// The next run of a level above the bottom: own items as the period takes them, and incoming ones marked young in even
/// periods.
#[inline(always)]
fn upper_aim(clock: u64, bottom: u8, own: Run, incoming: Feed, next: &Level) -> Aim
    requires bottom_in_range { bottom ≤ 22 }
    requires above_bottom { own.level < bottom }
    requires clock_in_range { clock < 2 ^ 23 }
    requires slot { own.slot ≡ visible_slot clock own.level }
    ensures { (under : List Marks) → result ≡ aim_with clock own.level own.len incoming (marks_of next.now ∷ under) }
{
    let part = own_part(clock, own.level, bottom);
    Aim {
        level: own.level,
        slot: 1 - own.slot,
        own: Feed::Run(own),
        incoming,
        sample: Feed::Sampled(sample_of(clock, own.level, bottom, next)),
        part,
        young: marks_young(part),
        bottom: false,
    }
}

/// The work of a level of 1 and more in a mutation at `clock` at which it works: as `Level::work`, by what its next run is
/// built of then: its own visible run; the visible run of the level above it in the structure, the one before it in number
/// order, of `above` cells; and the sample of the level behind it, the first of `below`. These are the levels behind it,
/// down to the bottom; where there are none the level is the bottom, which has no sample.
#[inline(always)]
pub fn work_by<W: CellSink, L: Ledger>(
    level: &mut Level,
    work: &mut W,
    clock: u64,
    number: u8,
    above: u32,
    below: &[Level],
    steps: &mut Steps<L>,
) -> Result<(), StepFault>
    requires above_zero { 1 ≤ number }
    requires bottom_in_range { number + length below.now ≤ 22 }
    requires clock_in_range { clock < 2 ^ 23 }
    requires ready { IsReady (W.CellSource.state work.old).held
        (aim_at clock (number - 1) level.old.visible above (all_marks_of below.now)) level.old.merger }
    ensures kept { W.CellSource.kept work.new ≡ W.CellSource.kept work.old }
    ensures works { WorkLeaves W.CellSource work.old work.new
        (aim_at clock (number - 1) level.old.visible above (all_marks_of below.now))
        level.old level.new steps.old steps.new result }
{
    let own = Run {
        level: number,
        slot: visible_slot(clock, number),
        len: level.visible,
    };
    let incoming = Run {
        level: number - 1,
        slot: visible_slot(clock, number - 1),
        len: above,
    };
    // An aim is large: each is made where it is used, and none is copied.
    match below.first() {
        Some(next) => {
            let bottom = number + below.len() as u8;
            let aim = upper_aim(clock, bottom, own, Feed::Run(incoming), next);
            level.work(work, &aim, steps)
        }
        None => {
            let aim = bottom_aim(own, incoming, 1 - own.slot);
            level.work(work, &aim, steps)
        }
    }
}

/// What the next run of level 0 is built of, in a mutation at `clock`, in a store whose lowest level is `bottom`: its own
/// visible run, of `own` cells; one cell, which is the new item; and the sample of level 1, which is `next`.
#[inline(always)]
pub fn top_aim(clock: u64, bottom: u8, own: u32, cell: Cell, next: &Level) -> Aim
    requires below_zero { 1 ≤ bottom }
    requires bottom_in_range { bottom ≤ 22 }
    requires clock_in_range { clock < 2 ^ 23 }
    ensures { (under : List Marks) → result ≡ top_at clock own cell (marks_of next.now ∷ under) }
{
    let own = Run {
        level: 0,
        slot: visible_slot(clock, 0),
        len: own,
    };
    upper_aim(clock, bottom, own, Feed::One(cell), next)
}
