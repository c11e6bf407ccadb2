//! The tests of the live keys.
ghost use Rattle.std.specs.Prelude.{◌≡◌, ◌≤◌, ◌+◌, ◌↔◌, ◌∷◌, [], length, IfOk, OnOk, IsTrue};
ghost use Rattle.cola_cell.specs.Looks.{OnlyLooks};
ghost use Rattle.cola_clock.specs.Clock.{is_over};
ghost use Rattle.cola_verdict.specs.declared.verdict.Flaw.TheVariants as flaw;
ghost use Rattle.cola_check.specs.Blocks.{TurnsTo, all_blocks};
ghost use Rattle.cola_check.specs.Found.{tested_by};
ghost use Rattle.cola_check.specs.Living.{finished_shadow, counted_level, counted_from, AreFew, FindsCrowded, JudgesWhole, JudgesCounts};
ghost use Rattle.cola_check.specs.Testing.{HasLevels, FindsVerdict, ReadsFile, live_ticks};

use crate::level_walks::LevelRuns;
use crate::live::count_live;
use crate::runs::{broken_at, shadow_run, visible_run};
use crate::tally::{LiveCount, Tally};
use arrayvec::ArrayVec;
use cola_cell::{CellSource, MOST_LEVELS, ReadFault, Run};
use cola_clock::{Phase, phase};
use cola_layout::Header;
use cola_outside::Steps;
use cola_verdict::{Flaw, Verdict};
use std::sync::ledger::Ledger;

/// Whether the window of a level is over, so that its shadow is finished. Level 0 has no window.
fn is_window_over(header: &Header, level: u8) -> bool
    requires { level ≤ header.now.geometry.bottom }
    ensures { result ≡ is_over header.now.clock level }
{
    if level == 0 {
        return false;
    }
    matches!(phase(header.clock, level), Phase::After)
}

/// The shadow of a level, where it is finished.
fn finished_shadow(header: &Header, level: u8) -> Option<Run>
    requires { level ≤ header.now.geometry.bottom }
    ensures { result ≡ finished_shadow header.now level }
{
    if is_window_over(header, level) {
        Some(shadow_run(header, level))
    } else {
        None
    }
}

/// The runs of a level whose live keys are counted.
fn counted_level(header: &Header, level: u8) -> LevelRuns
    requires { level ≤ header.now.geometry.bottom }
    ensures { result ≡ counted_level header.now level }
{
    let visible = visible_run(header, level);
    let odd = visible.slot == 1;
    LevelRuns {
        visible,
        shadow: finished_shadow(header, level),
        odd,
    }
}

/// The runs of all levels whose live keys are counted.
fn counted_levels(header: &Header) -> ArrayVec<LevelRuns, MOST_LEVELS>
    ensures { result.items ≡ counted_from header.now 0 (header.now.geometry.bottom + 1) }
{
    let mut levels = ArrayVec::new();
    for level in 0..header.geometry.levels() {
        levels.push(counted_level(header, level));
    }
    levels
}

/// Whether a level has no more live keys than the store is for, by what was counted of it. Of a shadow that is not finished
/// nothing is asked.
fn are_few(header: &Header, level: u8, count: &LiveCount) -> bool
    requires { level ≤ header.now.geometry.bottom }
    ensures { IsTrue result ↔ AreFew header.now.geometry.keys (is_over header.now.clock level) count.now }
{
    let most = header.geometry.keys;
    count.visible <= most && (!is_window_over(header, level) || count.shadow <= most)
}

/// The first level with more live keys than the store is for.
fn first_crowded(header: &Header, counts: &[LiveCount]) -> Option<u8>
    requires { length counts.now ≡ header.now.geometry.bottom + 1 }
    ensures { FindsCrowded header.now counts.now result }
{
    for level in 0..header.geometry.levels() {
        if !are_few(header, level, &counts[level as usize]) {
            return Some(level);
        }
    }
    None
}

/// The verdict by the count of the header, and by whether the stamps of the live keys were given.
fn judge_whole(header: &Header, live: u64, stamped: bool) -> Verdict
    ensures { JudgesWhole header.now live stamped result }
{
    if header.count != live {
        return Verdict::Broken(Flaw::Count, 0, 0);
    }
    if !stamped {
        return Verdict::Broken(Flaw::Stamp, 0, 0);
    }
    Verdict::Sound(live)
}

/// The verdict by what was counted.
fn judge(header: &Header, tally: &Tally) -> Verdict
    requires { length tally.now.counts.items ≡ header.now.geometry.bottom + 1 }
    ensures { JudgesCounts header.now tally.now.counts.items tally.now.stamped result }
{
    match first_crowded(header, tally.counts.as_slice()) {
        Some(level) => { broken_at(header, Flaw::Live, visible_run(header, level), 0) }
        None => judge_whole(header, tally.counts[0].visible, tally.stamped),
    }
}

/// The verdict on a file that passes the tests of its runs: whether it has as many live keys as it may have and as its header
/// says, and none with a stamp above the last number.
pub(crate) fn test_live<W: CellSource, L: Ledger>(
    work: &mut W,
    header: &Header,
    steps: &mut Steps<L>,
) -> Result<Verdict, ReadFault>
    requires { HasLevels header.now (W.state work.old).held }
    ensures finds { IfOk result (FindsVerdict (tested_by header.now (W.state work.old).held)
        (flaw.Cell ∷ flaw.Order ∷ flaw.Sample ∷ flaw.Length ∷ flaw.Shadow ∷ [])) }
    ensures reads { ReadsFile header.now (W.state work.old) (W.state work.new) steps.old steps.new
        (live_ticks header.now.geometry.bottom) result }
    ensures blocks { OnOk result (TurnsTo (W.state work.old) (W.state work.new)
        (all_blocks header.now (W.state work.old).held)) }
    ensures looks { OnlyLooks W.CellSource work.old work.new result }
{
    let levels = counted_levels(header);
    let tally = count_live(work, levels.as_slice(), header.last, steps)?;
    Ok(judge(header, &tally))
}
