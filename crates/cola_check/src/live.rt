//! The live keys of several levels, counted in one walk over all their runs.
ghost use Rattle.std.specs.Prelude.{◌≡◌, ◌≤◌, ◌↔◌, length, map, IfOk, OnOk, IsTrue};
ghost use Rattle.std.specs.List.{AllByRecursion};
ghost use Rattle.cola_cell.specs.Looks.{OnlyLooks};
ghost use Rattle.cola_verdict.specs.Tests.{live_pairs};
ghost use Rattle.cola_check.specs.Blocks.{TurnsTo};
ghost use Rattle.cola_check.specs.Reading.{ReadsRuns};
ghost use Rattle.cola_check.specs.Chains.{visible_runs, AreLiveCounts, AreStamped};
ghost use Rattle.cola_check.specs.LevelWalks.{HasLevel, runs_of, cells_in, cells_of, AreRunsInOrder, StandFrom, blocks_of};

use crate::leasts::{first_with, least_of, leasts_of, lower_all};
use crate::level_walks::{LevelRuns, begin_all, pass_below};
use crate::tally::Tally;
use cola_cell::{CellSource, ReadFault};
use cola_outside::Steps;
use std::sync::ledger::Ledger;

/// Counts the live keys of each level, level 0 first: from its visible run down, and from its shadow down. And tells whether
/// no key that is live from level 0 down has a stamp above `last`. It goes by key over all the runs at once, and reads each
/// cell at most once, in a tick.
pub(crate) fn count_live<W: CellSource, L: Ledger>(
    work: &mut W,
    levels: &[LevelRuns],
    last: u64,
    steps: &mut Steps<L>,
) -> Result<Tally, ReadFault>
    requires runs { AllByRecursion (HasLevel (W.state work.old).held) levels.now }
    requires few { length levels.now ≤ 23 }
    ensures many { IfOk result (λ tally. length tally.counts.items ≡ length levels.now) }
    ensures counts { IfOk result (λ tally. AreRunsInOrder (W.state work.old).held levels.now →
        AreLiveCounts (map (cells_of (W.state work.old).held) levels.now) tally.counts.items) }
    ensures stamped { IfOk result (λ tally. AreRunsInOrder (W.state work.old).held levels.now →
        IsTrue tally.stamped ↔ AreStamped last (live_pairs (visible_runs (map (cells_of (W.state work.old).held) levels.now)))) }
    ensures blocks { OnOk result (StandFrom 0 levels.now →
        TurnsTo (W.state work.old) (W.state work.new) (blocks_of (W.state work.old).held levels.now)) }
    ensures reads { ReadsRuns (W.state work.old) (W.state work.new) steps.old steps.new
        (runs_of levels.now) (cells_in (runs_of levels.now)) result }
    ensures looks { OnlyLooks W.CellSource work.old work.new result }
{
    // every object has at most 23 levels, so that no count is too large for its type
    work.known();
    let mut walks = begin_all(work, levels, steps)?;
    let mut leasts = leasts_of(walks.as_slice());
    let mut tally = Tally::none(levels.len());
    while let Some(key) = least_of(leasts.as_slice()) {
        let first = first_with(leasts.as_slice(), &key);
        pass_below(work, walks.as_mut_slice(), first, &key, steps)?;
        tally.count(walks.as_slice(), last);
        lower_all(leasts.as_mut_slice(), walks.as_slice(), first, &None);
    }
    Ok(tally)
}
