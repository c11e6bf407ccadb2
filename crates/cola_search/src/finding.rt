//! The search of a list of runs.
ghost use Rattle.std.specs.Prelude.{◌≡◌, drop, All};
ghost use Rattle.cola_cell.specs.Looks.{OnlyLooks};
ghost use Rattle.cola_look.specs.Runs.{HasRun};
ghost use Rattle.cola_search.specs.Find.{length_of_first};
ghost use Rattle.cola_search.specs.Finds.{FindsOn};

use arrayvec::ArrayVec;
use cola_cell::{CellSource, Item, Key, MOST_LEVELS, ReadFault, Run};
use cola_look::{Sight, seek_into};
use cola_outside::Steps;
use std::sync::ledger::Ledger;

/// Searches the runs for a key, the first run from its first cell on, and each other from the link of the run
/// above it. Answers the item of the first run in which one is found, a tombstone too: the caller decides
/// that a tombstone is absent.
pub fn find<W: CellSource, L: Ledger>(
    work: &mut W,
    runs: &ArrayVec<Run, MOST_LEVELS>,
    key: &Key,
    steps: &mut Steps<L>,
) -> Result<Option<Item>, ReadFault>
    requires { All (HasRun (W.state work.old).held) runs.now.items }
    ensures looks { OnlyLooks W.CellSource work.old work.new result }
    ensures finds { FindsOn W.CellSource work.old work.new
        runs.now key.now steps.old steps.new result }
{
    let runs = runs.as_slice();
    let mut sight = Sight::blank();
    let mut start = 0;
    for (i, run) in runs.iter().enumerate() {
        let next_len = length_at(runs, i + 1);
        seek_into(work, run, next_len, start, key, &mut sight, steps)?;
        if sight.hit.is_some() {
            return Ok(sight.hit);
        }
        start = sight.link;
    }
    Ok(None)
}

/// The length of the run of this number, and 0 where there is none.
fn length_at(runs: &[Run], i: usize) -> u32
    ensures { result ≡ length_of_first (drop i runs.now) }
{
    match runs.get(i) {
        Some(run) => run.len,
        None => 0,
    }
}
