//! The work of a level: a run that two mutations build.
ghost use Rattle.std.specs.Prelude.{◌≡◌, ◌+◌, ◌<◌, ◌≤◌};
ghost use Rattle.cola_cell.specs.declared.format.Format.TheVariants.{One};
ghost use Rattle.cola_merge.specs.Heads.{IsReady};

use crate::merges::at_bottom;
use crate::rows::{Row, What, rows_of};
use cola_cell::{CellSink, FlatCells};
use cola_level::Level;
use cola_merge::{Aim, Merger};
use cola_outside::Steps;
use std::alloc::{AllocError, Global};
use std::marker::Brand;
use std::process::Abort;
use std::sync::ledger::{Blank, Ledger};

/// How a level stands: the length of its shadow, and how much of its own run and of the other one it consumed.
type Stand = (u32, u32, u32);

/// Works once. Answers whether it was refused, whether the level's length is its shadow's, and how the level stands.
fn work_once<W: CellSink, L: Ledger>(
    work: &mut W,
    level: &mut Level,
    aim: &Aim,
    steps: &mut Steps<L>,
) -> (bool, bool, Stand)
    requires { IsReady (W.CellSource.state work.old).held aim.now level.old.merger }
    ensures { IsReady (W.CellSource.state work.new).held aim.now level.new.merger }
{
    let refused = level.work(work, aim, steps).is_err();
    let stand = (level.shadow, level.merger.own(), level.merger.incoming());
    (refused, level.shadow == work.shadow_len(aim.level), stand)
}

/// Three mutations at the bottom build thirty-two cells: 28 steps each, or all that are left. Where an access fails one is
/// refused in mid-stream, and the next ones go on from there. The length is the shadow's in each case.
fn goes_as_said<W: CellSink, L: Ledger>(
    work: &mut W,
    own: &[Row],
    incoming: &[Row],
    failing: u64,
    steps: &mut Steps<L>,
) -> bool
    requires levels { 3 < (W.CellSource.state work.old).held.fixed.levels }
    requires format { (W.CellSource.state work.old).held.fixed.format ≡ One }
{
    let Ok(aim) = at_bottom(work, own, incoming, steps) else {
        return false;
    };
    let mut level = Level {
        visible: 26,
        shadow: 0,
        merger: Merger::begin(),
    };
    let first = work_once(work, &mut level, &aim, steps);
    let second = work_once(work, &mut level, &aim, steps);
    let third = work_once(work, &mut level, &aim, steps);
    let refused = first.0 as u8 + second.0 as u8 + third.0 as u8;
    let whole = first.1 && second.1 && third.1 && third.2 == (32, 26, 6);
    let stands = failing != 0 || first.2 == (28, 24, 4) && second.2 == (32, 26, 6);
    whole && stands && refused == if failing == 0 { 0 } else { 1 }
}

fn work_thrice<L: Ledger>(
    alloc: Global,
    failing: u64,
    steps: &mut Steps<L>,
) -> Result<bool, AllocError> {
    let own = rows_of(
        alloc,
        &[(1, 24, What::Old(1), 0), (29, 2, What::Old(29), 0)],
    )?;
    let incoming = rows_of(
        alloc,
        &[(25, 4, What::Old(25), 0), (31, 2, What::Old(31), 0)],
    )?;
    let mut cells = FlatCells::new(alloc, 4, vec![in alloc; failing]?)?;
    Ok(goes_as_said(&mut cells, &own, &incoming, failing, steps))
}

/// The accesses that fail, each in a build of its own. The first thirty-two put the runs into their slots.
const FAILING: [u64; 5] = [0, 33, 34, 47, 80];

fn works<L: Ledger>(rt: &impl Abort, alloc: Global, blank: Blank)
    requires name { blank.name ≡ L.name }
    requires parts { blank.parts ≡ L.parts }
    requires some { 0 < L.parts }
{
    let mut steps = Steps::<L>::begin(blank);
    for failing in &FAILING {
        assert!(rt; work_thrice(alloc, *failing, &mut steps) == Ok(true));
    }
}

#[test]
fn two_mutations_build_a_run(rt: HostRuntime) {
    works::<Brand>(&rt, rt.alloc(), Blank::new(1));
}
