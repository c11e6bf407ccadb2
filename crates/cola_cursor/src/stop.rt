//! Where the search of a run stops: at the first key that is at least a key, or above it.
ghost use Rattle.cola_cell.specs.Looks.{OnlyLooks};
ghost use Rattle.cola_look.specs.Runs.{HasRun};
ghost use Rattle.cola_cursor.specs.Stopping.{Stops};
ghost use Rattle.cola_cursor.specs.Turning.{over_key, sought};

use cola_cell::{CellSource, Key, Packed, ReadFault, Run};
use cola_look::{seek, window};
use cola_outside::Steps;
use std::sync::ledger::Ledger;

/// The place where the search of a run stopped, an index or the run's length; and the link, the index in the next
/// run from which its search begins. All in cells.
#[derive(Clone, Copy, Drop)]
pub(crate) struct Stop {
    pub place: u32,
    pub link: u32,
}

/// The search of a run for the first key that is at least `key`.
#[inline]
fn stop_at<W: CellSource, L: Ledger>(
    work: &mut W,
    run: &Run,
    next_len: u32,
    start: u32,
    key: &Key,
    steps: &mut Steps<L>,
) -> Result<Stop, ReadFault>
    requires { HasRun (W.state work.old).held run.now }
    ensures looks { OnlyLooks W.CellSource work.old work.new result }
    ensures stops { Stops run.now next_len start key.now (W.state work.old) (W.state work.new)
        steps.old steps.new result }
{
    match seek(work, run, next_len, start, key, steps) {
        Ok(seat) => Ok(Stop {
            place: seat.pos,
            link: seat.link,
        }),
        Err(fault) => Err(fault),
    }
}

/// The search of a run for the first key that is above `key`, over the same cells.
fn stop_over<W: CellSource, L: Ledger>(
    work: &mut W,
    run: &Run,
    next_len: u32,
    start: u32,
    key: &Key,
    steps: &mut Steps<L>,
) -> Result<Stop, ReadFault>
    requires { HasRun (W.state work.old).held run.now }
    ensures looks { OnlyLooks W.CellSource work.old work.new result }
    ensures stops { Stops run.now next_len start (over_key key.now) (W.state work.old)
        (W.state work.new) steps.old steps.new result }
{
    let (first, last) = window(start, run.len);
    let mut cell = Packed::blank();
    for index in first..last {
        work.read_packed(None, run.level, run.slot, index, &mut cell, steps)?;
        let order = cell.key_cmp(key);
        if order.is_gt() {
            return Ok(Stop {
                place: index,
                link: cell.link(),
            });
        }
    }
    Ok(Stop {
        place: run.len,
        link: 8 * (next_len / 8),
    })
}

/// The search of a run for the first key that is at least `key`, and with `over` for the first above it.
#[inline]
pub(crate) fn stop_in<W: CellSource, L: Ledger>(
    work: &mut W,
    run: &Run,
    next_len: u32,
    start: u32,
    key: &Key,
    over: bool,
    steps: &mut Steps<L>,
) -> Result<Stop, ReadFault>
    requires { HasRun (W.state work.old).held run.now }
    ensures looks { OnlyLooks W.CellSource work.old work.new result }
    ensures stops { Stops run.now next_len start (sought over key.now) (W.state work.old)
        (W.state work.new) steps.old steps.new result }
{
    if over {
        stop_over(work, run, next_len, start, key, steps)
    } else {
        stop_at(work, run, next_len, start, key, steps)
    }
}
