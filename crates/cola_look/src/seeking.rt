//! The search of one run.
ghost use Rattle.std.specs.Prelude.{◌≡◌, ℕ, ◌-◌, ◌≤◌, ◌<◌, None};
ghost use Rattle.cola_cell.specs.Held.{HasPlace};
ghost use Rattle.cola_cell.specs.Looks.{OnlyLooks};
ghost use Rattle.cola_look.specs.Runs.{HasRun};
ghost use Rattle.cola_look.specs.Scanning.{LooksOn, sight_in};
ghost use Rattle.cola_look.specs.Seek.{seat_in};
ghost use Rattle.cola_look.specs.Seeks.{Seeks};

use crate::scanning::Sight;
use crate::windowing::window;
use cola_cell::{CellSource, Item, Key, Packed, Reach, ReadFault, Run};
use cola_outside::Steps;
use std::sync::ledger::Ledger;

/// Where the search of a run stopped: an index of the run, or its length; the item of the key there, if the
/// cell is one; and the link, the index in the next run from which its search begins. All in cells.
#[derive(Clone, Copy, Debug, PartialEq, Eq, Drop)]
pub struct Seat {
    pub pos: u32,
    pub hit: Option<Item>,
    pub link: u32,
}

/// Looks at the cell at an index of a run, which it reads. It is a call of its own, since an object has the bytes of most cells at
/// hand.
#[inline(never)]
fn read_alone<W: CellSource, L: Ledger>(
    work: &mut W,
    run: &Run,
    index: u32,
    key: &Key,
    sight: &mut Sight,
    steps: &mut Steps<L>,
) -> Result<(), ReadFault>
    requires place { HasPlace (W.state work.old).held run.now.level run.now.slot index }
    requires none { sight.old.hit ≡ None }
    ensures kept { W.kept work.new ≡ W.kept work.old }
    ensures looks { (most : ℕ) → LooksOn (W.state work.old) (W.state work.new) run.now index most key.now steps.old steps.new
        (sight_in sight.new result) }
{
    let mut cell = Packed::blank();
    work.read_packed(None, run.level, run.slot, index, &mut cell, steps)?;
    let order = cell.key_cmp(key);
    if order.is_lt() {
        sight.passed = 1;
        sight.stops = false;
        return Ok(());
    }
    sight.link = cell.link();
    sight.passed = 0;
    sight.stops = true;
    if order.is_eq() {
        sight.hit = cell.item();
    }
    Ok(())
}

/// Looks at the cells of a run from an index on, before `last`: at as many as lie one behind the other where the object has their
/// bytes at hand, and else at the first.
#[inline(always)]
fn look<W: CellSource, L: Ledger>(
    work: &mut W,
    run: &Run,
    index: u32,
    last: u32,
    key: &Key,
    sight: &mut Sight,
    steps: &mut Steps<L>,
) -> Result<(), ReadFault>
    requires run { HasRun (W.state work.old).held run.now }
    requires index { index < last }
    requires last { last ≤ run.now.len }
    requires none { sight.old.hit ≡ None }
    ensures kept { W.kept work.new ≡ W.kept work.old }
    ensures looks { LooksOn (W.state work.old) (W.state work.new) run.now index (last - index) key.now steps.old steps.new
        (sight_in sight.new result) }
{
    sight.most = last - index;
    let reach = Reach {
        run: *run,
        from: index,
    };
    let accessed = work.scan(reach, sight, key, steps)?;
    if accessed == 0 {
        return read_alone(work, run, index, key, sight, steps);
    }
    Ok(())
}

/// Searches a run as `seek` does, and leaves the item and the link in a room in which no search has found an item yet, so that no
/// item is copied where none is found. Answers the index at which it stopped. What the room has after a refusal is not said.
#[inline(always)]
pub fn seek_into<W: CellSource, L: Ledger>(
    work: &mut W,
    run: &Run,
    next_len: u32,
    start: u32,
    key: &Key,
    sight: &mut Sight,
    steps: &mut Steps<L>,
) -> Result<u32, ReadFault>
    requires run { HasRun (W.state work.old).held run.now }
    requires none { sight.old.hit ≡ None }
    ensures looks { OnlyLooks W.CellSource work.old work.new result }
    ensures seeks { Seeks run.now next_len start key.now (W.state work.old) (W.state work.new)
        steps.old steps.new (seat_in sight.new result) }
{
    let (first, last) = window(start, run.len);
    let mut index = first;
    while index < last {
        look(work, run, index, last, key, sight, steps)?;
        index += sight.passed;
        if sight.stops {
            return Ok(index);
        }
    }
    sight.link = 8 * (next_len / 8);
    Ok(run.len)
}

/// Searches a run for a key, from index `start` on, which is the link of the run above: it reads at most
/// eight cells in rising order and stops at the first whose key is at least `key`. Where none of them is, it
/// is at the run's end, and the link is the last whole eight of the next run, of `next_len` cells. Cells whose bytes the
/// object has at hand it looks at where they lie, a block of them at a time.
#[inline(always)]
pub fn seek<W: CellSource, L: Ledger>(
    work: &mut W,
    run: &Run,
    next_len: u32,
    start: u32,
    key: &Key,
    steps: &mut Steps<L>,
) -> Result<Seat, ReadFault>
    requires { HasRun (W.state work.old).held run.now }
    ensures looks { OnlyLooks W.CellSource work.old work.new result }
    ensures seeks { Seeks run.now next_len start key.now (W.state work.old) (W.state work.new)
        steps.old steps.new result }
{
    let mut sight = Sight::blank();
    let pos = seek_into(work, run, next_len, start, key, &mut sight, steps)?;
    Ok(Seat {
        pos,
        hit: sight.hit,
        link: sight.link,
    })
}
