//! The lines of a cursor: their next cells, the least key among those, and a step over it.
ghost use Rattle.std.specs.Prelude.{◌≡◌, ◌+◌, ◌≤◌, cond, length, take, None, IfOk, IfSome, OnOk, option_map};
ghost use Rattle.std.specs.List.{AllByRecursion};
ghost use Rattle.std.specs.Ordering.{is_lt};
ghost use Rattle.cola_cell.specs.Cell.{key_of};
ghost use Rattle.cola_cell.specs.Looks.{OnlyLooks};
ghost use Rattle.cola_cursor.specs.Way.{way_cmp, within_end};
ghost use Rattle.cola_cursor.specs.Causes.{HasLinesCause};
ghost use Rattle.cola_cursor.specs.Lines.{LineFits, IsReady, all_left, Reading};
ghost use Rattle.cola_cursor.specs.Passing.{PassAll, NoneHas};
ghost use Rattle.cola_cursor.specs.Saving.{SavedOnce, Saves};
ghost use Rattle.cola_cursor.specs.Results.{FetchAll, left_then, is_lower, least_from, key_in};

use crate::line::Line;
use crate::saved::{Saved, save};
use arrayvec::ArrayVec;
use cola_cell::{CellRoom, CellSource, Item, Key, MOST_LEVELS, Packed, ReadFault};
use cola_outside::Steps;
use std::sync::ledger::Ledger;

/// Reads the next cells of the lines, of those that are not read yet.
pub(crate) fn read_heads<W: CellSource, L: Ledger>(
    work: &mut W,
    lines: &mut [Line],
    saved: &mut ArrayVec<Saved, MOST_LEVELS>,
    falls: bool,
    steps: &mut Steps<L>,
) -> Result<(), ReadFault>
    requires fit { AllByRecursion (LineFits falls (W.state work.old).held) lines.old }
    requires few { length lines.old ≤ 23 }
    requires once { SavedOnce (length lines.old) saved.old.items }
    ensures fetches { OnOk result (FetchAll falls (W.state work.old).held lines.old lines.new) }
    ensures saves { Saves lines.old lines.new saved.old.items saved.new.items }
    ensures left { steps.new + left_then result lines.new ≤ steps.old + all_left lines.old }
    ensures reading { Reading (W.state work.old) (W.state work.new) steps.old steps.new }
    ensures cause { HasLinesCause falls W.CellSource work.old work.new lines.old result }
    ensures looks { OnlyLooks W.CellSource work.old work.new result }
{
    for i in 0..lines.len() {
        if lines[i].is_ready() {
            continue;
        }
        save(lines, saved, i);
        lines[i].read_head(work, falls, steps)?;
    }
    Ok(())
}

/// Whether the key of a cell is below the upper end, where there is one.
fn is_within(cell: &Packed, end: &Option<Key>, falls: bool) -> bool
    ensures { result ≡ within_end falls end.now (key_of cell.now) }
{
    match end {
        Some(end) => {
            let order = cell.key_cmp(end);
            if falls { !order.is_lt() } else { order.is_lt() }
        }
        None => true,
    }
}

/// Whether a cell has the lesser key in a direction than another.
#[inline]
fn leads(cell: &Packed, other: &Packed, falls: bool) -> bool
    ensures { result ≡ is_lt (way_cmp falls (key_of cell.now) (key_of other.now)) }
{
    // One call for both directions: which order is asked for is then known outside the loop.
    let order = cell.cmp_keys(other);
    if falls { order.is_gt() } else { order.is_lt() }
}

/// The cell with the lesser key, of one of the first line that has it, where there is one, and the next cell of the line of a
/// number: the first where the keys are equal. With it the number of its line.
#[inline]
fn lesser<'a>(
    least: Option<&'a Packed>,
    first: usize,
    head: &'a CellRoom,
    i: usize,
    falls: bool,
) -> (Option<&'a Packed>, usize)
    ensures key { key_in result.0
        ≡ cond (is_lower falls head.now (key_in least.entry)) (option_map key_of head.now)
        (key_in least.entry) }
    ensures first { result.1 ≡ cond (is_lower falls head.now (key_in least.entry)) i first }
{
    match head.cell() {
        Some(cell) => match least {
            Some(other) => {
                if leads(cell, other, falls) {
                    (Some(cell), i)
                } else {
                    (Some(other), first)
                }
            }
            None => (Some(cell), i),
        },
        None => (least, first),
    }
}

/// The least of the next keys of lines, and the number of the first line that has it.
#[derive(Clone, Copy, Drop)]
pub(crate) struct Least {
    pub key: Key,
    pub first: usize,
}

/// The least of the next keys of the lines, if that is below the upper end.
pub(crate) fn least_key(lines: &[Line], end: &Option<Key>, falls: bool) -> Option<Least>
    ensures key { option_map (λ least. least.key) result ≡ least_from falls end.now None lines.now }
    ensures first { IfSome result (λ least. NoneHas least.key (take least.first lines.now)) }
{
    let mut least: Option<&Packed> = None;
    let mut first = 0;
    for i in 0..lines.len() {
        let next = lesser(least, first, &lines[i].head, i, falls);
        least = next.0;
        first = next.1;
    }
    match least {
        Some(cell) => {
            if is_within(cell, end, falls) {
                Some(Least {
                    key: cell.key(),
                    first,
                })
            } else {
                None
            }
        }
        None => None,
    }
}

/// Passes the cells at the fronts of the lines that have this key, of which none stands before the line of a number, and
/// gives the first item among those.
pub(crate) fn pass_all<W: CellSource, L: Ledger>(
    work: &mut W,
    lines: &mut [Line],
    saved: &mut ArrayVec<Saved, MOST_LEVELS>,
    key: &Key,
    first: usize,
    falls: bool,
    steps: &mut Steps<L>,
) -> Result<Option<Item>, ReadFault>
    requires fit { AllByRecursion (LineFits falls (W.state work.old).held) lines.old }
    requires ready { AllByRecursion IsReady lines.old }
    requires few { length lines.old ≤ 23 }
    requires once { SavedOnce (length lines.old) saved.old.items }
    requires first { NoneHas key.now (take first lines.old) }
    ensures passes { IfOk result (PassAll falls (W.state work.old).held key.now lines.old lines.new) }
    ensures saves { Saves lines.old lines.new saved.old.items saved.new.items }
    ensures left { steps.new + left_then result lines.new ≤ steps.old + all_left lines.old }
    ensures reading { Reading (W.state work.old) (W.state work.new) steps.old steps.new }
    ensures cause { HasLinesCause falls W.CellSource work.old work.new lines.old result }
    ensures looks { OnlyLooks W.CellSource work.old work.new result }
{
    let mut item: Option<Item> = None;
    for i in first..lines.len() {
        if !lines[i].has_key(key) {
            continue;
        }
        save(lines, saved, i);
        let passed = lines[i].pass(work, key, falls, steps)?;
        item = item.or(passed);
    }
    Ok(item)
}
