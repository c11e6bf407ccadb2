//! The tests of one run.

ghost use Rattle.std.specs.Prelude.{◌≡◌, ◌≤◌, ◌<◌, ◌^◌, ◌*◌, ◌↔◌, ℕ, List, cond, length, drop, IsTrue, IfOk};
ghost use Rattle.std.specs.List.{AllByRecursion};
ghost use Rattle.cola_cell.specs.Order.{key_cmp};
ghost use Rattle.cola_laws.specs.Sound.{IsUpperRun, IsBottomRun};
ghost use Rattle.cola_runs.specs.Cells.{look_keys, sample, count_items, count_young, count_looks, IsOldValue};
ghost use Rattle.cola_plain_runs.specs.Runs.{as_cell, as_run};
ghost use Rattle.cola_plain_files.specs.Levels.{is_young};
ghost use Rattle.cola_verdict.specs.Tests.{IsInOrder, EndsOrder, HasFewItems};

use crate::verdict::cells::{FileCell, PlainValue};
use cola_cell::Key;
use cola_plain_runs::cells::{PlainCell, PlainItem, is_well_formed, looks_ahead};
use std::alloc::{AllocError, Global};

/// The elements from an index on.
pub fn rest_of<T>(elements: &[T], from: usize) -> &[T]
    ensures { result.now ≡ drop from elements.now }
{
    &elements[from.min(elements.len())..]
}

/// The keys of the lookahead cells, in order.
pub fn look_keys(alloc: Global, run: &[FileCell]) -> Result<Vec<Key>, AllocError>
    ensures { IfOk result (λ keys. keys.items ≡ look_keys (as_run run.now)) }
{
    let _item: Option<PlainItem<PlainValue>> = None;
    let mut keys = Vec::new(alloc);
    for cell in run {
        match cell {
            PlainCell::Look { key, .. } => keys.push(*key)?,
            PlainCell::Entry { .. } => {}
        }
    }
    Ok(keys)
}

/// Whether two lists of keys are the same.
pub fn is_same_list(keys: &[Key], others: &[Key]) -> bool
    ensures { IsTrue result ↔ keys.now ≡ others.now }
{
    keys == others
}

/// Whether a cell is an old item that is a value.
fn is_old_value(cell: &FileCell) -> bool
    ensures { IsTrue result ↔ IsOldValue (as_cell cell.now) }
{
    matches!(
        cell,
        PlainCell::Entry {
            item: PlainItem::Value(_),
            young: false,
            ..
        }
    )
}

/// Whether each cell is an old item that is a value.
pub fn are_old_values(run: &[FileCell]) -> bool
    ensures { IsTrue result ↔ AllByRecursion IsOldValue (as_run run.now) }
{
    for cell in run {
        if !is_old_value(cell) {
            return false;
        }
    }
    true
}

/// How many cells are lookahead cells.
pub fn count_looks(run: &[FileCell]) -> u64
    ensures value { result ≡ count_looks (as_run run.now) }
    ensures within { result ≤ length run.now }
{
    let mut looks = 0;
    for cell in run {
        if looks_ahead(cell) {
            looks += 1;
        }
    }
    looks
}

/// How many cells are items.
pub fn count_items(run: &[FileCell]) -> u64
    ensures { result ≡ count_items (as_run run.now) }
{
    let mut items = 0;
    for cell in run {
        if !looks_ahead(cell) {
            items += 1;
        }
    }
    items
}

/// Whether a cell is a young item.
fn is_young(cell: &FileCell) -> bool
    ensures { result ≡ is_young (as_cell cell.now) }
{
    matches!(cell, PlainCell::Entry { young: true, .. })
}

/// How many cells are young items.
pub fn count_young(run: &[FileCell]) -> u64
    ensures { result ≡ count_young (as_run run.now) }
{
    let mut young = 0;
    for cell in run {
        if is_young(cell) {
            young += 1;
        }
    }
    young
}

/// Whether a run has no more items, and no more young ones, than it may have at a level.
pub fn has_few_items(odd: bool, level: u8, run: &[FileCell]) -> bool
    requires { level ≤ 22 }
    ensures { IsTrue result ↔ HasFewItems (cond odd 3 2 * 2 ^ level) (2 ^ level) (as_run run.now) }
{
    let young = 1u64 << level;
    let items = if odd { 3 * young } else { 2 * young };
    count_items(run) <= items && count_young(run) <= young
}

/// The index of the last cell of the shortest prefix that is not well formed, of a run that is not.
pub fn first_disorder(run: &[FileCell]) -> usize
    requires { IsInOrder (as_run run.now) → ⊥ }
    ensures { EndsOrder (as_run run.now) result }
{
    let _item: Option<PlainItem<PlainValue>> = None;
    let mut ordered = 0;
    let mut broken = run.len();
    while broken - ordered > 1 {
        let middle = ordered + (broken - ordered) / 2;
        if is_well_formed(&run[..middle]) {
            ordered = middle;
        } else {
            broken = middle;
        }
    }
    ordered
}

/// Whether a run is one that may be visible at a level above the bottom, in a period of this parity, over a run with this sample.
pub fn is_upper_run(
    alloc: Global,
    odd: bool,
    level: u8,
    run: &[FileCell],
    keys: &[Key],
) -> Result<bool, AllocError>
    requires { level ≤ 22 }
    ensures { IfOk result (λ holds. IsTrue holds ↔ IsUpperRun key_cmp odd level (as_run run.now) keys.now) }
{
    let looks = look_keys(alloc, run)?;
    Ok(
        is_well_formed(run)
            && is_same_list(looks.as_slice(), keys)
            && has_few_items(odd, level, run),
    )
}

/// Whether a run is one that may be visible at the bottom of a store for so many keys.
pub fn is_bottom_run(most: u64, run: &[FileCell]) -> bool
    ensures { IsTrue result ↔ IsBottomRun key_cmp most (as_run run.now) }
{
    is_well_formed(run) && are_old_values(run) && run.len() as u64 <= most
}
