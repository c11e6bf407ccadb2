//! The live pairs of plain runs, by setting item after item in its place, from the last run's last on. For tests.

ghost use Rattle.std.specs.Prelude.{◌≡◌, ◌≢◌, ◌≤◌, ◌++◌, List, [], ◌∷◌, map, length, drop, take, filter, slice_get, Some, IfOk, OnOk};
ghost use Rattle.std.specs.declared.cmp.Ordering.TheVariants.{Greater};
ghost use Rattle.std.specs.FinMap.{put};
ghost use Rattle.cola_runs.specs.Cells.{Item};
ghost use Rattle.cola_plain_runs.specs.Runs.{as_item, as_cell, as_run};
ghost use Rattle.cola_plain_runs.specs.declared.cells.PlainItem.{PlainItem};
ghost use Rattle.cola_pairs.specs.Live.{items, entries, placed, values, live, between};
ghost use Rattle.cola_plain_runs.specs.Pairs.{as_entries};

use crate::cells::{PlainCell, PlainItem};
use std::alloc::{AllocError, Global};

/// Whether a key lies from `low` on and below `high`, where there is one.
fn lies_between<K: Ord>(key: &K, low: &K, high: &Option<K>) -> bool
    ensures { result ≡ between K.cmp low.now high.now key.now }
{
    if !low.cmp(key).is_le() {
        return false;
    }
    match high {
        Some(high) => key.cmp(high).is_lt(),
        None => true,
    }
}

/// How many entries, from the first on, have keys below this one.
fn seat<K: Ord + Copy, V>(entries: &[(K, PlainItem<V>)], key: &K) -> usize
    ensures within { result ≤ length entries.now }
    ensures rest { (i : Item V) → put K.cmp key.now i (as_entries entries.now) ≡ take result (as_entries entries.now) ++ put K.cmp key.now i (drop result (as_entries entries.now)) }
    ensures stops { (e : K × PlainItem V) → slice_get entries.now result ≡ Some e → K.cmp key.now e.0 ≢ Greater }
{
    for (i, entry) in entries.iter().enumerate() {
        if !key.cmp(&entry.0).is_gt() {
            return i;
        }
    }
    entries.len()
}

/// Sets an item in the place of its key, and in place of the one that stood there.
fn set<K: Ord + Copy, V: Copy>(
    entries: &mut Vec<(K, PlainItem<V>)>,
    key: K,
    item: PlainItem<V>,
) -> Result<(), AllocError>
    ensures { OnOk result (as_entries entries.new.items ≡ put K.cmp key (as_item item) (as_entries entries.old.items)) }
{
    let at = seat(entries.as_slice(), &key);
    if at < entries.len() && key.cmp(&entries[at].0).is_eq() {
        let kept = entries[at].0;
        entries[at] = (kept, item);
    } else {
        entries.insert(at, (key, item))?;
    }
    Ok(())
}

/// Sets the item of a cell in its place, where it has one that lies between.
fn set_cell<K: Ord + Copy, V: Copy>(
    entries: &mut Vec<(K, PlainItem<V>)>,
    cell: &PlainCell<K, V>,
    low: &K,
    high: &Option<K>,
) -> Result<(), AllocError>
    ensures { (es : List (K × Item V)) → as_entries entries.old.items ≡ placed K.cmp es →
        OnOk result (as_entries entries.new.items ≡ placed K.cmp (filter (λ e. between K.cmp low.now high.now e.0) (items (as_cell cell.now ∷ [])) ++ es)) }
{
    match cell {
        PlainCell::Entry { key, item, .. } => {
            if lies_between(key, low, high) {
                set(entries, *key, *item)?;
            }
            Ok(())
        }
        PlainCell::Look { .. } => Ok(()),
    }
}

/// Sets the items of a run that lie between in their places, from the last on.
fn set_run<K: Ord + Copy, V: Copy>(
    entries: &mut Vec<(K, PlainItem<V>)>,
    run: &[PlainCell<K, V>],
    low: &K,
    high: &Option<K>,
) -> Result<(), AllocError>
    ensures { (es : List (K × Item V)) → as_entries entries.old.items ≡ placed K.cmp es →
        OnOk result (as_entries entries.new.items ≡ placed K.cmp (filter (λ e. between K.cmp low.now high.now e.0) (items (as_run run.now)) ++ es)) }
{
    let mut left = run.len();
    while left > 0 {
        left -= 1;
        set_cell(entries, &run[left], low, high)?;
    }
    Ok(())
}

/// The pairs of the entries that are values.
fn pairs_of<K: Copy, V: Copy>(
    alloc: Global,
    entries: &[(K, PlainItem<V>)],
) -> Result<Vec<(K, V)>, AllocError>
    ensures { IfOk result (λ pairs. pairs.items ≡ values (as_entries entries.now)) }
{
    let mut pairs = Vec::new(alloc);
    for entry in entries {
        match &entry.1 {
            PlainItem::Value(value) => pairs.push((entry.0, *value))?,
            PlainItem::Tombstone => {}
        }
    }
    Ok(pairs)
}

/// The live pairs of runs, of which the first is the newest, from `low` on and below `high`, where there is one.
pub fn live_pairs<K: Ord + Copy, V: Copy>(
    alloc: Global,
    runs: &[Vec<PlainCell<K, V>>],
    low: &K,
    high: &Option<K>,
) -> Result<Vec<(K, V)>, AllocError>
    ensures { IfOk result (λ pairs. pairs.items ≡ live K.cmp (between K.cmp low.now high.now) (map (λ run. as_run run.items) runs.now)) }
{
    let mut entries: Vec<(K, PlainItem<V>)> = Vec::new(alloc);
    let mut left = runs.len();
    while left > 0 {
        left -= 1;
        set_run(&mut entries, runs[left].as_slice(), low, high)?;
    }
    pairs_of(alloc, entries.as_slice())
}
