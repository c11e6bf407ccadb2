//! The weave and the sample of plain runs, by setting cell after cell in its place.

ghost use Rattle.std.specs.Prelude.{◌≡◌, ℕ, ◌+◌, ◌*◌, ◌<◌, ◌≤◌, ◌^◌, ◌≢◌, ◌++◌, true, cond, [], ◌∷◌, map, length, drop, take, slice_get, Some, IfOk, OnOk};
ghost use Rattle.std.specs.List.{filter};
ghost use Rattle.std.specs.Option.{option_map, option_to_list};
ghost use Rattle.std.specs.declared.cmp.Ordering.TheVariants.{Greater};
ghost use Rattle.cola_runs.specs.Cells.{place_cmp, count_looks, sample};
ghost use Rattle.cola_runs.specs.Weave.{taken, stays, look_at, relinked, set_cell, set_cells, weave};
ghost use Rattle.cola_plain_runs.specs.Runs.{as_cell, as_run, as_part, linked_to};
ghost use Rattle.cola_plain_runs.specs.declared.cells.PlainCell.{PlainCell};

use crate::cells::{PlainCell, PlainItem, PlainPart, compare, emit_cell, key, looks_ahead};
use std::alloc::{AllocError, Global};

/// How many cells, from the first on, stand before this one.
fn seat<K: Ord + Copy, V>(cells: &[PlainCell<K, V>], cell: &PlainCell<K, V>) -> usize
    ensures within { result ≤ length cells.now }
    ensures rest { set_cell K.cmp (as_cell cell.now) (as_run cells.now) ≡ take result (as_run cells.now) ++ set_cell K.cmp (as_cell cell.now) (drop result (as_run cells.now)) }
    ensures stops { (d : PlainCell K V) → slice_get cells.now result ≡ Some d → place_cmp K.cmp (as_cell cell.now) (as_cell d) ≢ Greater }
{
    for (i, other) in cells.iter().enumerate() {
        if !compare(cell, other).is_gt() {
            return i;
        }
    }
    cells.len()
}

/// Sets the cell in its place, and in place of the cell that stood there.
fn set<K: Ord + Copy, V: Copy>(
    cells: &mut Vec<PlainCell<K, V>>,
    cell: &PlainCell<K, V>,
) -> Result<(), AllocError>
    ensures { OnOk result (as_run cells.new.items ≡ set_cell K.cmp (as_cell cell.now) (as_run cells.old.items)) }
{
    let at = seat(cells.as_slice(), cell);
    if at < cells.len() && compare(cell, &cells[at]).is_eq() {
        cells[at] = *cell;
    } else {
        cells.insert(at, *cell)?;
    }
    Ok(())
}

/// Sets each cell of a list in its place, from the last on.
fn set_all<K: Ord + Copy, V: Copy>(
    cells: &mut Vec<PlainCell<K, V>>,
    more: &[PlainCell<K, V>],
) -> Result<(), AllocError>
    ensures { OnOk result (as_run cells.new.items ≡ set_cells K.cmp (as_run more.now) (as_run cells.old.items)) }
{
    let mut left = more.len();
    while left > 0 {
        left -= 1;
        set(cells, &more[left])?;
    }
    Ok(())
}

/// The item of a cell with this flag and the link 0, where it is wanted.
fn wanted_item<K: Copy, V: Copy>(
    cell: &PlainCell<K, V>,
    only_young: bool,
    young: bool,
) -> Option<PlainCell<K, V>>
    ensures { option_to_list (option_map as_cell result) ≡ taken (λ y. cond only_young y true) young (as_cell cell.now ∷ []) }
{
    match cell {
        PlainCell::Entry {
            key,
            item,
            young: was,
            ..
        } if !only_young || *was => Some(PlainCell::Entry {
            key: *key,
            item: *item,
            young,
            link: 0,
        }),
        _ => None,
    }
}

/// The items that are wanted, with this flag and the link 0: the young ones alone, or all.
fn take_items<K: Copy, V: Copy>(
    alloc: Global,
    cells: &[PlainCell<K, V>],
    only_young: bool,
    young: bool,
) -> Result<Vec<PlainCell<K, V>>, AllocError>
    ensures { IfOk result (λ v. as_run v.items ≡ taken (λ y. cond only_young y true) young (as_run cells.now)) }
{
    let mut items = Vec::new(alloc);
    for cell in cells {
        emit_cell(&mut items, wanted_item(cell, only_young, young))?;
    }
    Ok(items)
}

/// The cell, where the part keeps it.
fn kept_cell<K: Copy, V: Copy>(cell: &PlainCell<K, V>, part: &PlainPart) -> Option<PlainCell<K, V>>
    ensures { option_to_list (option_map as_cell result) ≡ filter (stays (as_part part.now)) (as_cell cell.now ∷ []) }
{
    match cell {
        PlainCell::Entry {
            item: PlainItem::Tombstone,
            ..
        } if part.drops_tombstones => None,
        _ => Some(*cell),
    }
}

/// The cells that the part keeps.
fn keep_cells<K: Copy, V: Copy>(
    alloc: Global,
    cells: &[PlainCell<K, V>],
    part: &PlainPart,
) -> Result<Vec<PlainCell<K, V>>, AllocError>
    ensures { IfOk result (λ v. as_run v.items ≡ filter (stays (as_part part.now)) (as_run cells.now)) }
{
    let mut kept = Vec::new(alloc);
    for cell in cells {
        emit_cell(&mut kept, kept_cell(cell, part))?;
    }
    Ok(kept)
}

/// A lookahead cell of each key, with the link 0.
fn lookahead_cells<K: Copy, V: Copy>(
    alloc: Global,
    keys: &[K],
) -> Result<Vec<PlainCell<K, V>>, AllocError>
    ensures { IfOk result (λ v. as_run v.items ≡ map look_at keys.now) }
{
    let mut cells = Vec::new(alloc);
    for key in keys {
        cells.push(PlainCell::Look { key: *key, link: 0 })?;
    }
    Ok(cells)
}

/// The cell with this link.
fn with_link<K: Copy, V: Copy>(cell: &PlainCell<K, V>, link: u64) -> PlainCell<K, V>
    ensures { as_cell result ≡ linked_to link (as_cell cell.now) }
{
    match cell {
        PlainCell::Entry {
            key,
            item,
            young,
            ..
        } => PlainCell::Entry {
            key: *key,
            item: *item,
            young: *young,
            link,
        },
        PlainCell::Look { key, .. } => PlainCell::Look { key: *key, link },
    }
}

/// The cells with the links of a run: 8 times the number of lookahead cells before each. There are fewer than `2 ^ 32` of
/// them.
fn link_cells<K: Copy, V: Copy>(
    alloc: Global,
    cells: &[PlainCell<K, V>],
) -> Result<Vec<PlainCell<K, V>>, AllocError>
    requires { length cells.now < 2 ^ 32 }
    ensures { IfOk result (λ v. as_run v.items ≡ relinked 0 (as_run cells.now)) }
{
    let mut linked = Vec::new(alloc);
    let mut looks: u64 = 0;
    for cell in cells {
        linked.push(with_link(cell, 8 * looks))?;
        if looks_ahead(cell) {
            looks += 1;
        }
    }
    Ok(linked)
}

/// The weave of three sources. Their cells are together fewer than `2 ^ 32`.
pub fn weave<K: Ord + Copy, V: Copy>(
    alloc: Global,
    part: &PlainPart,
    own: &[PlainCell<K, V>],
    incoming: &[PlainCell<K, V>],
    keys: &[K],
) -> Result<Vec<PlainCell<K, V>>, AllocError>
    requires { length own.now + length incoming.now + length keys.now < 2 ^ 32 }
    ensures { IfOk result (λ v. as_run v.items ≡ weave K.cmp (as_part part.now) (as_run own.now) (as_run incoming.now) keys.now) }
{
    let mut items = take_items(alloc, own, part.only_young, false)?;
    let newer = take_items(alloc, incoming, false, part.marks_young)?;
    set_all(&mut items, newer.as_slice())?;
    let mut cells = keep_cells(alloc, items.as_slice(), part)?;
    let looks = lookahead_cells(alloc, keys)?;
    set_all(&mut cells, looks.as_slice())?;
    link_cells(alloc, cells.as_slice())
}

/// The sample of a run: the keys at indices 7, 15, 23 and so on.
pub fn sample<K: Copy, V>(alloc: Global, run: &[PlainCell<K, V>]) -> Result<Vec<K>, AllocError>
    ensures { IfOk result (λ v. v.items ≡ sample (as_run run.now)) }
{
    let mut keys = Vec::new(alloc);
    for (i, cell) in run.iter().enumerate() {
        if i % 8 == 7 {
            keys.push(key(cell))?;
        }
    }
    Ok(keys)
}
