//! What a test of a run asks of one cell.
ghost use Rattle.std.specs.Prelude.{◌≡◌, ◌*◌, ◌≤◌, ◌↔◌, ◌∷◌, [], IsTrue};
ghost use Rattle.cola_cell.specs.Held.{as_cell};
ghost use Rattle.cola_cell.specs.Order.{key_cmp};
ghost use Rattle.cola_runs.specs.Cells.{is_look, key_of, link_of, place_cmp, count_looks, count_young, IsOldValue};
ghost use Rattle.cola_check.specs.Kinds.{StandsBehind};

use cola_cell::{CellRoom, Packed};
use std::cmp::Ordering;

/// Whether a cell is a lookahead cell.
#[inline(always)]
pub(crate) fn is_look(cell: &Packed) -> bool
    ensures { result ≡ is_look (as_cell cell.now) }
{
    cell.is_look()
}

/// Whether two cells have the same key.
#[inline]
pub(crate) fn has_key_of(cell: &Packed, other: &Packed) -> bool
    ensures { IsTrue result ↔ (key_of (as_cell cell.now) ≡ key_of (as_cell other.now)) }
{
    cell.cmp_keys(other).is_eq()
}

/// 1 where a cell is a lookahead cell, else 0.
#[inline(always)]
pub(crate) fn looks_of(cell: &Packed) -> u32
    ensures value { result ≡ count_looks (as_cell cell.now ∷ []) }
    ensures within { result ≤ 1 }
{
    if cell.is_look() { 1 } else { 0 }
}

/// 1 where a cell is a young item, else 0.
#[inline(always)]
pub(crate) fn young_of(cell: &Packed) -> u32
    ensures value { result ≡ count_young (as_cell cell.now ∷ []) }
    ensures within { result ≤ 1 }
{
    if cell.is_young() { 1 } else { 0 }
}

/// Whether a cell is an old item that is a value.
#[inline(always)]
pub(crate) fn is_old_value(cell: &Packed) -> bool
    ensures { IsTrue result ↔ IsOldValue (as_cell cell.now) }
{
    !cell.is_look() && !cell.is_tombstone() && !cell.is_young()
}

/// Whether a cell has the link that counts so many lookahead cells.
#[inline(always)]
pub(crate) fn has_link(cell: &Packed, looks: u32) -> bool
    ensures { IsTrue result ↔ (link_of (as_cell cell.now) ≡ 8 * looks) }
{
    u64::from(cell.link()) == 8 * u64::from(looks)
}

/// The order of two cells in a run: by key, and of one key the item before the lookahead cell.
#[inline]
fn compare(cell: &Packed, other: &Packed) -> Ordering
    ensures { result ≡ place_cmp key_cmp (as_cell cell.now) (as_cell other.now) }
{
    cell.cmp_keys(other)
        .then(is_look(cell).cmp(&is_look(other)))
}

/// Whether a cell stands behind another, where there is one.
#[inline]
pub(crate) fn stands_behind(last: &CellRoom, cell: &Packed) -> bool
    ensures { IsTrue result ↔ StandsBehind last.now (as_cell cell.now) }
{
    match last.cell() {
        Some(last) => compare(last, cell).is_lt(),
        None => true,
    }
}
