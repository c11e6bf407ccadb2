//! Plain cells, the order of two of them, and the test of a run.

ghost use Rattle.std.specs.Prelude.{◌≡◌, ◌↔◌, ◌++◌, IsTrue, OnOk, OnErr};
ghost use Rattle.std.specs.Option.{option_map, option_to_list};
ghost use Rattle.std.specs.List.{AllByRecursion};
ghost use Rattle.std.specs.declared.cmp.Ordering.TheVariants.{Less};
ghost use Rattle.cola_runs.specs.Cells.{key_of, link_of, is_look, place_cmp, IsRising, IsLinked, IsWellFormed};
ghost use Rattle.cola_plain_runs.specs.Runs.{as_cell, as_run};

use std::alloc::AllocError;
use std::cmp::Ordering;

/// What a mutation leaves of its key.
#[derive(Clone, Copy, PartialEq)]
pub enum PlainItem<V> {
    Value(V),
    Tombstone,
}

/// A cell of a run: an item with its key, young flag and link, or a lookahead cell with its key and link. A link is
/// an index of the next run.
#[derive(Clone, Copy, PartialEq)]
pub enum PlainCell<K, V> {
    Entry {
        key: K,
        item: PlainItem<V>,
        young: bool,
        link: u64,
    },
    Look {
        key: K,
        link: u64,
    },
}

/// Which items a build takes, and how it marks them.
#[derive(Clone, Copy)]
pub struct PlainPart {
    /// Of the own run only the young items are taken.
    pub only_young: bool,
    /// Items of the incoming run are marked young; own items are always marked old.
    pub marks_young: bool,
    /// Tombstones are left out.
    pub drops_tombstones: bool,
}

/// The key of a cell.
pub fn key<K: Copy, V>(cell: &PlainCell<K, V>) -> K
    ensures { result ≡ key_of (as_cell cell.now) }
{
    match cell {
        PlainCell::Entry { key, .. } => *key,
        PlainCell::Look { key, .. } => *key,
    }
}

/// The link of a cell.
pub fn link<K, V>(cell: &PlainCell<K, V>) -> u64
    ensures { result ≡ link_of (as_cell cell.now) }
{
    match cell {
        PlainCell::Entry { link, .. } => *link,
        PlainCell::Look { link, .. } => *link,
    }
}

/// Whether a cell is a lookahead cell.
pub fn looks_ahead<K, V>(cell: &PlainCell<K, V>) -> bool
    ensures { result ≡ is_look (as_cell cell.now) }
{
    matches!(cell, PlainCell::Look { .. })
}

/// The order of two cells in a run: by key, and of one key the item before the lookahead cell.
pub fn compare<K: Ord + Copy, V>(cell: &PlainCell<K, V>, other: &PlainCell<K, V>) -> Ordering
    ensures { result ≡ place_cmp K.cmp (as_cell cell.now) (as_cell other.now) }
{
    key(cell)
        .cmp(&key(other))
        .then(looks_ahead(cell).cmp(&looks_ahead(other)))
}

/// Puts the cell, if there is one, behind those that were emitted.
pub fn emit_cell<K: Copy, V: Copy>(
    done: &mut Vec<PlainCell<K, V>>,
    cell: Option<PlainCell<K, V>>,
) -> Result<(), AllocError>
    ensures emitted { OnOk result (as_run done.new.items ≡ as_run done.old.items ++ option_to_list (option_map as_cell cell)) }
    ensures kept { OnErr result (done.new.items ≡ done.old.items) }
{
    if let Some(cell) = cell {
        done.push(cell)?;
    }
    Ok(())
}

/// Whether a cell stands before each of these.
pub fn stands_before<K: Ord + Copy, V>(cell: &PlainCell<K, V>, others: &[PlainCell<K, V>]) -> bool
    ensures { IsTrue result ↔ AllByRecursion (λ d. place_cmp K.cmp (as_cell cell.now) d ≡ Less) (as_run others.now) }
{
    for other in others {
        if !compare(cell, other).is_lt() {
            return false;
        }
    }
    true
}

/// Whether each cell stands before all that follow it.
pub fn is_rising<K: Ord + Copy, V>(run: &[PlainCell<K, V>]) -> bool
    ensures { IsTrue result ↔ IsRising K.cmp (as_run run.now) }
{
    for (i, cell) in run.iter().enumerate() {
        if !stands_before(cell, &run[i..][1..]) {
            return false;
        }
    }
    true
}

/// Whether each link is 8 times the number of lookahead cells before it.
pub fn is_linked<K, V>(run: &[PlainCell<K, V>]) -> bool
    ensures { IsTrue result ↔ IsLinked 0 (as_run run.now) }
{
    let mut looks: u64 = 0;
    for cell in run {
        if link(cell) % 8 != 0 || link(cell) / 8 != looks {
            return false;
        }
        if looks_ahead(cell) {
            looks += 1;
        }
    }
    true
}

/// Whether the cells are a well-formed run.
pub fn is_well_formed<K: Ord + Copy, V>(run: &[PlainCell<K, V>]) -> bool
    ensures { IsTrue result ↔ IsWellFormed K.cmp (as_run run.now) }
{
    is_rising(run) && is_linked(run)
}
