//! What runs have of a key, and whether a finished shadow carries it.

ghost use Rattle.std.specs.Prelude.{◌≡◌, ◌↔◌, ◌∷◌, [], ℕ, List, IsTrue, IfOk};
ghost use Rattle.std.specs.List.{AllByRecursion};
ghost use Rattle.cola_cell.specs.Order.{key_cmp};
ghost use Rattle.cola_runs.specs.Cells.{key_of};
ghost use Rattle.cola_plain_runs.specs.Runs.{as_item, as_run, as_part};
ghost use Rattle.cola_runs.specs.Seen.{seen, holds};
ghost use Rattle.cola_runs.specs.Weave.{kept, kept_or_none, own_at};
ghost use Rattle.cola_laws.specs.Sound.{Carried, Keeps};
ghost use Rattle.cola_plain_files.specs.Levels.{as_seen, as_held, IsCarriedAt, CarriesKey};

use crate::verdict::cells::{FileCell, PlainValue, is_same_item};
use cola_cell::Key;
use cola_plain_runs::cells::{PlainCell, PlainItem, PlainPart, key};

/// What a run has of a key: no item, an old item or a young one.
#[derive(Clone, Copy)]
pub enum PlainSeen {
    Nothing,
    Old(PlainItem<PlainValue>),
    Young(PlainItem<PlainValue>),
}

/// What a cell has of a key.
fn seen_in(sought: &Key, cell: &FileCell) -> PlainSeen
    ensures { as_seen result ≡ seen key_cmp sought.now (as_run (cell.now ∷ [])) }
{
    match cell {
        PlainCell::Entry {
            key,
            item,
            young,
            ..
        } if sought.cmp(key).is_eq() => {
            if *young {
                PlainSeen::Young(*item)
            } else {
                PlainSeen::Old(*item)
            }
        }
        _ => PlainSeen::Nothing,
    }
}

/// What a run has of a key: its first item of it.
fn seen(sought: &Key, run: &[FileCell]) -> PlainSeen
    ensures { as_seen result ≡ seen key_cmp sought.now (as_run run.now) }
{
    for cell in run {
        match seen_in(sought, cell) {
            PlainSeen::Nothing => {}
            found => return found,
        }
    }
    PlainSeen::Nothing
}

/// The item, whatever its flag.
fn held(seen: &PlainSeen) -> Option<PlainItem<PlainValue>>
    ensures { as_held result ≡ holds (as_seen seen.now) }
{
    match seen {
        PlainSeen::Nothing => None,
        PlainSeen::Old(item) | PlainSeen::Young(item) => Some(*item),
    }
}

/// The item as the part keeps it.
fn kept(part: &PlainPart, item: PlainItem<PlainValue>) -> Option<PlainItem<PlainValue>>
    ensures { as_held result ≡ kept (as_part part.now) (as_item item) }
{
    match item {
        PlainItem::Tombstone if part.drops_tombstones => None,
        _ => Some(item),
    }
}

/// What the part takes of what the own run has, and keeps.
fn kept_own(part: &PlainPart, own: &PlainSeen) -> Option<PlainItem<PlainValue>>
    ensures { as_held result ≡ kept_or_none (as_part part.now) (own_at (as_part part.now) (as_seen own.now)) }
{
    match own {
        PlainSeen::Nothing => None,
        PlainSeen::Old(item) => {
            if part.only_young {
                None
            } else {
                kept(part, *item)
            }
        }
        PlainSeen::Young(item) => kept(part, *item),
    }
}

/// Whether both hold the same item, or none.
fn is_same_held(one: &Option<PlainItem<PlainValue>>, other: &Option<PlainItem<PlainValue>>) -> bool
    ensures { IsTrue result ↔ as_held one.now ≡ as_held other.now }
{
    match (one, other) {
        (Some(item), Some(second)) => is_same_item(item, second),
        (None, None) => true,
        _ => false,
    }
}

/// Whether a finished shadow has of a key what the part builds of the run above and of the own run.
fn is_carried(part: &PlainPart, above: &PlainSeen, own: &PlainSeen, shadow: &PlainSeen) -> bool
    ensures { IsTrue result ↔ Carried (as_part part.now) (as_seen above.now) (as_seen own.now) (as_seen shadow.now) }
{
    match above {
        PlainSeen::Nothing => is_same_held(&held(shadow), &kept_own(part, own)),
        PlainSeen::Old(item) => is_same_held(&held(shadow), &kept(part, *item)),
        PlainSeen::Young(_) => true,
    }
}

/// Whether a shadow keeps what the own run has of a key.
fn is_kept(own: &PlainSeen, shadow: &PlainSeen) -> bool
    ensures { IsTrue result ↔ Keeps (as_seen own.now) (as_seen shadow.now) }
{
    match shadow {
        PlainSeen::Nothing => matches!(own, PlainSeen::Nothing),
        PlainSeen::Old(item) => is_same_held(&held(own), &Some(*item)),
        PlainSeen::Young(_) => true,
    }
}

/// Whether a finished shadow has of a key what it must have, from what the three runs have of it.
fn carries_seen(
    part: &PlainPart,
    keeps_all: bool,
    above: &PlainSeen,
    own: &PlainSeen,
    shadow: &PlainSeen,
) -> bool
    ensures { IsTrue result ↔ IsCarriedAt (as_part part.now) keeps_all (as_seen above.now) (as_seen own.now) (as_seen shadow.now) }
{
    (!keeps_all || is_kept(own, shadow)) && is_carried(part, above, own, shadow)
}

/// Whether a finished shadow has of a key what it must have.
fn carries_key(
    part: &PlainPart,
    keeps_all: bool,
    above: &[FileCell],
    own: &[FileCell],
    shadow: &[FileCell],
    sought: &Key,
) -> bool
    ensures { IsTrue result ↔ CarriesKey (as_part part.now) keeps_all (as_run above.now) (as_run own.now) (as_run shadow.now) sought.now }
{
    carries_seen(
        part,
        keeps_all,
        &seen(sought, above),
        &seen(sought, own),
        &seen(sought, shadow),
    )
}

/// Whether a finished shadow has of each of these cells' keys what it must have.
fn carries_keys(
    part: &PlainPart,
    keeps_all: bool,
    above: &[FileCell],
    own: &[FileCell],
    shadow: &[FileCell],
    cells: &[FileCell],
) -> bool
    ensures { IsTrue result ↔ AllByRecursion (λ c. CarriesKey (as_part part.now) keeps_all (as_run above.now) (as_run own.now) (as_run shadow.now) (key_of c)) (as_run cells.now) }
{
    for cell in cells {
        if !carries_key(part, keeps_all, above, own, shadow, &key(cell)) {
            return false;
        }
    }
    true
}

/// Whether a finished shadow has of each key what it must have. Of a key of none of the three runs none has an item.
pub fn carries(
    part: &PlainPart,
    keeps_all: bool,
    above: &[FileCell],
    own: &[FileCell],
    shadow: &[FileCell],
) -> bool
    ensures { IsTrue result ↔ ((q : List ℕ) → CarriesKey (as_part part.now) keeps_all (as_run above.now) (as_run own.now) (as_run shadow.now) q) }
{
    if !carries_keys(part, keeps_all, above, own, shadow, above) {
        return false;
    }
    if !carries_keys(part, keeps_all, above, own, shadow, own) {
        return false;
    }
    carries_keys(part, keeps_all, above, own, shadow, shadow)
}
