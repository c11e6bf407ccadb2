//! Whether a finished shadow fits the runs beside it at one key.
ghost use Rattle.std.specs.Prelude.{◌≡◌, ◌↔◌, Bool, IsTrue, option_map};
ghost use Rattle.cola_runs.specs.Weave.{own_at, kept_or_none};
ghost use Rattle.cola_laws.specs.Sound.{Carried, Keeps};
ghost use Rattle.cola_cell.specs.Held.{as_item};
ghost use Rattle.cola_check.specs.Walks.{as_seen};
ghost use Rattle.cola_check.specs.Carrying.{part_at, FitsAt};

use crate::walk::Found;
use cola_cell::Item;

/// Whether two items are the same, by their values and stamps.
fn is_same_item(one: &Item, other: &Item) -> bool
    ensures { IsTrue result ↔ (as_item one.now ≡ as_item other.now) }
{
    match (one, other) {
        (Item::Tombstone, Item::Tombstone) => true,
        (
            Item::Value { value, stamp },
            Item::Value {
                value: other_value,
                stamp: other_stamp,
            },
        ) => { value == other_value && stamp == other_stamp }
        _ => false,
    }
}

/// Whether both have the same item, or both none.
fn is_same(one: &Option<Item>, other: &Option<Item>) -> bool
    ensures { IsTrue result ↔ (option_map as_item one.now ≡ option_map as_item other.now) }
{
    match (one, other) {
        (None, None) => true,
        (Some(one), Some(other)) => is_same_item(one, other),
        _ => false,
    }
}

/// The own item that a level takes: in an odd period, above the bottom, only a young one.
fn taken(odd: bool, bottom: bool, own: &Found) -> Option<Item>
    ensures { option_map as_item result ≡ own_at (part_at odd bottom) (as_seen own.now) }
{
    match own {
        Found::Old(_) if odd && !bottom => None,
        _ => own.item(),
    }
}

/// What a level keeps of an item: the bottom no tombstone.
fn kept(bottom: bool, item: Option<Item>) -> Option<Item>
    ensures { (odd : Bool) → option_map as_item result ≡
        kept_or_none (part_at odd bottom) (option_map as_item item) }
{
    match item {
        Some(Item::Tombstone) if bottom => None,
        _ => item,
    }
}

/// Whether the shadow has of the key what it carries.
fn carries(odd: bool, bottom: bool, above: &Found, own: &Found, shadow: &Found) -> bool
    ensures { IsTrue result ↔
        Carried (part_at odd bottom) (as_seen above.now) (as_seen own.now) (as_seen shadow.now) }
{
    match above {
        Found::Nothing => is_same(&shadow.item(), &kept(bottom, taken(odd, bottom, own))),
        Found::Old(item) => is_same(&shadow.item(), &kept(bottom, Some(*item))),
        Found::Young(_) => true,
    }
}

/// Whether the shadow keeps what the own run has of the key.
fn keeps(own: &Found, shadow: &Found) -> bool
    ensures { IsTrue result ↔ Keeps (as_seen own.now) (as_seen shadow.now) }
{
    match shadow {
        Found::Nothing => own.item().is_none(),
        Found::Old(item) => is_same(&own.item(), &Some(*item)),
        Found::Young(_) => true,
    }
}

/// Whether a finished shadow fits what the run above and the own run have of a key.
pub(crate) fn fits(odd: bool, bottom: bool, above: &Found, own: &Found, shadow: &Found) -> bool
    ensures { IsTrue result ↔ FitsAt odd bottom (as_seen above.now) (as_seen own.now) (as_seen shadow.now) }
{
    carries(odd, bottom, above, own, shadow) && (odd || bottom || keeps(own, shadow))
}
