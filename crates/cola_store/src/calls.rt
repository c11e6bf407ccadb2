//! What was found by a search, and the ticks of a call.
ghost use Rattle.std.specs.Prelude.{◌≡◌};
ghost use Rattle.cola_store.specs.Calls.{value_found, stamp_found};
ghost use Rattle.cola_store.specs.OnMaps.{AreTicksBetween};

use cola_cell::{Item, Value};

/// The value of what a search found: none of a tombstone.
pub(crate) fn value_of(found: &Option<Item>) -> Option<Value>
    ensures { result ≡ value_found found.now }
{
    match found {
        Some(item) => match item {
            Item::Value { value, .. } => Some(*value),
            Item::Tombstone => None,
        },
        None => None,
    }
}

/// The stamp of what a search found: none of a tombstone.
pub(crate) fn stamp_of(found: &Option<Item>) -> Option<u64>
    ensures { result ≡ stamp_found found.now }
{
    match found {
        Some(item) => match item {
            Item::Value { stamp, .. } => Some(*stamp),
            Item::Tombstone => None,
        },
        None => None,
    }
}

/// How many ticks were made between two counts of them, each modulo `2^64`.
pub(crate) fn ticks_between(before: u64, now: u64) -> u32
    ensures { AreTicksBetween before now result }
{
    if now >= before {
        ((now - before) % (1 << 32)) as u32
    } else {
        ((u64::MAX - before + now + 1) % (1 << 32)) as u32
    }
}
