//! Ranges in both directions, and the greatest key, over a store whose keys come and go, beside a sorted array.
ghost use Rattle.std.specs.Prelude.{◌≡◌, ◌<◌};

use crate::rows::{key_of, pair_of};
use cola_cell::{Key, Value};
use cola_device::MemoryDevice;
use cola_outside::Steps;
use cola_store::{Store, create};
use cola_table::Table;
use std::alloc::Global;
use std::marker::Brand;
use std::ops::Bound;
use std::process::Abort;
use std::sync::ledger::{Blank, Ledger};

/// The values of the keys up to 63, each where its key has one.
type Values = [Option<u8>; 64];

/// The pair of a key, where it has a value.
fn pair_at(values: &Values, key: u8) -> Option<(Key, Value)> {
    let value = (*values.get(key as usize)?)?;
    pair_of((key, value))
}

/// The pair of the greatest key that has a value.
fn last_of(values: &Values) -> Option<(Key, Value)> {
    let mut last = None;
    for key in 0..64u8 {
        if let Some(pair) = pair_at(values, key) {
            last = Some(pair);
        }
    }
    last
}

/// Whether a walk gives this pair next, or none.
fn next_is<T: Table, L: Ledger>(
    table: &mut T,
    walk: &mut T::Walk,
    pair: Option<(Key, Value)>,
    steps: &mut Steps<L>,
) -> bool
    requires { T.stands table.old walk.old }
    ensures { T.stands table.new walk.new }
{
    table.next(walk, steps) == Ok(pair)
}

/// Whether a walk gives the pairs of the keys from the first end on, below the second, in their order or from the last on,
/// and then none.
fn gives<T: Table, L: Ledger>(
    table: &mut T,
    walk: &mut T::Walk,
    values: &Values,
    ends: (u8, u8),
    falls: bool,
    steps: &mut Steps<L>,
) -> bool
    requires { T.stands table.old walk.old }
{
    let (low, high) = ends;
    for key in low..high {
        let beside = if falls {
            high.wrapping_sub(1).wrapping_sub(key.wrapping_sub(low))
        } else {
            key
        };
        let pair = pair_at(values, beside);
        if pair.is_some() && !next_is(table, walk, pair, steps) {
            return false;
        }
    }
    next_is(table, walk, None, steps)
}

/// Whether the store gives the pairs of the keys within the ends by rising keys.
fn rises<L: Ledger>(
    store: &mut Store<MemoryDevice>,
    values: &Values,
    ends: (u8, u8),
    keys: (&Key, &Key),
    steps: &mut Steps<L>,
) -> bool {
    match store.range(keys.0, Some(keys.1), steps) {
        Ok(mut walk) => gives(store, &mut walk, values, ends, false, steps),
        Err(_) => false,
    }
}

/// Whether it gives the pairs of the keys within the ends by falling keys.
fn falls<L: Ledger>(
    store: &mut Store<MemoryDevice>,
    values: &Values,
    ends: (u8, u8),
    keys: (Option<&Key>, Bound<&Key>),
    steps: &mut Steps<L>,
) -> bool {
    match store.range_back(keys.0, keys.1, steps) {
        Ok(mut walk) => gives(store, &mut walk, values, ends, true, steps),
        Err(_) => false,
    }
}

/// Whether the store gives the pairs of the array from `low` on: below `high` in both directions, up to it, and all from the
/// last on.
fn agrees<L: Ledger>(
    store: &mut Store<MemoryDevice>,
    values: &Values,
    ends: (u8, u8),
    steps: &mut Steps<L>,
) -> bool {
    let (Some(low), Some(high)) = (key_of(ends.0), key_of(ends.1)) else {
        return false;
    };
    let up_to = (ends.0, ends.1.wrapping_add(1));
    rises(store, values, ends, (&low, &high), steps)
        && falls(
            store,
            values,
            ends,
            (Some(&low), Bound::Excluded(&high)),
            steps,
        )
        && falls(
            store,
            values,
            up_to,
            (Some(&low), Bound::Included(&high)),
            steps,
        )
        && falls(store, values, (0, 64), (None, Bound::Unbounded), steps)
        && store.last(steps) == Ok(last_of(values))
}

/// Gives a key a value, or takes it out; whether that was done.
fn change<L: Ledger>(
    store: &mut Store<MemoryDevice>,
    key: u8,
    value: Option<u8>,
    steps: &mut Steps<L>,
) -> bool {
    let Some(value) = value else {
        return match key_of(key) {
            Some(key) => store.delete(&key, steps).is_ok(),
            None => false,
        };
    };
    let format = store.format();
    match pair_of((key, value)) {
        Some((key, value)) => {
            key.fits(format) && value.fits(format) && store.put(&key, &value, steps).is_ok()
        }
        None => false,
    }
}

/// A change that a number makes, three puts to two deletes, and then all ranges.
fn change_and_compare<L: Ledger>(
    store: &mut Store<MemoryDevice>,
    values: &mut Values,
    seed: u32,
    steps: &mut Steps<L>,
) -> bool {
    let key = ((seed >> 16) % 64) as u8;
    let value = if (seed >> 24) % 5 < 3 {
        Some(((seed >> 8) % 251) as u8)
    } else {
        None
    };
    if let Some(place) = values.get_mut(key as usize) {
        *place = value;
    }
    let ends = (((seed >> 10) % 64) as u8, ((seed >> 20) % 65) as u8);
    change(store, key, value, steps) && agrees(store, values, ends, steps)
}

/// Puts and deletes of 64 keys in an order without a pattern.
fn changes<L: Ledger>(store: &mut Store<MemoryDevice>, steps: &mut Steps<L>) -> bool {
    let mut values = [None; 64];
    let mut seed = 1u32;
    for _round in 0..500u32 {
        seed = seed.wrapping_mul(1_664_525).wrapping_add(1_013_904_223);
        if !change_and_compare(store, &mut values, seed, steps) {
            return false;
        }
    }
    true
}

/// A new store for 64 keys.
fn new_store<L: Ledger>(alloc: Global, steps: &mut Steps<L>) -> Option<Store<MemoryDevice>> {
    let mut device = MemoryDevice::new(alloc, 65536, Vec::new(alloc)).ok()?;
    if create(&mut device, 64, 5).is_err() {
        return None;
    }
    Store::open_on(alloc, device, 4, steps).ok()
}

fn one_store<L: Ledger>(rt: &impl Abort, alloc: Global, blank: Blank)
    requires name { blank.name ≡ L.name }
    requires parts { blank.parts ≡ L.parts }
    requires some { 0 < L.parts }
{
    let mut steps = Steps::<L>::begin(blank);
    let agreed = match new_store(alloc, &mut steps) {
        Some(mut store) => changes(&mut store, &mut steps),
        None => false,
    };
    assert!(rt; agreed);
}

#[test]
fn both_directions_beside_a_sorted_array(rt: HostRuntime) {
    one_store::<Brand>(&rt, rt.alloc(), Blank::new(1));
}
