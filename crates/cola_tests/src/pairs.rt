//! The live pairs of two small runs, by the plain program.
use cola_plain_runs::cells::{PlainCell, PlainItem};
use cola_plain_runs::pairs::live_pairs;
use std::alloc::AllocError;

fn item(key: u32, item: PlainItem<u32>) -> PlainCell<u32, u32> {
    PlainCell::Entry {
        key,
        item,
        young: false,
        link: 0,
    }
}

// The newer run has a new value, a tombstone and a lookahead cell, the older one the keys 1 to 4, each with its number.
#[test]
fn a_range_has_the_newest_value_and_no_deleted_key(rt: HostRuntime) -> Result<(), AllocError> {
    let newer = [
        item(1, PlainItem::Value(10)),
        item(2, PlainItem::Tombstone),
        PlainCell::Look { key: 4, link: 0 },
    ];
    let mut runs = Vec::new(rt.alloc());
    runs.push(newer.to_vec(rt.alloc())?)?;
    let mut older = Vec::new(rt.alloc());
    for key in 1..5 {
        older.push(item(key, PlainItem::Value(key)))?;
    }
    runs.push(older)?;
    for (low, high, wanted) in [
        (0, None, [(1u32, 10u32), (3, 3), (4, 4)].as_slice()),
        (2, Some(4), &[(3, 3)]),
        (4, Some(1), &[]),
    ] {
        let pairs = live_pairs(rt.alloc(), runs.as_slice(), &low, &high)?;
        assert!(rt; pairs.as_slice() == wanted, "from {low}");
    }
    Ok(())
}
