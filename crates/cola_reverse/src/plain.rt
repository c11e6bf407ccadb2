//! The pairs of an interval of a sorted list in falling order: those that lie within it, reversed. For tests.

ghost use Rattle.std.specs.Prelude.{◌≡◌, IfOk};
ghost use Rattle.cola_reverse.specs.Falling.{within_bounds, falling_pairs};

use std::alloc::{AllocError, Global};
use std::ops::Bound;

/// Whether a key lies from `low` on, where there is one, and up to `high`.
fn lies_within<K: Ord>(key: &K, low: &Option<K>, high: &Bound<K>) -> bool
    ensures { result ≡ within_bounds K.cmp low.now high.now key.now }
{
    if let Some(low) = low {
        if !low.cmp(key).is_le() {
            return false;
        }
    }
    match high {
        Bound::Included(high) => key.cmp(high).is_le(),
        Bound::Excluded(high) => key.cmp(high).is_lt(),
        Bound::Unbounded => true,
    }
}

/// The pairs from `low` on, where there is one, and up to `high`, in falling order.
pub fn falling<K: Ord + Copy, V: Copy>(
    alloc: Global,
    pairs: &[(K, V)],
    low: &Option<K>,
    high: &Bound<K>,
) -> Result<Vec<(K, V)>, AllocError>
    ensures { IfOk result (λ found. found.items ≡ falling_pairs K.cmp low.now high.now pairs.now) }
{
    let mut found = Vec::new(alloc);
    for pair in pairs {
        if lies_within(&pair.0, low, high) {
            found.push((pair.0, pair.1))?;
        }
    }
    found.reverse();
    Ok(found)
}
