//! The least keys of the walks over several levels, from level 0 down to each. A key of a lower level leaves those of the
//! levels above as they are: so most steps look at the lowest levels alone.
ghost use Rattle.std.specs.Prelude.{◌≡◌, ◌≤◌, ◌↔◌, List, IsTrue, Some, None, length};
ghost use Rattle.cola_check.specs.declared.level_walks.LevelWalks.{LevelWalks};
ghost use Rattle.cola_check.specs.Walks.{least_from};
ghost use Rattle.cola_check.specs.LevelWalks.{walks_in};
ghost use Rattle.cola_check.specs.Leasts.{AreLeasts, AreFirstLeasts, AreAwayFrom};

use crate::level_walks::LevelWalks;
use arrayvec::ArrayVec;
use cola_cell::{Key, MOST_LEVELS};

/// Whether a least key is this one.
#[inline]
fn is_key(least: &Option<Key>, key: &Key) -> bool
    ensures { IsTrue result ↔ (least.now ≡ Some key.now) }
{
    match least {
        Some(least) => least.cmp(key).is_eq(),
        None => false,
    }
}

/// The least key of the walks over all levels, if there is one.
pub(crate) fn least_of(leasts: &[Option<Key>]) -> Option<Key>
    ensures { (levels : List LevelWalks) → AreLeasts None leasts.now levels →
        result ≡ least_from None (walks_in levels) }
{
    if leasts.is_empty() {
        return None;
    }
    leasts[leasts.len() - 1]
}

/// The first level down to which this key is the least, which is that of all levels: above it no walk stands at it.
pub(crate) fn first_with(leasts: &[Option<Key>], key: &Key) -> usize
    ensures { (levels : List LevelWalks) → AreLeasts None leasts.now levels →
        least_from None (walks_in levels) ≡ Some key.now → AreAwayFrom result key.now levels }
{
    let mut first = leasts.len();
    while first > 0 {
        if !is_key(&leasts[first - 1], key) {
            return first;
        }
        first -= 1;
    }
    0
}

/// Finds the least keys of the levels anew that lie behind the first ones, whose walks stayed where they were.
pub(crate) fn lower_all(
    leasts: &mut [Option<Key>],
    levels: &[LevelWalks],
    first: usize,
    before: &Option<Key>,
)
    requires same { length leasts.old ≡ length levels.now }
    requires kept { AreFirstLeasts first before.now leasts.old levels.now }
    ensures { AreLeasts before.now leasts.new levels.now }
{
    let Some((level, below)) = levels.split_first() else {
        return;
    };
    let Some((least, others)) = leasts.split_first_mut() else {
        return;
    };
    if first > 0 {
        lower_all(others, below, first - 1, least);
        return;
    }
    *least = level.lower(before);
    lower_all(others, below, 0, least);
}

/// The least keys of the walks over so many levels.
pub(crate) fn leasts_of(levels: &[LevelWalks]) -> ArrayVec<Option<Key>, MOST_LEVELS>
    requires { length levels.now ≤ 23 }
    ensures { AreLeasts None result.items levels.now }
{
    let mut leasts = ArrayVec::new();
    for _level in 0..levels.len() {
        leasts.push(None);
    }
    lower_all(leasts.as_mut_slice(), levels, 0, &None);
    leasts
}
