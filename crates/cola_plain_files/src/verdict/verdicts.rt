//! The levels that fail a test.

ghost use Rattle.std.specs.Prelude.{◌≡◌, ◌≤◌, ◌<◌, ◌^◌, ◌↔◌, length, IsTrue, IfOk, MatchOption};
ghost use Rattle.cola_plain_files.specs.Levels.{as_levels};
ghost use Rattle.cola_plain_files.specs.Tests.{PassesAt, EachPasses, IsFirstToFail, IsLastToFail};

use crate::verdict::level::PlainLevel;
use crate::verdict::levels::is_odd;
use crate::verdict::runs::rest_of;
use crate::verdict::tests::{has_few, has_few_live, has_sample, has_shadow};
use cola_plain_runs::cells::is_well_formed;
use std::alloc::{AllocError, Global};

/// The tests of one level.
#[derive(Clone, Copy)]
pub enum LevelTest {
    Order,
    Sample,
    Length,
    Shadow,
    Live,
}

/// Whether a level passes a test, in a store for so many keys at this clock.
fn passes(
    alloc: Global,
    test: LevelTest,
    most: u64,
    clock: u64,
    levels: &[PlainLevel],
    number: u8,
) -> Result<bool, AllocError>
    requires levels_in_range { length levels.now ≤ 23 }
    requires within { number < length levels.now }
    requires clock_in_range { clock < 2 ^ 23 }
    ensures { IfOk result (λ holds. IsTrue holds ↔ PassesAt test most clock (as_levels levels.now) number) }
{
    let level = &levels[number as usize];
    let below = rest_of(levels, number as usize + 1);
    match test {
        LevelTest::Order => Ok(is_well_formed(level.visible.as_slice())),
        LevelTest::Sample => has_sample(alloc, level, below),
        LevelTest::Length => {
            let run = level.visible.as_slice();
            Ok(has_few(most, is_odd(clock, number), number, run, below))
        }
        LevelTest::Shadow => {
            if number == 0 {
                return Ok(true);
            }
            let above = levels[number as usize - 1].visible.as_slice();
            has_shadow(alloc, most, clock, number, above, level, below)
        }
        LevelTest::Live => has_few_live(
            alloc,
            most,
            clock,
            number,
            rest_of(levels, number as usize),
        ),
    }
}

/// The first level that fails a test, from level 0 down.
pub fn first_to_fail(
    alloc: Global,
    test: LevelTest,
    most: u64,
    clock: u64,
    levels: &[PlainLevel],
) -> Result<Option<u8>, AllocError>
    requires levels_in_range { length levels.now ≤ 23 }
    requires clock_in_range { clock < 2 ^ 23 }
    ensures { IfOk result (λ found. MatchOption found (EachPasses test most clock (as_levels levels.now)) (IsFirstToFail test most clock (as_levels levels.now))) }
{
    for number in 0..levels.len() as u8 {
        if !passes(alloc, test, most, clock, levels, number)? {
            return Ok(Some(number));
        }
    }
    Ok(None)
}

/// The last level that fails a test, from the bottom up.
pub fn last_to_fail(
    alloc: Global,
    test: LevelTest,
    most: u64,
    clock: u64,
    levels: &[PlainLevel],
) -> Result<Option<u8>, AllocError>
    requires levels_in_range { length levels.now ≤ 23 }
    requires clock_in_range { clock < 2 ^ 23 }
    ensures { IfOk result (λ found. MatchOption found (EachPasses test most clock (as_levels levels.now)) (IsLastToFail test most clock (as_levels levels.now))) }
{
    let mut left = levels.len() as u8;
    while left > 0 {
        left -= 1;
        if !passes(alloc, test, most, clock, levels, left)? {
            return Ok(Some(left));
        }
    }
    Ok(None)
}
