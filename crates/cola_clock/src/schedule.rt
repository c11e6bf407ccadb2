//! The calls on the clock.

ghost use Rattle.std.specs.Prelude.{◌≡◌, ◌<◌, ◌≤◌, ◌^◌, IsTrue};
ghost use Rattle.cola_clock.specs.Clock.{flips, works, is_before, is_over, window_step, visible_slot};
ghost use Rattle.cola_clock.specs.Schedule.{phase_at, part_at, below_at};

use crate::state::{Below, Part, Phase};

/// The mutations in a period of a level, `2^level`.
#[inline(always)]
fn period_length(level: u8) -> u64
    requires { level ≤ 22 }
    ensures value { result ≡ 2 ^ level }
    ensures bound { result ≤ 2 ^ 22 }
{
    1 << level
}

/// Whether the level flips when the clock moves on from `clock`: its shadow run becomes visible, and its new shadow is
/// empty. Level j flips where `2^j` divides the next clock. The levels and their flips are those of the deamortized
/// lookahead array of Bender, Farach-Colton, Fineman, Fogel, Kuszmaul and Nelson (SPAA 2007); this schedule of windows
/// by the clock alone is this store's own.
#[inline(always)]
pub fn flips(clock: u64, level: u8) -> bool
    requires level_in_range { level ≤ 22 }
    requires clock_in_range { clock < 2 ^ 23 }
    ensures { result ≡ flips clock level }
{
    (clock + 1) % period_length(level) == 0
}

/// Whether the mutation at `clock` works at the level: level 0 always, level 1 at even clocks, and a level of 2 and more
/// in the second quarter of its period.
#[inline(always)]
pub fn works(clock: u64, level: u8) -> bool
    requires level_in_range { level ≤ 22 }
    requires clock_in_range { clock < 2 ^ 23 }
    ensures { result ≡ works clock level }
{
    match level {
        0 => true,
        1 => clock % 2 == 0,
        _ => {
            let elapsed = clock % period_length(level);
            elapsed >= period_length(level - 2) && elapsed < period_length(level - 1)
        }
    }
}

/// Where a level of 1 and more stands in its period: `Inside` exactly where it works at `clock`, with the number of
/// mutations of this window that are accepted, `Before` exactly where its window is still to come in this period, and
/// `After` exactly where it is over.
pub fn phase(clock: u64, level: u8) -> Phase
    requires level_in_range { level ≤ 22 }
    requires clock_in_range { clock < 2 ^ 23 }
    requires above_zero { 1 ≤ level }
    ensures value { result ≡ phase_at clock level }
    ensures before { IsTrue (is_before clock level) → result ≡ Phase.Before }
    ensures inside { IsTrue (works clock level) → result ≡ Phase.Inside (window_step clock level) }
    ensures after { IsTrue (is_over clock level) → result ≡ Phase.After }
{
    if level == 1 {
        return if clock % 2 == 0 {
            Phase::Inside(0)
        } else {
            Phase::After
        };
    }
    let elapsed = clock % period_length(level);
    let begin = period_length(level - 2);
    if elapsed < begin {
        Phase::Before
    } else if elapsed < period_length(level - 1) {
        Phase::Inside((elapsed - begin) as u32)
    } else {
        Phase::After
    }
}

/// Which of its two slots, 0 or 1, the level's visible run stands in. Its shadow run stands in the other.
#[inline(always)]
pub fn visible_slot(clock: u64, level: u8) -> u8
    requires level_in_range { level ≤ 22 }
    requires clock_in_range { clock < 2 ^ 23 }
    ensures value { result ≡ visible_slot clock level }
    ensures bound { result < 2 }
{
    (clock / period_length(level) % 2) as u8
}

/// Which items of its own visible run the next run of a level takes, in a store whose lowest level is `bottom`.
#[inline(always)]
pub fn own_part(clock: u64, level: u8, bottom: u8) -> Part
    requires bottom_in_range { bottom ≤ 22 }
    requires level_in_range { level ≤ bottom }
    requires clock_in_range { clock < 2 ^ 23 }
    ensures { result ≡ part_at clock level bottom }
{
    if level == bottom {
        Part::All
    } else if visible_slot(clock, level) == 1 {
        Part::Young
    } else {
        Part::All
    }
}

/// Which run of the next level in number order the next run of a level is sampled from, in a store whose lowest level is
/// `bottom`: `Nothing` exactly at the bottom.
#[inline(always)]
pub fn next_of(clock: u64, level: u8, bottom: u8) -> Below
    requires bottom_in_range { bottom ≤ 22 }
    requires level_in_range { level ≤ bottom }
    requires clock_in_range { clock < 2 ^ 23 }
    ensures { result ≡ below_at clock level bottom }
{
    if level == bottom {
        Below::Nothing
    } else if visible_slot(clock, level) == 1 {
        Below::Shadow
    } else {
        Below::Visible
    }
}
