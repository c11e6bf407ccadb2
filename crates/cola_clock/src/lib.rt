//! The clock of the lookahead array: which levels flip, work and sample at a clock, as pure arithmetic.
//!
//! A clock counts accepted mutations. Level j has periods of `2^j` mutations; `schedule` answers where a level stands in
//! its period, and `windows` states what holds of every clock and level.
#![tactic(auto)]

mod marks;
mod schedule;
mod state;
mod windows;

pub use marks::{constants_of_merges, marks_by_level, marks_go_on, marks_stay};
pub use schedule::{flips, next_of, own_part, phase, visible_slot, works};
pub use state::{Below, Part, Phase};
pub use windows::{
    adjacent_levels_rest, clock_wraps, every_other_level_works, flips_follow, one_window_ends,
    over_in_odd_periods, parity_turns, phases_exclude, places_in_periods,
    sampled_shadow_is_finished, sources_stay, window_goes_on, windows_end, windows_have_length,
};
