//! What holds of every clock and level: the laws on windows, flips and sources, each as a function that does nothing and
//! whose contract is the law. A proof elsewhere cites the lemma that the function names.

ghost use Rattle.std.specs.Prelude.{◌≡◌, ◌<◌, ◌≤◌, ◌^◌, ◌*◌, ◌+◌, ◌-◌, ◌%◌, ◌&&◌, ◌==◌, if◌then◌else◌, ℕ, suc, true, false, not, IsTrue};
ghost use Rattle.cola_clock.specs.Clock.{period, elapsed, is_odd, flips, works, is_before, is_over, ends, window_step, window_length, visible_slot, working_clocks, working_levels, SameSchedule, InOneWindow, SourcesStay};
ghost use Rattle.cola_clock.specs.Schedule.{below_at};
ghost use Rattle.cola_clock.specs.declared.state.Below.{Below};

/// Two adjacent levels of 1 and more never work in one mutation. The lemma is `adjacent-rest` of `proofs/Laws.antt`.
pub fn adjacent_levels_rest()
    ensures { (t j : ℕ) → works t (suc j) ≡ true → works t (suc (suc j)) ≡ false }
{}

/// So a mutation works at no more than every other level of 1 and more: at `(n + 1) / 2` of the levels 1 to n at most.
/// The lemma is `working_levels-half` of `proofs/Counts.antt`.
pub fn every_other_level_works()
    ensures { (t n : ℕ) → 2 * working_levels t n ≤ n + 1 }
{}

/// A level of 1 and more is in exactly one of three phases: its window is still to come in this period, it works, or its
/// window is over. The lemmas are `before-not_works`, `before-not_over`, `works-not_over` and `before_else` of
/// `proofs/Laws.antt`.
pub fn phases_exclude()
    ensures before_rests { (t j : ℕ) → is_before t (suc j) ≡ true → works t (suc j) ≡ false }
    ensures before_not_over { (t j : ℕ) → is_before t (suc j) ≡ true → is_over t (suc j) ≡ false }
    ensures works_not_over { (t j : ℕ) → works t (suc j) ≡ true → is_over t (suc j) ≡ false }
    ensures one_of_three { (t j : ℕ) → works t (suc j) ≡ false → is_over t (suc j) ≡ false → is_before t (suc j) ≡ true }
{}

/// Each source of a level's next run stays throughout the level's window: at any two clocks of one window of level
/// j + 1, the levels j, j + 1 and j + 2 stand in the same periods, so that none of them flips in between, and in an odd
/// period the shadow of level j + 2 that is sampled is finished at both. The lemma is `sources-stay` of
/// `proofs/Laws.antt`.
pub fn sources_stay()
    ensures { (t u j : ℕ) → InOneWindow t u (suc j) → SourcesStay t u j }
{}

/// From one mutation of a window to the next no source flips, and the window goes on one mutation further. The lemmas
/// are those on `window` of `proofs/Laws.antt`.
pub fn window_goes_on()
    ensures above { (t j : ℕ) → works t (suc j) ≡ true → ends t (suc j) ≡ false → flips t j ≡ false }
    ensures itself { (t j : ℕ) → works t (suc j) ≡ true → flips t (suc j) ≡ false }
    ensures below { (t j : ℕ) → works t (suc j) ≡ true → flips t (suc (suc j)) ≡ false }
    ensures works_next { (t j : ℕ) → works t (suc j) ≡ true → ends t (suc j) ≡ false → works (suc t) (suc j) ≡ true }
    ensures step_next { (t j : ℕ) → works t (suc j) ≡ true → ends t (suc j) ≡ false → window_step (suc t) (suc j) ≡ suc (window_step t (suc j)) }
    ensures first { (t j : ℕ) → works t (suc j) ≡ false → works (suc t) (suc j) ≡ true → window_step (suc t) (suc j) ≡ 0 }
{}

/// A shadow that is sampled belongs to a level whose window is over, at every level, 0 among them. The lemma is
/// `sampled-over` of `proofs/Sampled.antt`.
pub fn sampled_shadow_is_finished()
    ensures over { (t j bottom : ℕ) → below_at t j bottom ≡ Below.Shadow → is_over t (suc j) ≡ true }
    ensures not_over { (t j bottom : ℕ) → below_at t j bottom ≡ Below.Visible → is_over t (suc j) ≡ false }
    ensures at_bottom { (t j bottom : ℕ) → below_at t j bottom ≡ Below.Nothing → j ≡ bottom }
    ensures above_bottom { (t bottom : ℕ) → below_at t bottom bottom ≡ Below.Nothing }
{}

/// A level's window is over exactly where the level above it, the one before it in number order, stands in an odd
/// period. The lemma is `is_over-suc` of `proofs/Laws.antt`.
pub fn over_in_odd_periods()
    ensures { (t j : ℕ) → is_over t (suc j) ≡ is_odd (period t j) }
{}

/// Level 0 flips after every mutation, and each other level where the level above it flips out of an odd period. A level
/// flips only where its window is over, and its next window is then not over. The lemmas are `flips-zero`, `flips-suc`,
/// `flips-over`, `flips-not_over` and `over-next` of `proofs/Laws.antt`.
pub fn flips_follow()
    ensures first { (t : ℕ) → flips t 0 ≡ true }
    ensures others { (t j : ℕ) → flips t (suc j) ≡ (flips t j && is_odd (period t j)) }
    ensures finished { (t j : ℕ) → flips t (suc j) ≡ true → is_over t (suc j) ≡ true }
    ensures begins_anew { (t j : ℕ) → flips t (suc j) ≡ true → is_over (suc t) (suc j) ≡ false }
    ensures over_until { (t j : ℕ) → is_over t (suc j) ≡ true → flips t (suc j) ≡ false → is_over (suc t) (suc j) ≡ true }
{}

/// The parity of a level's period turns exactly where the level flips, and with it the slot of its visible run, which
/// goes by that parity. The lemmas are `is_odd-next_flip` and `period-next_stay` of `proofs/Laws.antt`, and those on
/// `slot` of `proofs/Wrap.antt`.
pub fn parity_turns()
    ensures flips_turn { (t j : ℕ) → flips t j ≡ true → is_odd (period (suc t) j) ≡ not (is_odd (period t j)) }
    ensures others_stay { (t j : ℕ) → flips t j ≡ false → period (suc t) j ≡ period t j }
    ensures slot { (t j : ℕ) → visible_slot t j ≡ (if is_odd (period t j) then 1 else 0) }
    ensures slot_turns { (t j : ℕ) → flips t j ≡ true → visible_slot (suc t) j ≡ 1 - visible_slot t j }
    ensures slot_stays { (t j : ℕ) → flips t j ≡ false → visible_slot (suc t) j ≡ visible_slot t j }
{}

/// Where h is the highest level that flips after a mutation, exactly one window ends with it, that of level h + 1, and is
/// over at the next clock. Where a level flips, no window up to it ends; so where the bottom flips, none does. The lemmas
/// are `ends-highest`, `ends-only`, `ends-none` and `ends-over` of `proofs/Laws.antt`.
pub fn one_window_ends()
    ensures ends_below { (t h : ℕ) → flips t h ≡ true → flips t (suc h) ≡ false → ends t (suc h) ≡ true }
    ensures no_other { (t h j : ℕ) → flips t h ≡ true → flips t (suc h) ≡ false → ends t (suc j) ≡ true → j ≡ h }
    ensures none_at_bottom { (t bottom j : ℕ) → flips t bottom ≡ true → j < bottom → ends t (suc j) ≡ false }
    ensures then_over { (t j : ℕ) → ends t (suc j) ≡ true → is_over (suc t) (suc j) ≡ true }
{}

/// When a window ends: the level above flips and the level itself does not. The level works there, with the last of its
/// window's mutations, and a window that is neither over nor ends is not over at the next clock. The lemmas are
/// `ends-flips`, `ends-works`, `ends-last` and `not_over-next` of `proofs/Laws.antt`.
pub fn windows_end()
    ensures by_flips { (t j : ℕ) → ends t (suc j) ≡ (flips t j && not (flips t (suc j))) }
    ensures works { (t j : ℕ) → ends t j ≡ true → works t j ≡ true }
    ensures last { (t j : ℕ) → ends t j ≡ true → suc (window_step t j) ≡ window_length j }
    ensures not_yet { (t j : ℕ) → is_over t (suc j) ≡ false → ends t (suc j) ≡ false → is_over (suc t) (suc j) ≡ false }
{}

/// Where a level stands in its period of `2^j` mutations: at the remainder of the clock, which begins at 0 after a flip,
/// grows by one with each other mutation, and is the last of the period exactly where the level flips. The lemmas are
/// `elapsed_is`, `elapsed_below`, `flips-elapsed`, `elapsed-next_flip` and `elapsed-next_stay` of `proofs/Laws.antt`.
pub fn places_in_periods()
    ensures remainder { (t j : ℕ) → elapsed t j ≡ t % 2 ^ j }
    ensures below { (t j : ℕ) → elapsed t j < 2 ^ j }
    ensures last { (t j : ℕ) → flips t j ≡ (suc (elapsed t j) == 2 ^ j) }
    ensures after_flip { (t j : ℕ) → flips t j ≡ true → elapsed (suc t) j ≡ 0 }
    ensures after_others { (t j : ℕ) → flips t j ≡ false → elapsed (suc t) j ≡ suc (elapsed t j) }
{}

/// In each period k a level of 1 and more works at as many clocks as its window is long: 1 at level 1, `2^(j-2)` at a
/// level j of 2 and more. The lemma is `window_length-counts` of `proofs/Counts.antt`.
pub fn windows_have_length()
    ensures { (k j : ℕ) → working_clocks (k * 2 ^ suc j) (suc j) (2 ^ suc j) ≡ window_length (suc j) }
{}

/// A clock that counts modulo `2^(bottom+1)` serves as well: no level up to the bottom can tell. The lemma is
/// `schedule-wrap` of `proofs/Wrap.antt`.
pub fn clock_wraps()
    ensures { (t bottom j : ℕ) → j ≤ bottom → SameSchedule (t % 2 ^ suc bottom) t j }
{}
