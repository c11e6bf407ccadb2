//! The rules on the marks of levels, which are the lengths of their runs and the cursors of their merges: what they say
//! level by level, and how they go on at the next clock. Each is a function that does nothing and whose contract is the
//! law; its lemma is in `proofs/MarkLaws.antt`.

ghost use Rattle.std.specs.Prelude.{◌≡◌, ◌<◌, ◌≤◌, ◌^◌, ◌+◌, ◌/◌, ◌%◌, ℕ, suc, false, Bool, if◌then◌else◌, List, ◌∷◌, length, drop};
ghost use Rattle.cola_clock.specs.Clock.{flips, SameSchedule};
ghost use Rattle.cola_clock.specs.Marks.{Marks, merge_steps, sample_distance, sample_end, marks_at, AreCursorsAtRest, AreLevelMarks, AreAllMarks, AreChainMarks, AreMarksAt, marks_after, all_marks_after};

/// A mutation takes 28 steps of the merge at each level of 1 and more that works, and every eighth cell is sampled.
pub fn constants_of_merges()
    ensures steps { merge_steps ≡ 28 }
    ensures distance { sample_distance ≡ 8 }
{}

/// The rules by the number of a level: a store's levels have marks that they may have exactly where each has, beside the
/// visible length of the level above it and the marks of the levels below it. Of those, it reads the next one alone, and
/// the bottom samples nothing.
pub fn marks_by_level()
    ensures each { (t : ℕ) (levels : List Marks) → AreChainMarks t levels → (j : ℕ) → j < length levels → AreMarksAt t levels j }
    ensures all { (t : ℕ) (levels : List Marks) → ((j : ℕ) → j < length levels → AreMarksAt t levels j) → AreChainMarks t levels }
    ensures sample_end { (odd : Bool) (j : ℕ) (levels : List Marks) → j < length levels →
        sample_end odd (drop j levels) ≡ (if odd then (marks_at levels j).shadow else (marks_at levels j).visible) / 8 }
    ensures at_bottom { (odd : Bool) (j : ℕ) (levels : List Marks) → length levels ≤ j → sample_end odd (drop j levels) ≡ 0 }
{}

/// Marks at the next clock, whatever the cells are: where each level that works has taken 28 steps more than its clock
/// asks for, or all, the flips and the ends of windows leave marks that the levels may have at the next clock, also where
/// it is counted modulo `2^(bottom+1)`. Level 0 has its shadow built whole before it flips.
pub fn marks_go_on()
    ensures one_level { (t j above above_next : ℕ) (marks : Marks) (below : List Marks) → (flips t j ≡ false → above_next ≡ above) →
        AreLevelMarks merge_steps t (suc j) above marks below →
        AreLevelMarks 0 (suc t) (suc j) above_next (marks_after t (suc j) marks) (all_marks_after t (suc (suc j)) below) }
    ensures all_levels { (t : ℕ) (built : Marks) (worked : List Marks) → AreCursorsAtRest built → built.shadow ≤ 2 ^ 2 →
        AreAllMarks merge_steps t 1 built.visible worked → AreChainMarks (suc t) (all_marks_after t 0 (built ∷ worked)) }
    ensures wrapped { (t : ℕ) (built : Marks) (worked : List Marks) → AreCursorsAtRest built → built.shadow ≤ 2 ^ 2 →
        AreAllMarks merge_steps t 1 built.visible worked →
        AreChainMarks (suc t % 2 ^ suc (length worked)) (all_marks_after t 0 (built ∷ worked)) }
{}

/// Levels that are so many steps ahead of the clock are fewer steps ahead of it too; and the rules are the same at any
/// two clocks that no level can tell apart.
pub fn marks_stay()
    ensures fewer { (ahead less t j above : ℕ) (levels : List Marks) → less ≤ ahead → AreAllMarks ahead t j above levels → AreAllMarks less t j above levels }
    ensures same_schedule { (t u : ℕ) (levels : List Marks) → ((j : ℕ) → j < length levels → SameSchedule t u j) →
        AreChainMarks t levels → AreChainMarks u levels }
{}
