//! Laws of a build under way: what its steps keep, consume and emit.

ghost use Rattle.std.specs.Prelude.{◌≡◌, ℕ, ◌+◌, ◌*◌, ◌^◌, ◌<◌, ◌≤◌, cond, List, length, slice_get, Some};
ghost use Rattle.std.specs.List.Sorted.{IsStrictlySortedBy};
ghost use Rattle.cola_runs.specs.Cells.{Cell, IsRising, IsWellFormed, count_looks, count_items, count_young};
ghost use Rattle.cola_runs.specs.Weave.{Part, own_items, weave};
ghost use Rattle.cola_runs.specs.Steps.{Build, Head, Take, Ended, begun, cells_left, rule, steps, IsUnderWay, IsAdvanced};

/// A build that has not begun is under way.
pub fn begun_build<K: Ord, V>()
    ensures { (part : Part) (own incoming : List (Cell K V)) (keys : List K) → IsUnderWay K.cmp part own incoming keys begun }
{}

/// In a build under way over runs in order and rising keys, `n` steps keep the cut. They consume exactly `n` source cells,
/// or all that were left, and emit at most one cell for each.
pub fn steps_advance<K: Ord, V>()
    ensures { (part : Part) (own incoming : List (Cell K V)) (keys : List K) → IsRising K.cmp own → IsRising K.cmp incoming → IsStrictlySortedBy K.cmp keys →
        (n : ℕ) (build : Build K V) → IsUnderWay K.cmp part own incoming keys build →
        IsAdvanced K.cmp part own incoming keys n build (steps K.cmp part own incoming keys n build) }
{}

/// A build under way with no source cell left has emitted the whole weave.
pub fn used_up_build<K: Ord, V>()
    ensures { (part : Part) (own incoming : List (Cell K V)) (keys : List K) (build : Build K V) → IsUnderWay K.cmp part own incoming keys build →
        cells_left own incoming keys build ≡ 0 → build.done ≡ weave K.cmp part own incoming keys }
{}

/// As many steps as there are source cells, or more, build the whole weave from nothing.
pub fn steps_build_weave<K: Ord, V>()
    ensures { (part : Part) (own incoming : List (Cell K V)) (keys : List K) → IsRising K.cmp own → IsRising K.cmp incoming → IsStrictlySortedBy K.cmp keys →
        (n : ℕ) → length own + length incoming + length keys ≤ n → (steps K.cmp part own incoming keys n begun).done ≡ weave K.cmp part own incoming keys }
{}

/// The lookahead cells that a build has emitted are as many as the sample keys that it has consumed. So the link of the
/// cell that it emits next, 8 times the sample cursor, counts the lookahead cells before it.
pub fn done_looks<K: Ord, V>()
    ensures { (part : Part) (own incoming : List (Cell K V)) (keys : List K) → IsStrictlySortedBy K.cmp keys →
        (build : Build K V) → IsUnderWay K.cmp part own incoming keys build → count_looks build.done ≡ build.sampled }
{}

/// What a build under way has emitted is a well-formed run with no more cells, items and young items than the whole weave
/// may have.
pub fn done_cells<K: Ord, V>()
    ensures formed { (part : Part) (own incoming : List (Cell K V)) (keys : List K) (build : Build K V) → IsRising K.cmp own →
        IsUnderWay K.cmp part own incoming keys build →
        IsWellFormed K.cmp build.done }
    ensures length { (part : Part) (own incoming : List (Cell K V)) (keys : List K) (build : Build K V) → IsUnderWay K.cmp part own incoming keys build →
        length build.done ≤ length (weave K.cmp part own incoming keys) }
    ensures items { (part : Part) (own incoming : List (Cell K V)) (keys : List K) (build : Build K V) → IsUnderWay K.cmp part own incoming keys build →
        count_items build.done ≤ own_items part own + count_items incoming }
    ensures young { (part : Part) (own incoming : List (Cell K V)) (keys : List K) (build : Build K V) → IsUnderWay K.cmp part own incoming keys build →
        count_young build.done ≤ cond part.marks_young (count_items incoming) 0 }
{}

/// While a rule emits a cell, what was emitted is shorter than the weave. So a build whose weave fits its slot never
/// finds it full. Where no rule fits, the whole weave was emitted.
pub fn rule_at_cursors<K: Ord, V>()
    ensures room { (part : Part) (own incoming : List (Cell K V)) (keys : List K) → IsRising K.cmp own → IsRising K.cmp incoming →
        IsStrictlySortedBy K.cmp keys →
        (build : Build K V) → IsUnderWay K.cmp part own incoming keys build → (head : Head) (cell : Cell K V) →
        rule K.cmp part (8 * build.sampled) (slice_get own build.own) (slice_get incoming build.incoming) (slice_get keys build.sampled) ≡
        Take head (Some cell) →
        length build.done < length (weave K.cmp part own incoming keys) }
    ensures ended { (part : Part) (own incoming : List (Cell K V)) (keys : List K) → IsRising K.cmp own → IsRising K.cmp incoming →
        IsStrictlySortedBy K.cmp keys →
        (build : Build K V) → IsUnderWay K.cmp part own incoming keys build →
        rule K.cmp part (8 * build.sampled) (slice_get own build.own) (slice_get incoming build.incoming) (slice_get keys build.sampled) ≡ Ended →
        build.done ≡ weave K.cmp part own incoming keys }
{}

/// No build overflows on its way: after any number of steps what was emitted fits the slot of level `j`, of
/// `2 ^ (j + 2)` cells, where its sources are as small as those of level `j` are.
pub fn steps_fit<K: Ord, V>()
    ensures { (part : Part) (own incoming : List (Cell K V)) (keys : List K) (j : ℕ) → IsRising K.cmp own →
        IsRising K.cmp incoming → IsStrictlySortedBy K.cmp keys →
        own_items part own ≤ 2 * 2 ^ j → count_items incoming ≤ 2 ^ j → length keys ≤ 2 ^ j →
        (n : ℕ) → length (steps K.cmp part own incoming keys n begun).done ≤ 2 ^ (j + 2) }
{}
