//! The end of a window and the flips: what a finished shadow answers, and what becomes visible.

ghost use Rattle.std.specs.Prelude.{◌≡◌, ℕ, ◌+◌, ◌^◌, ◌≤◌, suc, true, false, List, ◌∷◌, length};
ghost use Rattle.std.specs.declared.option.Option.{Option};
ghost use Rattle.cola_clock.specs.Clock.{period, is_odd, flips};
ghost use Rattle.cola_runs.specs.Cells.{Item, Cell};
ghost use Rattle.cola_runs.specs.Seen.{seen};
ghost use Rattle.cola_runs.specs.Weave.{weave};
ghost use Rattle.cola_laws.specs.Chain.{Level, part_of, visibles, shadows, next_runs, first_keys, value_at, updated};
ghost use Rattle.cola_laws.specs.Sound.{Keeps, IsSettled, AreVisible, AreFew, IsFinished, AreKept, HaveShadows, IsAtRest, IsPaced, HasAtMost, IsSoundFrom, IsSound};
ghost use Rattle.cola_laws.specs.Mutation.{new_run, level_after, levels_after};

/// A finished shadow, followed by its next runs, answers as the run above it did, followed by the visible runs from its
/// level on, for every key of which the run above has no young item. This is the one induction from the top level to the
/// bottom on which the flips rest: in an odd period the old items that a shadow drops stand in the runs below it, which
/// flip with it.
pub fn finished_shadow_answers<K: Ord, V>()
    ensures { (most t j : ℕ) (above : List (Cell K V)) (level : Level K V) (below : List (Level K V)) →
        IsFinished K.cmp most (is_odd (period t j)) j above level.visible level.shadow below (next_runs t j below) →
        AreKept K.cmp most t (suc j) level.visible below →
        (q : K) → IsSettled (seen K.cmp q above) → value_at K.cmp (shadows t j (level ∷ below)) q ≡ value_at K.cmp (above ∷ visibles (level ∷ below)) q }
{}

/// What is visible after the flips of a mutation: from a level that flips on, the shadows as far as they flip, and then
/// the runs that stay.
pub fn flips_show_shadows<K, V>()
    ensures { (t j : ℕ) (levels : List (Level K V)) → flips t j ≡ true → visibles (levels_after t j levels) ≡ shadows t j levels }
{}

/// Every level of 1 and more that flips has a finished shadow.
pub fn flipping_levels_are_finished<K: Ord, V>()
    ensures { (most t j : ℕ) (above : List (Cell K V)) (below : List (Level K V)) → AreKept K.cmp most t (suc j) above below →
        HaveShadows K.cmp most t (suc j) above below }
{}

/// The end of the window of level `j + 1`, where level `j` flips out of an even period: with its last 28 steps the build
/// is whole, and it is a finished shadow under the run that level `j` then shows, which keeps all items of the one before.
/// `most` is the number of keys of the store, at most four for each of `2 ^ L`.
pub fn window_ends_finished<K: Ord, V>()
    ensures { (most t j : ℕ) (above above_next : List (Cell K V)) (level : Level K V) (below : List (Level K V)) →
        flips t j ≡ true → is_odd (period t j) ≡ false →
        ((q : K) → Keeps (seen K.cmp q above) (seen K.cmp q above_next)) → AreVisible K.cmp most t j (above ∷ visibles (level ∷ below)) →
        AreFew K.cmp most (above ∷ visibles (level ∷ below)) → most ≤ 2 ^ (j + suc (suc (length below)) + 1) →
        IsPaced K.cmp 28 t (suc j) above level below → AreKept K.cmp most t (suc (suc j)) level.visible below →
        IsFinished K.cmp most (is_odd (period t (suc j))) (suc j) above_next level.visible level.shadow below (next_runs t (suc j) below) }
{}

/// Once all steps of the mutation at clock `t` are done, and level 0 has its shadow built from the new item, the flips
/// give a chain that is sound at the next clock for the map with the one key changed.
pub fn flips_keep_soundness<K: Ord, V>()
    ensures { (most t : ℕ) (map : K → Option V) (k : K) (item : Item V) (top : Level K V) (below : List (Level K V)) →
        IsSoundFrom K.cmp most 28 t map top below → IsAtRest top →
        top.shadow ≡ weave K.cmp (part_of (is_odd (period t 0)) below) top.visible (new_run k item) (first_keys (next_runs t 0 below)) →
        most ≤ 2 ^ (length below + 2) → HasAtMost K.cmp most (updated K.cmp k item map) →
        IsSound K.cmp most (suc t) (updated K.cmp k item map) (level_after t 0 top) (levels_after t 1 below) }
{}
