//! The builds of a sound chain: they can be done, in time, and overflow no slot.

ghost use Rattle.std.specs.Prelude.{◌≡◌, if◌then◌else◌, ℕ, ◌+◌, ◌^◌, ◌≤◌, suc, List, [], ◌∷◌, length};
ghost use Rattle.std.specs.declared.option.Option.{Option};
ghost use Rattle.std.specs.List.{AllByRecursion};
ghost use Rattle.std.specs.List.Sorted.{IsStrictlySortedBy};
ghost use Rattle.cola_clock.specs.Clock.{period, is_odd};
ghost use Rattle.cola_runs.specs.Cells.{Item, Cell, IsRising, IsOldValue, sample};
ghost use Rattle.cola_runs.specs.Weave.{Part};
ghost use Rattle.cola_runs.specs.Steps.{Build, consumed, IsUnderWay};
ghost use Rattle.cola_runs.specs.Steps as steps;
ghost use Rattle.cola_laws.specs.Chain.{Level, part_of, visibles, next_runs, first_keys};
ghost use Rattle.cola_laws.specs.Sound.{AreVisible, AreFew, IsFinished, AreKept, IsWorking, IsSoundFrom};
ghost use Rattle.cola_laws.specs.Mutation.{IsBuildable, AreWorkable, new_run};

/// What a build samples: in an odd period the shadow of the level below, in an even one its visible run, and nothing at
/// the bottom.
pub fn builds_sample_one_run<K, V>()
    ensures above_bottom { (t j : ℕ) (next : Level K V) (below : List (Level K V)) →
        first_keys (next_runs t j (next ∷ below)) ≡ sample (if is_odd (period t j) then next.shadow else next.visible) }
    ensures at_bottom { (t j : ℕ) → first_keys (next_runs {K = K} {V = V} t j []) ≡ [] }
{}

/// Each level of a sound chain that works at its clock has a build that it can do: its sources are in order, their weave
/// fits its slot, and 28 steps for each mutation of its window are enough.
pub fn builds_can_be_done<K: Ord, V>()
    ensures { (most ahead t : ℕ) (map : K → Option V) (top : Level K V) (below : List (Level K V)) →
        IsSoundFrom K.cmp most ahead t map top below → most ≤ 2 ^ (length below + 2) →
        AreWorkable K.cmp t 1 top.visible below }
{}

/// Level 0 of a sound chain, which has one more level below it, can be built whole with any new item.
pub fn top_can_be_built<K: Ord, V>()
    ensures { (most ahead t : ℕ) (map : K → Option V) (k : K) (item : Item V) (top next : Level K V) (below : List (Level K V)) →
        IsSoundFrom K.cmp most ahead t map top (next ∷ below) →
        most ≤ 2 ^ (length (next ∷ below) + 2) →
        IsBuildable K.cmp (part_of (is_odd (period t 0)) (next ∷ below)) 0 top.visible (new_run k item) (first_keys (next_runs t 0 (next ∷ below))) }
{}

/// No such build overflows on its way: what it has emitted after any of its steps fits the slot of its level.
pub fn no_build_overflows<K: Ord, V>()
    ensures { (part : Part) (j : ℕ) (own incoming : List (Cell K V)) (keys : List K) (build : Build K V) → IsBuildable K.cmp part j own incoming keys →
        IsUnderWay K.cmp part own incoming keys build → length build.done ≤ 2 ^ (j + 2) }
{}

/// A build inside its window that goes on by so many steps of the merge is one that has consumed so many source cells
/// more, or all that were left; and one that has done so many steps has done fewer.
pub fn steps_go_on<K: Ord, V>()
    ensures steps { (part : Part) (own incoming : List (Cell K V)) (keys : List K) (least count : ℕ) (before after : Build K V) →
        IsRising K.cmp own → IsRising K.cmp incoming →
        IsStrictlySortedBy K.cmp keys → IsWorking K.cmp part own incoming keys least before → steps.IsAdvanced K.cmp part own incoming keys count before after →
        IsWorking K.cmp part own incoming keys (consumed before + count) after }
    ensures fewer { (part : Part) (own incoming : List (Cell K V)) (keys : List K) (least less : ℕ) (build : Build K V) → less ≤ least →
        IsWorking K.cmp part own incoming keys least build → IsWorking K.cmp part own incoming keys less build }
{}

/// The visible run of each level, and its shadow where that is finished, fit its slots of `2 ^ (j + 2)` cells.
pub fn runs_fit_their_slots<K: Ord, V>()
    ensures visible { (most t j : ℕ) (level : Level K V) (below : List (Level K V)) →
        AreVisible K.cmp most t j (visibles (level ∷ below)) → most ≤ 2 ^ (j + suc (length below) + 1) →
        length level.visible ≤ 2 ^ (j + 2) }
    ensures finished { (most t j : ℕ) (above : List (Cell K V)) (level : Level K V) (below : List (Level K V)) →
        AreVisible K.cmp most t (suc j) (visibles below) →
        AreKept K.cmp most t (suc j) level.visible below →
        IsFinished K.cmp most (is_odd (period t j)) j above level.visible level.shadow below (next_runs t j below) →
        most ≤ 2 ^ (j + suc (length below) + 1) → length level.shadow ≤ 2 ^ (j + 2) }
{}

/// A run of old values that answers alone has at most as many cells as there may be live keys. So the bottom's run has at
/// most one cell for each key of the store.
pub fn bottom_is_short<K: Ord, V>()
    ensures { (most : ℕ) (run : List (Cell K V)) → IsRising K.cmp run → AllByRecursion IsOldValue run → AreFew K.cmp most (run ∷ []) → length run ≤ most }
{}
