//! One mutation, a refused one, and whole runs of mutations.

ghost use Rattle.std.specs.Prelude.{◌≡◌, ℕ, ◌+◌, ◌^◌, ◌≤◌, suc, true, false, Bool, List, [], ◌∷◌, length};
ghost use Rattle.std.specs.declared.option.Option.{Option};
ghost use Rattle.std.specs.declared.option.Option.TheVariants.{None};
ghost use Rattle.cola_runs.specs.Cells.{Item, Cell};
ghost use Rattle.cola_clock.specs.Clock.{period, is_odd, works};
ghost use Rattle.cola_runs.specs.Steps as steps;
ghost use Rattle.cola_laws.specs.Chain.{Level, part_of, build_of, visibles, next_runs, first_keys, updated, value_at};
ghost use Rattle.cola_laws.specs.Sound.{IsBottomRun, IsIdle, IsPaced, ArePaced, HasAtMost, IsSoundFrom, IsSound};
ghost use Rattle.cola_laws.specs.Mutation.{level_after, levels_after, IsAdvanced, AreAdvanced, IsBuilt, IsWorkable};
ghost use Rattle.cola_laws.specs.Plain.{empty_levels, loaded, mutated, clock_after, all_mutated, all_updated, StayWithin, IsSoundChain};

/// While levels take steps, of which the visible runs and the finished shadows see nothing, a sound chain stays sound and
/// is then so many steps ahead of the clock: `ahead` is 28 for a mutation, and 0 for one that is refused on its way.
pub fn steps_keep_soundness<K: Ord, V>()
    ensures { (most ahead t : ℕ) (map : K → Option V) (top top_after : Level K V) (below below_after : List (Level K V)) →
        IsSoundFrom K.cmp most 0 t map top below →
        top_after.visible ≡ top.visible → AreAdvanced K.cmp ahead t 1 top.visible below below_after → IsSoundFrom K.cmp most ahead t map top_after below_after }
{}

/// How far steps count: a level that is so many steps further is fewer steps further too, and levels that take no step are
/// none further.
pub fn fewer_steps_count<K: Ord, V>()
    ensures fewer { (ahead less t j : ℕ) (above : List (Cell K V)) (before after : List (Level K V)) → less ≤ ahead →
        AreAdvanced K.cmp ahead t j above before after →
        AreAdvanced K.cmp less t j above before after }
    ensures none { (ahead t j : ℕ) (above : List (Cell K V)) (levels : List (Level K V)) → ArePaced K.cmp ahead t j above levels →
        AreAdvanced K.cmp 0 t j above levels levels }
{}

/// While levels work, what the level above them merges stays: its next runs, whose first it samples, and the part of its
/// items that it takes. No visible run of theirs changes, and no shadow that is sampled.
pub fn sources_stay_while_levels_work<K: Ord, V>()
    ensures next_runs { (ahead t j : ℕ) (above : List (Cell K V)) (before after : List (Level K V)) → AreAdvanced K.cmp ahead t (suc j) above before after →
        next_runs t j before ≡ next_runs t j after }
    ensures part { (ahead t j : ℕ) (odd : Bool) (above : List (Cell K V)) (before after : List (Level K V)) →
        AreAdvanced K.cmp ahead t (suc j) above before after →
        part_of odd before ≡ part_of odd after }
    ensures visible { (ahead t j : ℕ) (above : List (Cell K V)) (before after : List (Level K V)) → AreAdvanced K.cmp ahead t (suc j) above before after →
        visibles before ≡ visibles after }
{}

/// How one level takes its steps: a level that works, and whose build goes on by so many steps of the merge, is advanced by
/// so many; one that does not work stays as it is; and one that is advanced by so many is advanced by fewer.
pub fn one_level_advances<K: Ord, V>()
    ensures works { (count t j : ℕ) (above : List (Cell K V)) (before after : Level K V) (below : List (Level K V)) → works t j ≡ true →
        IsPaced K.cmp 0 t j above before below →
        IsWorkable K.cmp (part_of (is_odd (period t j)) below) j before.visible above (first_keys (next_runs t j below)) → after.visible ≡ before.visible →
        steps.IsAdvanced K.cmp (part_of (is_odd (period t j)) below) before.visible above (first_keys (next_runs t j below)) count (build_of before)
        (build_of after) →
        IsAdvanced K.cmp count t j above before below after }
    ensures rests { (count t j : ℕ) (above : List (Cell K V)) (level : Level K V) (below : List (Level K V)) → works t j ≡ false →
        IsAdvanced K.cmp count t j above level below level }
    ensures fewer { (ahead less t j : ℕ) (above : List (Cell K V)) (before after : Level K V) (below : List (Level K V)) → less ≤ ahead →
        IsAdvanced K.cmp ahead t j above before below after → IsAdvanced K.cmp less t j above before below after }
{}

/// One mutation keeps a sound chain sound, at any clock: 28 steps of each working level, level 0 built whole with the new
/// item, and the flips give a chain that is sound at the next clock for the map with that key changed. The store has at
/// least level 0 and one more, and is for at most `2 ^ (L + 2)` keys; the new map has at most so many.
pub fn one_mutation_keeps<K: Ord, V>()
    ensures { (most t : ℕ) (map : K → Option V) (k : K) (item : Item V) (top built : Level K V) (below worked : List (Level K V)) →
        IsSound K.cmp most t map top below →
        IsBuilt K.cmp t k item top below built → AreAdvanced K.cmp 28 t 1 top.visible below worked → most ≤ 2 ^ (length below + 2) →
        HasAtMost K.cmp most (updated K.cmp k item map) → IsSound K.cmp most (suc t) (updated K.cmp k item map)
        (level_after t 0 built) (levels_after t 1 worked) }
{}

/// A refused mutation keeps a sound chain sound for the same map at the same clock, whichever levels have taken how many
/// steps, as long as level 0 is idle again.
pub fn refused_mutation_keeps<K: Ord, V>()
    ensures { (most t : ℕ) (map : K → Option V) (top top_after : Level K V) (below below_after : List (Level K V)) → IsSound K.cmp most t map top below →
        top_after.visible ≡ top.visible → IsIdle top_after → AreAdvanced K.cmp 0 t 1 top.visible below below_after →
        IsSound K.cmp most t map top_after below_after }
{}

/// The chain of empty levels is sound for the empty map at clock 0.
pub fn empty_chain_is_sound<K: Ord, V>()
    ensures { (most n : ℕ) → IsSoundChain K.cmp most 0 (λ (q : K). None) (empty_levels {K = K} {V = V} (suc n)) }
{}

/// A chain whose bottom alone has items, all levels above with the sample of the run below as lookahead cells and empty
/// shadows, is sound at clock 0 for the map that the bottom's run gives.
pub fn loaded_chain_is_sound<K: Ord, V>()
    ensures { (most n : ℕ) (run : List (Cell K V)) → IsBottomRun K.cmp most run → IsSoundChain K.cmp most 0 (value_at K.cmp (run ∷ [])) (loaded (suc n) run) }
{}

/// The plain program for one mutation keeps a sound chain sound, and so does any list of mutations, each of which leaves a
/// map of at most as many keys as the store is for, at a clock counted modulo `2 ^ (L + 1)`.
pub fn whole_runs_keep<K: Ord, V>()
    ensures one { (most t : ℕ) (map : K → Option V) (k : K) (item : Item V) (levels : List (Level K V)) →
        IsSoundChain K.cmp most t map levels → most ≤ 2 ^ (length levels + 1) →
        HasAtMost K.cmp most (updated K.cmp k item map) → IsSoundChain K.cmp most (suc t) (updated K.cmp k item map) (mutated K.cmp 28 t k item levels) }
    ensures all { (most : ℕ) (changes : List (K × Item V)) (t : ℕ) (map : K → Option V) (levels : List (Level K V)) →
        IsSoundChain K.cmp most t map levels → most ≤ 2 ^ (length levels + 1) →
        StayWithin K.cmp most changes map → IsSoundChain K.cmp most (clock_after (length levels) t changes)
        (all_updated K.cmp changes map) (all_mutated K.cmp t changes levels) }
{}
