//! What soundness reads of a chain and of the clock, and how many keys it lets live.

ghost use Rattle.std.specs.Prelude.{◌≡◌, ℕ, ◌%◌, ◌^◌, ◌≤◌, suc, List, ◌∷◌, length, IsSome};
ghost use Rattle.std.specs.declared.option.Option.{Option};
ghost use Rattle.std.specs.List.Sorted.{IsStrictlySortedBy};
ghost use Rattle.cola_clock.specs.Clock.{SameSchedule};
ghost use Rattle.cola_runs.specs.Cells.{Item, Cell};
ghost use Rattle.cola_runs.specs.Seen.{value_of, AtMost};
ghost use Rattle.cola_runs.specs.Search.{AreSampled};
ghost use Rattle.cola_laws.specs.Chain.{Level, visibles, value_at};
ghost use Rattle.cola_laws.specs.Alike.{AreAlike};
ghost use Rattle.cola_laws.specs.Sound.{AreVisible, AreKept, IsAmong, HasAtMost, IsSoundFrom, IsSound};

/// Soundness reads only the parities of the periods, the visible runs, and the shadows of levels whose window is over:
/// two chains that agree there, at two clocks, say the same of their visible runs, of every key and of their shadows. So
/// it reads no cursor of a level whose window is over, and no cell of a shadow that is not finished.
pub fn sound_reads<K: Ord, V>()
    ensures runs { (most t u j : ℕ) (before after : List (Level K V)) → AreAlike t u j before after → AreVisible K.cmp most t j (visibles before) →
        AreVisible K.cmp most u j (visibles after) }
    ensures answers { (t u j : ℕ) (before after : List (Level K V)) → AreAlike t u j before after → (q : K) →
        value_at K.cmp (visibles before) q ≡ value_at K.cmp (visibles after) q }
    ensures shadows { (most t u j : ℕ) (above : List (Cell K V)) (before after : List (Level K V)) → AreAlike t u j before after →
        AreKept K.cmp most t j above before →
        AreKept K.cmp most u j above after }
{}

/// A chain is as sound at any clock that no level can tell from its own, with its merges under way: the clock may be
/// counted modulo `2 ^ (L + 1)`, where `L` is the number of the bottom.
pub fn clock_may_wrap<K: Ord, V>()
    ensures same_schedule { (most t u : ℕ) (map : K → Option V) (top : Level K V) (below : List (Level K V)) →
        ((j : ℕ) → j ≤ length below → SameSchedule t u j) →
        IsSound K.cmp most t map top below → IsSound K.cmp most u map top below }
    ensures wrap { (most t : ℕ) (map : K → Option V) (top : Level K V) (below : List (Level K V)) → IsSound K.cmp most t map top below →
        IsSound K.cmp most (t % 2 ^ suc (length below)) map top below }
{}

/// The visible runs of a sound chain are in the state that a search by links wants: each is well formed, and its
/// lookahead cells are the sample of the next.
pub fn visible_runs_are_searched<K: Ord, V>()
    ensures { (most ahead t : ℕ) (map : K → Option V) (top : Level K V) (below : List (Level K V)) → IsSoundFrom K.cmp most ahead t map top below →
        AreSampled K.cmp (visibles (top ∷ below)) }
{}

/// How many keys live: lists of runs of equal values have equally many live keys; a map that a chain is sound for has at
/// most as many keys as the store is for; and a map all of whose keys are among a rising list has at most as many.
pub fn few_live_keys<K: Ord, V>()
    ensures same { (most : ℕ) (f g : K → Option (Item V)) → ((q : K) → value_of (f q) ≡ value_of (g q)) → AtMost K.cmp most f → AtMost K.cmp most g }
    ensures sound { (most ahead t : ℕ) (map : K → Option V) (top : Level K V) (below : List (Level K V)) →
        IsSoundFrom K.cmp most ahead t map top below → HasAtMost K.cmp most map }
    ensures among { (held : List K) (map : K → Option V) → IsStrictlySortedBy K.cmp held →
        ((k : K) → IsSome (map k) → IsAmong K.cmp k held) → HasAtMost K.cmp (length held) map }
{}
