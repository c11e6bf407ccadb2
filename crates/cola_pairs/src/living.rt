//! Laws of the live pairs: what they have of a key, and what they are of a sorted list and of runs from a key on.

ghost use Rattle.std.specs.Prelude.{◌≡◌, Bool, cond, List, filter, None};
ghost use Rattle.std.specs.declared.option.Option.{Option};
ghost use Rattle.std.specs.FinMap.{find, IsAntisymmetric};
ghost use Rattle.std.specs.List.{AllByRecursion};
ghost use Rattle.cola_runs.specs.Cells.{Cell, IsRising};
ghost use Rattle.cola_runs.specs.Seen.{answer, value_of};
ghost use Rattle.cola_pairs.specs.Live.{live, rests_from, KeysRise, KeepsTies, between, below_end};

/// The live pairs have of a key within the value of the runs' answer, if it is one, and nothing of any other key.
/// Their keys rise, so each stands once.
pub fn live_at_key<K: Ord, V>()
    ensures find { (within : K → Bool) (runs : List (List (Cell K V))) (q : K) → KeepsTies K.cmp within →
        find K.cmp q (live K.cmp within runs) ≡ cond (within q) (value_of (answer K.cmp q runs)) None }
    ensures rise { (within : K → Bool) (runs : List (List (Cell K V))) → KeysRise K.cmp (live K.cmp within runs) }
{}

/// A sorted list of pairs that has of each key the value of the runs' answer has within an interval the live pairs of
/// the runs there. So the visible runs of a chain that is sound for a map have the pairs of that map.
pub fn live_of_entries<K: Ord, V>()
    ensures { (within : K → Bool) (runs : List (List (Cell K V))) (entries : List (K × V)) → IsAntisymmetric K.cmp → KeysRise K.cmp entries →
        ((q : K) → find K.cmp q entries ≡ value_of (answer K.cmp q runs)) → filter (λ e. within e.0) entries ≡ live K.cmp within runs }
{}

/// In runs in order, the live pairs of an interval are those below its upper end in the runs from the first cell on
/// whose key is at least the lower end.
pub fn live_from_places<K: Ord, V>()
    ensures { (lo : K) (hi : Option K) (runs : List (List (Cell K V))) → AllByRecursion (IsRising K.cmp) runs →
        live K.cmp (between K.cmp lo hi) runs ≡ live K.cmp (below_end K.cmp hi) (rests_from K.cmp lo runs) }
{}
