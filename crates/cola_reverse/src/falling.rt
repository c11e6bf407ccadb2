//! Laws of walks over the live pairs in falling order.

ghost use Rattle.std.specs.Prelude.{◌≡◌, ◌&&◌, ◌++◌, Bool, List, [], map, reverse, IsTrue};
ghost use Rattle.std.specs.Ordering.{flip_args};
ghost use Rattle.std.specs.declared.option.Option.{Option};
ghost use Rattle.std.specs.FinMap.{IsAntisymmetric};
ghost use Rattle.std.specs.List.{AllByRecursion};
ghost use Rattle.cola_runs.specs.Cells.{Cell, IsRising};
ghost use Rattle.cola_runs.specs.Seen.{answer};
ghost use Rattle.cola_pairs.specs.Live.{live, with_answer, below_end};
ghost use Rattle.cola_pairs.specs.Walk.{first_passed, WalksWithin};
ghost use Rattle.cola_reverse.specs.Falling.{fronts_below, from_low, leave_keys, LastsUpTo};

/// What one step of a falling walk leaves: where no run ends with a key above `k`, the live pairs are those of the
/// runs without the cells of `k` at their ends, and last what the runs have of `k`, which is the first item that the
/// step passes. So a walk from the upper end down gives the live pairs from the last one on, each once.
pub fn live_by_key_falling<K: Ord, V>()
    ensures step { (within : K → Bool) (k : K) (runs : List (List (Cell K V))) → IsAntisymmetric K.cmp →
        AllByRecursion (IsRising K.cmp) runs → IsTrue (within k) → LastsUpTo K.cmp k runs →
        live K.cmp within runs ≡ live K.cmp within (leave_keys K.cmp k runs) ++ with_answer k (answer K.cmp k runs) [] }
    ensures rising { (k : K) (runs : List (List (Cell K V))) → AllByRecursion (IsRising K.cmp) runs →
        AllByRecursion (IsRising K.cmp) (leave_keys K.cmp k runs) }
    ensures item { (k : K) (runs : List (List (Cell K V))) → AllByRecursion (IsRising K.cmp) runs → LastsUpTo K.cmp k runs →
        first_passed (flip_args K.cmp) k (map reverse runs) ≡ answer K.cmp k runs }
    ensures reversed { (within : K → Bool) (runs : List (List (Cell K V))) → IsAntisymmetric K.cmp → AllByRecursion (IsRising K.cmp) runs →
        live (flip_args K.cmp) within (map reverse runs) ≡ reverse (live K.cmp within runs) }
    ensures walk { (lo hi : Option K) (runs : List (List (Cell K V))) (pairs : List (K × V)) → IsAntisymmetric K.cmp → AllByRecursion (IsRising K.cmp) runs →
        WalksWithin (flip_args K.cmp) (from_low K.cmp lo) (map reverse (fronts_below K.cmp hi runs)) pairs →
        pairs ≡ reverse (live K.cmp (λ k. from_low K.cmp lo k && below_end K.cmp hi k) runs) }
{}
