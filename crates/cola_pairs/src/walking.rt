//! Laws of a walk over runs, key by key.

ghost use Rattle.std.specs.Prelude.{◌≡◌, List, [], IsTrue};
ghost use Rattle.std.specs.declared.option.Option.{Option};
ghost use Rattle.std.specs.FinMap.{IsAntisymmetric};
ghost use Rattle.std.specs.List.{AllByRecursion};
ghost use Rattle.cola_runs.specs.Cells.{Cell, IsRising};
ghost use Rattle.cola_runs.specs.Seen.{answer};
ghost use Rattle.cola_pairs.specs.Live.{live, with_answer, below_end};
ghost use Rattle.cola_pairs.specs.Walk.{first_passed, pass_keys, HeadsFrom, HeadsPast, Walks};

/// What one step of a walk leaves: over runs in order none of which begins below a key, the live pairs are what the
/// runs have of that key, and then the live pairs behind its cells. Where no run begins below the upper end there is
/// no live pair. What the runs have of the key is the first item that the step passes. So a
/// walk gives the live pairs, in order, each once.
pub fn live_by_key<K: Ord, V>()
    ensures step { (hi : Option K) (k : K) (rests : List (List (Cell K V))) → IsAntisymmetric K.cmp → AllByRecursion (IsRising K.cmp) rests →
        IsTrue (below_end K.cmp hi k) → HeadsFrom K.cmp k rests →
        live K.cmp (below_end K.cmp hi) rests ≡ with_answer k (answer K.cmp k rests) (live K.cmp (below_end K.cmp hi) (pass_keys K.cmp k rests)) }
    ensures rising { (k : K) (rests : List (List (Cell K V))) → AllByRecursion (IsRising K.cmp) rests →
        AllByRecursion (IsRising K.cmp) (pass_keys K.cmp k rests) }
    ensures item { (k : K) (rests : List (List (Cell K V))) → AllByRecursion (IsRising K.cmp) rests → HeadsFrom K.cmp k rests →
        first_passed K.cmp k rests ≡ answer K.cmp k rests }
    ensures end { (hi : Option K) (rests : List (List (Cell K V))) → AllByRecursion (IsRising K.cmp) rests → HeadsPast K.cmp hi rests →
        live K.cmp (below_end K.cmp hi) rests ≡ [] }
    ensures walk { (hi : Option K) (rests : List (List (Cell K V))) (pairs : List (K × V)) → IsAntisymmetric K.cmp → AllByRecursion (IsRising K.cmp) rests →
        Walks K.cmp hi rests pairs → pairs ≡ live K.cmp (below_end K.cmp hi) rests }
{}
