//! Laws of the weave: the one list that a build makes of its own run, its incoming run and a sample.

ghost use Rattle.std.specs.Prelude.{◌≡◌, ℕ, ◌+◌, ◌*◌, ◌^◌, ◌≤◌, cond, List, [], ◌∷◌, length};
ghost use Rattle.std.specs.List.{AllByRecursion};
ghost use Rattle.std.specs.List.Sorted.{IsStrictlySortedBy};
ghost use Rattle.cola_runs.specs.Cells.{Cell, IsRising, IsWellFormed, IsOldValue, link_of, look_keys, count_looks, count_items, count_young};
ghost use Rattle.cola_runs.specs.Seen.{seen, holds, answer};
ghost use Rattle.cola_runs.specs.Weave.{Part, all_items, bottom_items, kept_or_none, own_items, weave, woven};

/// The weave at a key is the incoming item where there is one, and else the own item where the part takes it, with
/// the flag that the part gives it. A tombstone that the part leaves out leaves nothing.
pub fn weave_at_key<K: Ord, V>()
    ensures { (part : Part) (own incoming : List (Cell K V)) (keys : List K) (q : K) → IsRising K.cmp own →
        seen K.cmp q (weave K.cmp part own incoming keys) ≡ woven part (seen K.cmp q own) (holds (seen K.cmp q incoming)) }
{}

/// The weave over an own run in order is a well-formed run: its cells are in order, and its links count its
/// lookahead cells.
pub fn weave_is_formed<K: Ord, V>()
    ensures { (part : Part) (own incoming : List (Cell K V)) (keys : List K) → IsRising K.cmp own → IsWellFormed K.cmp (weave K.cmp part own incoming keys) }
{}

/// What a weave has: one lookahead cell for each key of the sample, at most the items that the part takes of its
/// two runs, and young items only where the part marks the incoming ones.
pub fn weave_counts<K: Ord, V>()
    ensures keys { (part : Part) (own incoming : List (Cell K V)) (keys : List K) → IsStrictlySortedBy K.cmp keys →
        look_keys (weave K.cmp part own incoming keys) ≡ keys }
    ensures looks { (part : Part) (own incoming : List (Cell K V)) (keys : List K) → IsStrictlySortedBy K.cmp keys →
        count_looks (weave K.cmp part own incoming keys) ≡ length keys }
    ensures items { (part : Part) (own incoming : List (Cell K V)) (keys : List K) →
        count_items (weave K.cmp part own incoming keys) ≤ own_items part own + count_items incoming }
    ensures young { (part : Part) (own incoming : List (Cell K V)) (keys : List K) →
        count_young (weave K.cmp part own incoming keys) ≤ cond part.marks_young (count_items incoming) 0 }
    ensures length { (part : Part) (own incoming : List (Cell K V)) (keys : List K) → IsStrictlySortedBy K.cmp keys →
        length (weave K.cmp part own incoming keys) ≤ own_items part own + count_items incoming + length keys }
{}

/// The weave of level `j` fits its slot of `2 ^ (j + 2)` cells, where the part takes at most `2 * 2 ^ j` own items, and
/// the incoming run has at most `2 ^ j` items and the sample at most `2 ^ j` keys.
pub fn weave_size<K: Ord, V>()
    ensures { (part : Part) (own incoming : List (Cell K V)) (keys : List K) (j : ℕ) → IsStrictlySortedBy K.cmp keys →
        own_items part own ≤ 2 * 2 ^ j → count_items incoming ≤ 2 ^ j → length keys ≤ 2 ^ j → length (weave K.cmp part own incoming keys) ≤ 2 ^ (j + 2) }
{}

/// Where all items are taken, the weave answers every key as the incoming run over the own run does.
pub fn merge_answer<K: Ord, V>()
    ensures { (own incoming : List (Cell K V)) (keys : List K) (q : K) → IsRising K.cmp own →
        holds (seen K.cmp q (weave K.cmp all_items own incoming keys)) ≡ answer K.cmp q (incoming ∷ own ∷ []) }
{}

/// A bottom's weave has the values of the merge and nothing else: every cell is an old value with link 0, and a key has
/// the item of the incoming run over the own run, but for tombstones, which are left out.
pub fn bottom_weave<K: Ord, V>()
    ensures values { (own incoming : List (Cell K V)) → AllByRecursion (λ c. IsOldValue c × (link_of c ≡ 0)) (weave K.cmp bottom_items own incoming []) }
    ensures answers { (own incoming : List (Cell K V)) (q : K) → IsRising K.cmp own →
        holds (seen K.cmp q (weave K.cmp bottom_items own incoming [])) ≡ kept_or_none bottom_items (answer K.cmp q (incoming ∷ own ∷ [])) }
{}
