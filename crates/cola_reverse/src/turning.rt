//! The law of a walk that turns.

ghost use Rattle.std.specs.Prelude.{◌≡◌, ◌++◌, List, [], ◌∷◌, filter, reverse};
ghost use Rattle.std.specs.declared.option.Option.{Option};
ghost use Rattle.std.specs.declared.ops.Bound.{Bound};
ghost use Rattle.std.specs.declared.ops.Bound.TheVariants.{Included};
ghost use Rattle.cola_pairs.specs.Live.{KeysRise};
ghost use Rattle.cola_reverse.specs.Falling.{falling_pairs, within_bounds};

/// Who turns at the last key that a range gave gets back what it gave: of a sorted list, the pairs from the lower end of
/// the range up to that key fall as the given ones, reversed.
pub fn turned_gives_back<K: Ord, X>()
    ensures { (lo : Option K) (hi : Bound K) (pairs given rest : List (K × X)) (k : K) (x : X) → KeysRise K.cmp pairs →
        filter (λ pair. within_bounds K.cmp lo hi pair.0) pairs ≡ (given ++ (k, x) ∷ []) ++ rest →
        falling_pairs K.cmp lo (Included k) pairs ≡ (k, x) ∷ reverse given }
{}
