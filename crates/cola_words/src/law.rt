//! What the definitions promise of themselves.
ghost use Rattle.std.specs.Prelude.{◌≡◌, ◌+◌, ◌∷◌, ℕ, List, min};
ghost use Rattle.cola_layout.specs.Geometry.{IsBottom};
ghost use Rattle.cola_words.specs.declared.options.Given.{Given};
ghost use Rattle.cola_words.specs.declared.options.Options.{Options};
ghost use Rattle.cola_words.specs.Options.{with_all};
ghost use Rattle.cola_words.specs.Sizes.{block_limit};

/// Options may stand in any order: to exchange two neighbours changes neither what they say nor whether
/// they are refused.
pub fn options_in_any_order()
    ensures { (o : Options) (a b : Given) (givens : List Given) →
        with_all o (a ∷ b ∷ givens) ≡ with_all o (b ∷ a ∷ givens) }
{}

/// The limit of a block is the smaller of 9 and the number of the lowest level plus 2.
pub fn blocks_suit_levels()
    ensures { (keys bottom : ℕ) → IsBottom keys bottom → block_limit keys ≡ min 9 (bottom + 2) }
{}
