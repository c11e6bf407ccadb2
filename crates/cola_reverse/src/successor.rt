//! The law of the next string of bytes.

ghost use Rattle.std.specs.Prelude.{◌≡◌, ◌++◌, ℕ, List, [], ◌∷◌};
ghost use Rattle.std.specs.Ordering.{is_le, is_lt, nat_cmp};
ghost use Rattle.std.specs.Cmp.Lexicographic.{slice_cmp};

/// A string of bytes is at most another one exactly where it is below that one with a zero byte behind it. So a
/// search for the first key above `q` is that for the first key that is at least `q` and a zero byte, whether or not
/// that is a key.
pub fn next_of_bytes()
    ensures { (k q : List ℕ) → is_lt (slice_cmp nat_cmp k (q ++ 0 ∷ [])) ≡ is_le (slice_cmp nat_cmp k q) }
{}
