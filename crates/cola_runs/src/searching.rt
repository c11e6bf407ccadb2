//! Laws of the search: where it stops in a run, and what it finds in a list of runs.

ghost use Rattle.std.specs.Prelude.{◌≡◌, ℕ, ◌+◌, ◌≤◌, List, ◌∷◌, length, slice_get};
ghost use Rattle.cola_runs.specs.Cells.{Cell, IsRising, IsWellFormed, look_keys, sample};
ghost use Rattle.cola_runs.specs.Seen.{seen, holds, answer};
ghost use Rattle.cola_runs.specs.Search.{AreSampled, find, hit_of, link_at, place, stop};

/// A search that begins at most 7 cells before the first cell at or above the key, or before the end where there is
/// none, stops there.
pub fn stop_at_place<K: Ord, V>()
    ensures { (run : List (Cell K V)) (q : K) (start : ℕ) → start ≤ place K.cmp q run → place K.cmp q run ≤ start + 7 →
        stop K.cmp q start run ≡ place K.cmp q run }
{}

/// In a run in order, the item of a key is the item of the first cell at or above the key, or there is none.
pub fn seat_of_key<K: Ord, V>()
    ensures { (run : List (Cell K V)) (q : K) → IsRising K.cmp run → hit_of K.cmp q (slice_get run (place K.cmp q run)) ≡ holds (seen K.cmp q run) }
{}

/// Between two neighbouring runs in which the lookahead cells of the upper are the sample of the lower: the first cell
/// of the lower run at or above a key lies among the 8 cells from the link where the search of the upper run stops, or
/// the end of the lower run does.
pub fn place_in_window<K: Ord, V>()
    ensures above { (upper lower : List (Cell K V)) (q : K) → IsWellFormed K.cmp upper → IsRising K.cmp lower → look_keys upper ≡ sample lower →
        link_at upper (length lower) (place K.cmp q upper) ≤ place K.cmp q lower }
    ensures below { (upper lower : List (Cell K V)) (q : K) → IsWellFormed K.cmp upper → IsRising K.cmp lower → look_keys upper ≡ sample lower →
        place K.cmp q lower ≤ link_at upper (length lower) (place K.cmp q upper) + 7 }
{}

/// The search of well-formed runs, each with the sample of the next, gives the answer of the runs, where it begins at most
/// 7 cells before the first cell of the first run at or above the key. A first run of at most 7 cells is searched from 0.
pub fn find_answer<K: Ord, V>()
    ensures begun { (run : List (Cell K V)) (runs : List (List (Cell K V))) (q : K) (start : ℕ) → AreSampled K.cmp (run ∷ runs) →
        start ≤ place K.cmp q run → place K.cmp q run ≤ start + 7 → find K.cmp q start (run ∷ runs) ≡ answer K.cmp q (run ∷ runs) }
    ensures small { (run : List (Cell K V)) (runs : List (List (Cell K V))) (q : K) → AreSampled K.cmp (run ∷ runs) → length run ≤ 7 →
        find K.cmp q 0 (run ∷ runs) ≡ answer K.cmp q (run ∷ runs) }
{}
