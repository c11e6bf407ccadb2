//! Laws of the sample: the keys of every eighth cell of a run.

ghost use Rattle.std.specs.Prelude.{◌≡◌, ℕ, ◌+◌, ◌*◌, ◌/◌, List, length, slice_get};
ghost use Rattle.std.specs.List.Sorted.{IsStrictlySortedBy};
ghost use Rattle.std.specs.Option.{option_map};
ghost use Rattle.cola_runs.specs.Cells.{Cell, IsRising, key_of, sample};

/// The keys of the sample of a run in order rise.
pub fn sample_keys<K: Ord, V>()
    ensures { (run : List (Cell K V)) → IsRising K.cmp run → IsStrictlySortedBy K.cmp (sample run) }
{}

/// The sample of a run has a key for each whole eight of its cells, and the key of number `i` is that of the cell at index
/// `8 * i + 7`.
pub fn sample_cells<K, V>()
    ensures length { (run : List (Cell K V)) → length (sample run) ≡ length run / 8 }
    ensures at { (run : List (Cell K V)) (i : ℕ) → slice_get (sample run) i ≡ option_map key_of (slice_get run (8 * i + 7)) }
{}
