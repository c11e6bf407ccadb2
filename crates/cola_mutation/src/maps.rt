//! What the laws of levels have of the keys of a finite map. Each function does nothing: its clauses are the law.

ghost use Rattle.std.specs.Prelude.{ℕ, ◌≤◌};
ghost use Rattle.cola_cell.specs.Order.{key_cmp};
ghost use Rattle.cola_laws.specs.Sound.{HasAtMost};
ghost use Rattle.cola_spec.specs.Map.{Map, count};
ghost use Rattle.cola_image.specs.Standing.{found_in};
ghost use Rattle.cola_mutation.specs.Laws.{PutUpdatesOneKey, DeleteUpdatesOneKey};

/// A put that is accepted, and a delete, change one key of the map.
pub fn one_key_is_updated()
    ensures put { PutUpdatesOneKey }
    ensures delete { DeleteUpdatesOneKey }
{}

/// A map of at most so many keys has at most so many for the laws.
pub fn few_keys_are_few()
    ensures { (most : ℕ) (m : Map) → count m ≤ most → HasAtMost key_cmp most (found_in m) }
{}
