//! Laws of mirrors, and of first differences. Each function does nothing: its clauses are the law.
ghost use Rattle.std.specs.Prelude.{◌≡◌, ◌↔◌, true, ℕ, List, Some, None};
ghost use Rattle.cola_outside.specs.Faults.{Rose};
ghost use Rattle.cola_device.specs.Settling.{IsSettled};
ghost use Rattle.cola_mirror.specs.Sides.{has_first, has_second};
ghost use Rattle.cola_mirror.specs.Mirror.{Pair, bytes_of, IsSound};
ghost use Rattle.cola_mirror.specs.Settled.{SidesSettled};
ghost use Rattle.cola_mirror.specs.Differ.{first_difference, DifferAt};

use crate::mirror::Mirror;
use cola_device::Device;

/// A side that met no fault since the mirror was made is in use, and the mirror met none.
pub fn calm_side_is_in_use<D: Device, E: Device>()
    ensures first { (pair : Pair D E) → IsSound D.Device E.Device pair →
        ¬ Rose pair.first_faults (D.counts pair.first).faults → (has_first pair.sides ≡ true) × (pair.counts.faults ≡ 0) }
    ensures second { (pair : Pair D E) → IsSound D.Device E.Device pair →
        ¬ Rose pair.second_faults (E.counts pair.second).faults → (has_second pair.sides ≡ true) × (pair.counts.faults ≡ 0) }
{}

/// A mirror that is settled with the bytes that it has settled so: each side that was in use behind that settled with them.
pub fn sides_of_a_settled_mirror<D: Device, E: Device>()
    ensures { (now : Pair D E) → IsSettled ⟦<Mirror<D, E> as Device>⟧ now →
        SidesSettled D.Device E.Device (bytes_of D.Device E.Device now) }
{}

/// Two lists have no first difference exactly where they are the same, and a place is the first exactly where they have the
/// same items before it and not the same there.
pub fn first_difference_is_the_first()
    ensures none { (xs ys : List ℕ) → first_difference xs ys ≡ None ↔ xs ≡ ys }
    ensures some { (xs ys : List ℕ) (place : ℕ) →
        first_difference xs ys ≡ Some place ↔ DifferAt xs ys place }
{}
