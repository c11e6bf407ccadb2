//! Laws of walks over open stores. Each function does nothing: its clauses are the law.
ghost use Rattle.cola_store.specs.Laws.{FallingWalksTurnWithinARange, WalksTurnWithinARange};

use cola_device::Device;

/// A range and the answered calls on its walk turn to at most one block for each tick that a whole range may make, and write
/// none.
pub fn walks_turn_within_a_range<D: Device>()
    ensures { WalksTurnWithinARange D.Device }
{}

/// The same of a range by falling keys.
pub fn falling_walks_turn_within_a_range<D: Device>()
    ensures { FallingWalksTurnWithinARange D.Device }
{}
