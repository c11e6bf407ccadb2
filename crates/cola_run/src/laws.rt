//! What a store tells.
ghost use Rattle.std.specs.Prelude.{◌≡◌, true};
ghost use Rattle.cola_cell.specs.Held.{IsTelling};
ghost use Rattle.cola_run.specs.Store.{Store, held_of};

use cola_device::Device;

/// A store over a device that tells its bytes tells every place.
pub fn every_place_is_told<D: Device>()
    ensures { D.tells ≡ true → (store : Store D) → IsTelling (held_of D.bytes store) }
{}
