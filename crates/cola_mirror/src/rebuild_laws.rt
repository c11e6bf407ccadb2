//! Laws of a rebuild. Each function does nothing: its clauses are the law.
ghost use Rattle.std.specs.Prelude.{◌≡◌, ◌≢◌, ℕ, List, length, Some, Result};
ghost use Rattle.cola_mirror.specs.declared.fault.RebuildFault.{RebuildFault as AnyFault};
ghost use Rattle.cola_mirror.specs.Rebuild.{Rebuilds};
ghost use Rattle.cola_mirror.specs.RebuildLaws.{RebuildSays};

use cola_device::Device;

/// What each answer says of both devices, in plain terms. A device with some bytes, but not as many as the file, keeps them,
/// whatever is answered.
pub fn rebuilds_are_answered<D: Device, E: Device>()
    ensures says { (from from_now : D) (to to_now : E) (result : Result (Unit {0}) AnyFault) →
        Rebuilds D.Device E.Device from from_now to to_now result →
        RebuildSays D.Device E.Device from from_now to to_now result }
    ensures occupied { (from from_now : D) (to to_now : E) (result : Result (Unit {0}) AnyFault)
        (bytes old : List ℕ) → Rebuilds D.Device E.Device from from_now to to_now result →
        D.bytes from ≡ Some bytes → E.bytes to ≡ Some old → length old ≢ 0 →
        length old ≢ length bytes → E.bytes to_now ≡ E.bytes to }
{}
