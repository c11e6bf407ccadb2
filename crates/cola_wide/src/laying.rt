//! The device that is to have the copy, laid out.
ghost use Rattle.std.specs.Prelude.{◌≡◌};
ghost use Rattle.cola_wide.specs.Upgrade.{LaysOut};

use crate::fault::UpgradeFault;
use cola_device::Device;

/// Gives an empty device so many zero bytes. The size is asked, and `NotEmpty` where it is not 0. `Device` where the device
/// refused a call.
pub(crate) fn lay_out<E: Device>(to: &mut E, size: u64) -> Result<(), UpgradeFault>
    ensures laid { LaysOut E.Device size to.old to.new result }
    ensures kept { E.kept to.new ≡ E.kept to.old }
{
    match to.size() {
        Ok(0) => {}
        Ok(_) => return Err(UpgradeFault::NotEmpty),
        Err(_) => return Err(UpgradeFault::Device),
    }
    match to.lay_out(size) {
        Ok(()) => Ok(()),
        Err(_) => Err(UpgradeFault::Device),
    }
}
