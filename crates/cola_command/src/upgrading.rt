//! The mode that copies a file of version 1 into one of version 2.
ghost use Rattle.std.specs.Prelude.{◌≡◌, Result};
ghost use Rattle.cola_command.specs.Serves.{UpgradeEnds, upgrade_status};

use cola_device::Device;
use cola_status::Status;
use cola_wide::{UpgradeFault, upgrade};
use std::alloc::Global;

/// The status by which an upgrade ends.
fn status_of(answer: &Result<(), UpgradeFault>) -> u8
    ensures { result ≡ upgrade_status answer.now }
{
    match answer {
        Ok(()) => Status::Done as u8,
        Err(UpgradeFault::Small) => Status::NotStore as u8,
        Err(UpgradeFault::NotStore) => Status::NotStore as u8,
        Err(UpgradeFault::Already) => Status::AlreadyWide as u8,
        Err(UpgradeFault::NotClosed) => Status::NotClosed as u8,
        Err(UpgradeFault::OutOfMemory) => Status::OutOfMemory as u8,
        Err(UpgradeFault::NotEmpty) => Status::NotEmpty as u8,
        Err(UpgradeFault::Device) => Status::DeviceFailed as u8,
        Err(UpgradeFault::BadCell(_)) => Status::BadCell as u8,
    }
}

/// Copies the file of one device into a new file of the other, and gives the status.
pub(crate) fn upgrade_file<D: Device>(alloc: Global, device: &mut D, second: &mut D) -> u8
    ensures { UpgradeEnds D.Device device.old device.new second.old second.new result }
{
    let answer = upgrade(alloc, device, second);
    status_of(&answer)
}
