//! The header of the file that is copied.
ghost use Rattle.std.specs.Prelude.{◌≡◌};
ghost use Rattle.cola_wide.specs.Upgrade.{FindsClosed};

use crate::fault::UpgradeFault;
use cola_cell::Format;
use cola_device::Device;
use cola_layout::Header;
use cola_opening::{HeaderFault, read_header};

/// The header of a device's file, where that has all its cells, is of format One and was closed; its bytes are put into
/// `head`.
pub(crate) fn read_closed<D: Device>(
    from: &mut D,
    head: &mut [u8; 512],
) -> Result<Header, UpgradeFault>
    ensures found { FindsClosed D.Device from.old from.new head.new result }
    ensures bytes_stay { D.bytes from.new ≡ D.bytes from.old }
    ensures kept { D.kept from.new ≡ D.kept from.old }
{
    let header = match read_header(from, head) {
        Ok(found) => found.header,
        Err(HeaderFault::NotStore) => return Err(UpgradeFault::NotStore),
        Err(HeaderFault::Small) => return Err(UpgradeFault::Small),
        Err(HeaderFault::Device) => return Err(UpgradeFault::Device),
    };
    if let Format::Two = header.geometry.format {
        return Err(UpgradeFault::Already);
    }
    if !header.closed {
        return Err(UpgradeFault::NotClosed);
    }
    Ok(header)
}
