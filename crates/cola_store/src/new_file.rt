//! How the file of a new store is made.
ghost use Rattle.std.specs.Prelude.{◌≡◌, ◌-◌, ◌≤◌, ◌++◌, length, replicate, OnOk, IfSome};
ghost use Rattle.cola_outside.specs.Told.{Both};
ghost use Rattle.cola_cell.specs.declared.format.Format.TheVariants.{One};
ghost use Rattle.cola_device.specs.Bytes.{IsEmpty};
ghost use Rattle.cola_device.specs.Counts.{Called};
ghost use Rattle.cola_device.specs.Settling.{IsSettled};
ghost use Rattle.cola_layout.specs.Header.{IsSpelling};
ghost use Rattle.cola_store.specs.Create.{Created, CountsOneWrite, new_header};

use crate::fault::CreateFault;
use cola_cell::Format;
use cola_device::{Device, DeviceFault};
use cola_layout::{Geometry, Header, LayoutFault};
use cola_opening::size_of;

/// The spelling of the header of a closed store with no keys.
fn first_bytes(geometry: Geometry) -> [u8; 512]
    ensures spelled { IsSpelling
        (new_header geometry.format geometry.keys geometry.block_exp geometry.bottom) result }
    ensures size { length result ≡ 512 }
{
    let mut bytes = [0u8; 512];
    Header::empty(geometry).encode(&mut bytes);
    bytes
}

/// Lays an empty device out, writes the header, and settles.
fn fill<D: Device>(device: &mut D, size: u64, header: &[u8; 512]) -> Result<(), DeviceFault>
    requires empty { IsEmpty (D.bytes device.old) }
    requires room { 512 ≤ size }
    ensures filled { OnOk result (IfSome (D.bytes device.new)
        (λ bytes. bytes ≡ header.now ++ replicate (size - 512) 0)) }
    ensures settled { OnOk result (IsSettled D.Device device.new) }
    ensures left { Both (D.bytes device.old) (D.bytes device.new)
        (λ _ bytes. length bytes ≤ size) }
    ensures kept { D.kept device.new ≡ D.kept device.old }
    ensures counts { Called (D.counts device.old) (D.counts device.new) 0 1 2 result }
{
    device.lay_out(size)?;
    device.write(0, header)?;
    device.settle()
}

/// Makes the file of these sizes, on a device that is empty.
fn make<D: Device>(device: &mut D, geometry: Geometry) -> Result<(), CreateFault>
    ensures created { Created D.Device geometry.format geometry.keys geometry.block_exp
        device.old device.new result }
    ensures kept { D.kept device.new ≡ D.kept device.old }
    ensures counts { CountsOneWrite (D.counts device.old) (D.counts device.new) }
{
    match device.size() {
        Ok(0) => {}
        Ok(_) => return Err(CreateFault::NotEmpty),
        Err(_) => return Err(CreateFault::Device),
    }
    let size = size_of(&geometry);
    let header = first_bytes(geometry);
    match fill(device, size, &header) {
        Ok(()) => Ok(()),
        Err(_) => Err(CreateFault::Device),
    }
}

/// Makes the file of a store for so many keys, with blocks of `2^block_exp` cells, in format One: it is [`create_as`] in
/// that format.
pub fn create<D: Device>(device: &mut D, keys: u64, block_exp: u8) -> Result<(), CreateFault>
    ensures created { Created D.Device One keys block_exp device.old device.new result }
    ensures kept { D.kept device.new ≡ D.kept device.old }
    ensures counts { CountsOneWrite (D.counts device.old) (D.counts device.new) }
{
    create_as(device, keys, block_exp, Format::One)
}

/// Makes the file of a store for so many keys, with blocks of `2^block_exp` cells, in a format. It is closed, has no keys,
/// and is as many bytes as all cells of the store have. No memory is taken.
///
/// `Keys` where there are to be no keys or more than 2^24, else `Block` where `block_exp` is below 3, above 9 or above
/// the lowest level plus 2; then the device is not called. The size is asked, and `NotEmpty` where it is not 0. The file
/// is laid out, its header is written, and the device settles. `Device` where the device refused one of these calls; a
/// device that was empty may then have any part of the file, with any bytes.
pub fn create_as<D: Device>(
    device: &mut D,
    keys: u64,
    block_exp: u8,
    format: Format,
) -> Result<(), CreateFault>
    ensures created { Created D.Device format keys block_exp device.old device.new result }
    ensures kept { D.kept device.new ≡ D.kept device.old }
    ensures counts { CountsOneWrite (D.counts device.old) (D.counts device.new) }
{
    match Geometry::of_format(keys, block_exp, format) {
        Ok(geometry) => make(device, geometry),
        Err(LayoutFault::Keys) => Err(CreateFault::Keys),
        Err(LayoutFault::Block) => Err(CreateFault::Block),
    }
}
