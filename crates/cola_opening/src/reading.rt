//! How the header of a file is read and judged.
ghost use Rattle.std.specs.Prelude.{◌≡◌, ◌≤◌};
ghost use Rattle.cola_opening.specs.Judged.{file_size, FirstBytesSay, FindsHeader, FindsClosed};

use crate::fault::{ClosedFault, HeaderFault};
use cola_device::Device;
use cola_layout::{Geometry, Header};

/// A file's size in bytes, and the header in its first 512 bytes.
#[derive(Debug, Drop)]
pub struct FoundHeader {
    pub size: u64,
    pub header: Header,
}

/// The bytes of a file with all cells of this geometry.
pub fn size_of(geometry: &Geometry) -> u64
    ensures value { result ≡ file_size geometry.now.format geometry.now.bottom }
    ensures header { 512 ≤ result }
{
    geometry.format.width() as u64 * geometry.cells()
}

/// The header in the first bytes of a file of this size, where that has all its cells.
fn header_in(size: u64, head: &[u8; 512]) -> Result<FoundHeader, HeaderFault>
    ensures { FirstBytesSay size head.now result }
{
    let header = match Header::decode(head) {
        Some(header) => header,
        None => return Err(HeaderFault::NotStore),
    };
    if size < size_of(&header.geometry) {
        return Err(HeaderFault::Small);
    }
    Ok(FoundHeader { size, header })
}

/// Reads the first 512 bytes of a file into `head`, and answers the header that they spell, with the file's size. The store
/// may be closed or in use: `closed` of the header says which. A file may have more bytes than the cells of its store. No
/// memory is taken.
///
/// In this order: the size is asked, and `Small` where it is below 512 bytes; the first 512 bytes are read, and `NotStore`
/// where they spell no header; `Small` where the file has fewer bytes than the cells of the store. `Device` where the device
/// refused one of the two calls. After an error `head` may have any bytes.
pub fn read_header<D: Device>(
    device: &mut D,
    head: &mut [u8; 512],
) -> Result<FoundHeader, HeaderFault>
    ensures found { FindsHeader D.Device device.old head.new device.new result }
    ensures bytes_stay { D.bytes device.new ≡ D.bytes device.old }
    ensures kept { D.kept device.new ≡ D.kept device.old }
{
    let size = match device.size() {
        Ok(size) => size,
        Err(_) => return Err(HeaderFault::Device),
    };
    if size < 512 {
        return Err(HeaderFault::Small);
    }
    match device.read(0, head) {
        Ok(()) => header_in(size, head),
        Err(_) => Err(HeaderFault::Device),
    }
}

/// The header of a device's file, where that has all its cells and its store was closed. No memory is taken.
///
/// As [`read_header`], and then `NotClosed` where the header says that the store is in use.
pub fn read_closed<D: Device>(device: &mut D) -> Result<Header, ClosedFault>
    ensures found { FindsClosed D.Device device.old device.new result }
    ensures bytes_stay { D.bytes device.new ≡ D.bytes device.old }
    ensures kept { D.kept device.new ≡ D.kept device.old }
{
    let mut head = [0u8; 512];
    let header = match read_header(device, &mut head) {
        Ok(found) => found.header,
        Err(HeaderFault::NotStore) => return Err(ClosedFault::NotStore),
        Err(HeaderFault::Small) => return Err(ClosedFault::Small),
        Err(HeaderFault::Device) => return Err(ClosedFault::Device),
    };
    if !header.closed {
        return Err(ClosedFault::NotClosed);
    }
    Ok(header)
}
