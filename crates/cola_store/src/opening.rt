//! How the file of a store is opened.
ghost use Rattle.std.specs.Prelude.{◌≡◌, ◌≤◌, IfOk, IfErr};
ghost use Rattle.cola_device.specs.Bytes.{HasRange};
ghost use Rattle.cola_run.specs.Cells.{file_bytes};
ghost use Rattle.cola_run.specs.Store.{new_store, device_of};
ghost use Rattle.cola_store.specs.Open.{Opens, without_room, device_after, FindsClosed, LoadsAndMarks};

use crate::fault::OpenFault;
use cola_cell::ReadFault;
use cola_chain::Room;
use cola_device::Device;
use cola_layout::{Geometry, Header};
use cola_opening::{HeaderFault, read_header};
use cola_run::RunStore;
use std::alloc::Global;

/// The header of a device's file, where that has all its cells and was closed.
fn read_closed<D: Device>(device: &mut D) -> Result<Header, OpenFault>
    ensures found { FindsClosed D.Device device.old device.new result }
    ensures kept { D.kept device.new ≡ D.kept device.old }
{
    let mut head = [0u8; 512];
    let header = match read_header(device, &mut head) {
        Ok(found) => found.header,
        Err(HeaderFault::NotStore) => return Err(OpenFault::NotStore),
        Err(HeaderFault::Small) => return Err(OpenFault::Small),
        Err(HeaderFault::Device) => return Err(OpenFault::Device),
    };
    if !header.closed {
        return Err(OpenFault::NotClosed);
    }
    Ok(header)
}

/// All memory of a store with this geometry, over the device that has its file: its cells, of which none is loaded yet, and
/// room for the levels of its chain. No call of the device is made, and where there is no memory it is given back.
fn take_memory<D: Device>(
    alloc: Global,
    device: D,
    geometry: Geometry,
    cache: u32,
) -> Result<(RunStore<D>, Room), D>
    requires cache { cache ≤ 4096 }
    requires inside { HasRange (D.bytes device) 0 (file_bytes geometry) }
    ensures made { IfOk result
        (λ taken. taken.0 ≡ new_store device (D.counts device) geometry cache) }
    ensures back { IfErr result (λ now. now ≡ device) }
{
    let room = match Room::new(alloc) {
        Ok(room) => room,
        Err(_) => return Err(device),
    };
    match RunStore::new(alloc, device, geometry, cache) {
        Ok(runs) => Ok((runs, room)),
        Err((device, _)) => Err(device),
    }
}

/// Loads the cells of a file by its header, and marks the file as in use.
fn load_and_mark<D: Device>(runs: &mut RunStore<D>, header: &Header) -> Result<(), OpenFault>
    requires { header.now.geometry ≡ runs.old.geometry }
    ensures loaded { LoadsAndMarks D.Device header.now runs.old runs.new result }
    ensures kept { D.kept (device_of runs.new) ≡ D.kept (device_of runs.old) }
{
    match runs.load(header) {
        Ok(()) => match runs.mark_in_use() {
            Ok(()) => Ok(()),
            Err(_) => Err(OpenFault::Device),
        },
        Err(ReadFault::Device) => Err(OpenFault::Device),
        Err(ReadFault::BadCell(number)) => Err(OpenFault::BadCell(number)),
    }
}

/// Opens the file of a store, of either format, behind a cache of up to `cache` blocks: gives its cells, by the header that
/// comes with them, and room for the levels of its chain, and marks the file as in use. All memory that the store will ever
/// take is taken here. A file may have more bytes than the cells of its store; they stay. An error gives `device` back.
///
/// In this order: the size is asked, and `Small` where it is below 512 bytes; the first 512 bytes are read, and `NotStore`
/// where they spell no header; `Small` where the file has fewer bytes than the cells of the store; `NotClosed` where the
/// state byte is 1; memory is taken, or `OutOfMemory`; the first two blocks are read, and for each level on the device
/// whose shadow ends within a block that block, and `BadCell` where a cell of a run of the first two blocks is no
/// spelling, with the number of the lowest; the state byte is written as 1, and the device settles. `Device` where the
/// device refused a call. A refusal before the state byte is written changes no byte; one in that leaves any byte in its
/// place, and all else.
pub fn open_runs<D: Device>(
    alloc: Global,
    device: D,
    cache: u32,
) -> Result<(RunStore<D>, Header, Room), (D, OpenFault)>
    requires { cache ≤ 4096 }
    ensures opened { Opens D.Device device cache (without_room result) }
    ensures kept { D.kept (device_after (without_room result)) ≡ D.kept device }
{
    let mut device = device;
    let header = match read_closed(&mut device) {
        Ok(header) => header,
        Err(fault) => return Err((device, fault)),
    };
    let (mut runs, room) = match take_memory(alloc, device, header.geometry, cache) {
        Ok(taken) => taken,
        Err(device) => return Err((device, OpenFault::OutOfMemory)),
    };
    match load_and_mark(&mut runs, &header) {
        Ok(()) => Ok((runs, header, room)),
        Err(fault) => Err((runs.into_device(), fault)),
    }
}
