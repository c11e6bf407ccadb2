//! The tails of a loader: each is written to the device where its block is full.
ghost use Rattle.std.specs.Prelude.{◌≡◌, ℕ, ◌+◌, ◌-◌, ◌*◌, ◌/◌, ◌^◌, ◌<◌, length};
ghost use Rattle.cola_cell.specs.Decoded.{spelling};
ghost use Rattle.cola_cell.specs.Format.{width, CellFits};
ghost use Rattle.cola_cell.specs.Places.{slot_size};
ghost use Rattle.cola_device.specs.Bytes.{HasRange, splice};
ghost use Rattle.cola_device.specs.Counts.{Called};
ghost use Rattle.cola_front.specs.Front.{IsSpelled};
ghost use Rattle.cola_run.specs.Cells.{IsOnDevice, block_cells, block_bytes, block_number, file_bytes, tail_number, tails_bytes};
ghost use Rattle.cola_run.specs.Parts.{TailPushed, WroteTail, fills};

use cola_cell::Cell;
use cola_device::{Device, DeviceFault};
use cola_layout::Geometry;
use cola_run::{Tails, bytes_of_block, cells_of_block, fills_block};

/// Where the block of a level begins on the device in which an index lies, in bytes.
fn begin_of_block(geometry: &Geometry, level: u8, index: u32) -> u64
    requires level { IsOnDevice geometry.now level }
    requires index { index < slot_size level }
    ensures value { result ≡ block_number geometry.now level 0 index * block_bytes geometry.now }
{
    let number = geometry.place(level, 0, index) / cells_of_block(geometry) as u64;
    number * bytes_of_block(geometry) as u64
}

/// Writes the tail of a level to the block in which an index lies.
#[tactic(auto, using(crate::proofs::Placing::write_inside))]
pub(crate) fn write_tail<D: Device>(
    device: &mut D,
    geometry: &Geometry,
    tails: &Tails,
    level: u8,
    index: u32,
) -> Result<(), DeviceFault>
    requires level { IsOnDevice geometry.now level }
    requires index { index < slot_size level }
    requires many { length tails.now ≡ tails_bytes geometry.now }
    requires inside { HasRange (D.bytes device.old) 0 (file_bytes geometry.now) }
    ensures wrote { WroteTail result geometry.now tails.now level 0 index
        (D.bytes device.old) (D.bytes device.new) }
    ensures kept { D.kept device.new ≡ D.kept device.old }
    ensures counts { Called (D.counts device.old) (D.counts device.new) 0 1 0 result }
{
    device.write(
        begin_of_block(geometry, level, index),
        tails.block(geometry, level),
    )
}

/// Puts a cell behind the run of a level on the device, and writes its block where that is full.
pub(crate) fn put_on_device<D: Device>(
    device: &mut D,
    geometry: &Geometry,
    tails: &mut Tails,
    level: u8,
    index: u32,
    cell: &Cell,
) -> Result<(), DeviceFault>
    requires level { IsOnDevice geometry.now level }
    requires index { index < slot_size level }
    requires few { index < 2 ^ 24 }
    requires fits { CellFits geometry.now.format cell.now }
    requires many { length tails.old ≡ tails_bytes geometry.now }
    requires inside { HasRange (D.bytes device.old) 0 (file_bytes geometry.now) }
    ensures tails { tails.new ≡ splice tails.old
        (width geometry.now.format * tail_number geometry.now level index)
        (spelling geometry.now.format cell.now) }
    ensures many { length tails.new ≡ length tails.old }
    ensures spelled { IsSpelled geometry.now.format cell.now }
    ensures wrote { TailPushed (fills geometry.now index) result
        geometry.now tails.new level 0 index (D.bytes device.old) (D.bytes device.new) }
    ensures kept { D.kept device.new ≡ D.kept device.old }
    ensures counts { Called (D.counts device.old) (D.counts device.new) 0
        ((index + 1) / block_cells geometry.now - index / block_cells geometry.now) 0 result }
{
    tails.put_cell(geometry, level, index, cell);
    if !fills_block(geometry, index) {
        return Ok(());
    }
    write_tail(device, geometry, tails, level, index)
}
