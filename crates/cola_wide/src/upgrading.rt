//! The upgrade of a file.
ghost use Rattle.std.specs.Prelude.{◌≡◌, ◌*◌, length, IfOk};
ghost use Rattle.cola_layout.specs.Fields.{fields_of};
ghost use Rattle.cola_spec.specs.Map.{Map};
ghost use Rattle.cola_wide.specs.Copied.{block_cells, wide_size, with_version};
ghost use Rattle.cola_wide.specs.Upgrade.{Upgrades, CanBeUpgraded, IsDoneForMemory};

use crate::copying::{cells_of_block, copy_all};
use crate::fault::UpgradeFault;
use crate::head::read_closed;
use crate::laying::lay_out;
use cola_device::Device;
use cola_layout::Header;
use std::alloc::{AllocError, Global};

/// Room for a block of each file.
#[derive(Drop)]
struct Blocks {
    narrow: Vec<u8>,
    wide: Vec<u8>,
}

/// Room for a block of each file.
fn make_blocks(alloc: Global, header: &Header) -> Result<Blocks, AllocError>
    ensures narrow { IfOk result
        (λ blocks. length blocks.narrow.items ≡ 64 * block_cells (fields_of header.now)) }
    ensures wide { IfOk result
        (λ blocks. length blocks.wide.items ≡ 128 * block_cells (fields_of header.now)) }
{
    let cells = cells_of_block(header) as usize;
    let narrow = vec![in alloc; 0u8; 64 * cells]?;
    let wide = vec![in alloc; 0u8; 128 * cells]?;
    Ok(Blocks { narrow, wide })
}

/// The bytes of the copy.
fn size_of_copy(header: &Header) -> u64
    ensures { result ≡ wide_size (fields_of header.now) }
{
    128 * header.geometry.cells()
}

/// Gives a header's bytes the version 2.
fn set_version(head: &mut [u8; 512])
    ensures { head.new ≡ with_version 2 head.old }
{
    head[8] = 2;
}

/// Copies the closed file of version 1 that `from` has into a new file of version 2 on `to`, which is empty: the same
/// header but for the version, and each cell of each visible and shadow run at the same cell number. Stamps are 0, and all
/// other cells are zero bytes. `from` is not written. Two blocks are the only memory that is taken.
///
/// In this order: the size of `from` is asked, and `Small` where it is below 512 bytes; its first 512 bytes are read, and
/// `NotStore` where they spell no header; `Small` where it has fewer bytes than the cells of the store; `Already` where it
/// is of version 2; `NotClosed` where its state byte is 1; memory is taken, or `OutOfMemory`; the size of `to` is asked,
/// and `NotEmpty` where it is not 0; `to` is laid out; the first block is read and its cells of runs are tested; all other
/// blocks are read, tested and written in rising order; the first block is read again and written with the header; `to`
/// settles. `BadCell` where a cell of a run is no spelling, with the number of the lowest. `Device` where a device refused a
/// call. After a `BadCell`, and after a `Device` between the layout and the last write, the first 512 bytes of `to` are 0; where
/// it refused to be laid out it has any bytes, at most as many as the copy.
pub fn upgrade<D: Device, E: Device>(
    alloc: Global,
    from: &mut D,
    to: &mut E,
) -> Result<(), UpgradeFault>
    ensures upgraded { Upgrades D.Device E.Device from.old from.new to.old to.new result }
    ensures source_stays { D.bytes from.new ≡ D.bytes from.old }
    ensures no_write { (D.counts from.new).writes ≡ (D.counts from.old).writes }
    ensures source_kept { D.kept from.new ≡ D.kept from.old }
    ensures kept { E.kept to.new ≡ E.kept to.old }
    ensures complete { (m : Map) →
        CanBeUpgraded D.Device E.Device from.old from.new to.old to.new m → IsDoneForMemory result }
{
    let mut head = [0u8; 512];
    let header = match read_closed(from, &mut head) {
        Ok(header) => header,
        Err(fault) => return Err(fault),
    };
    let mut blocks = match make_blocks(alloc, &header) {
        Ok(blocks) => blocks,
        Err(_) => return Err(UpgradeFault::OutOfMemory),
    };
    match lay_out(to, size_of_copy(&header)) {
        Ok(()) => {}
        Err(fault) => return Err(fault),
    }
    set_version(&mut head);
    copy_all(
        from,
        to,
        &header,
        &head,
        &mut blocks.narrow,
        &mut blocks.wide,
    )
}
