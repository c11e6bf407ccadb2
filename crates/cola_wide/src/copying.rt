//! The blocks of a file, copied.
ghost use Rattle.std.specs.Prelude.{◌≡◌, ◌+◌, ◌-◌, ◌*◌, ◌^◌, ◌≤◌, length, IfSome, IfErr, OnOk};
ghost use Rattle.cola_device.specs.Bytes.{HasRange, Wrote, splice};
ghost use Rattle.cola_device.specs.Counts.{Called};
ghost use Rattle.cola_device.specs.Settling.{IsSettled};
ghost use Rattle.cola_layout.specs.Fields.{fields_of};
ghost use Rattle.cola_wide.specs.Copied.{block_cells, block_count, cells_of, IsBegun, AreSpelled, AreCopied};
ghost use Rattle.cola_wide.specs.Upgrade.{LoadsBlock, CopiesBlocks, CopiesAll};

use crate::cells::copy_cells;
use crate::fault::UpgradeFault;
use cola_device::Device;
use cola_layout::Header;

/// The cells of a block.
pub(crate) fn cells_of_block(header: &Header) -> u64
    ensures value { result ≡ block_cells (fields_of header.now) }
    ensures some { 8 ≤ result }
    ensures bound { result ≤ 512 }
    ensures few { cells_of (fields_of header.now) ≤ 2 ^ 26 }
{
    1 << header.geometry.block_exp
}

/// The blocks of a file.
fn blocks_of_file(header: &Header) -> u64
    ensures value { result ≡ block_count (fields_of header.now) }
    ensures some { 1 ≤ result }
    ensures bound { result ≤ 2 ^ 23 }
    ensures whole { block_cells (fields_of header.now) * result ≡ cells_of (fields_of header.now) }
{
    1 << (header.geometry.bottom + 4 - header.geometry.block_exp)
}

/// Reads the block whose first cell has this number, and copies its cells. `BadCell` where one of a run is no spelling, with
/// the number of the lowest; `Device` where the device refused the read.
fn load_block<D: Device>(
    from: &mut D,
    header: &Header,
    first: u64,
    narrow: &mut [u8],
    wide: &mut [u8],
) -> Result<(), UpgradeFault>
    requires whole { HasRange (D.bytes from.old) 0 (64 * cells_of (fields_of header.now)) }
    requires inside { first + block_cells (fields_of header.now) ≤ cells_of (fields_of header.now) }
    requires narrow { length narrow.old ≡ 64 * block_cells (fields_of header.now) }
    requires wide { length wide.old ≡ 128 * block_cells (fields_of header.now) }
    ensures loaded { LoadsBlock D.Device from.old from.new
        (fields_of header.now) first wide.new result }
    ensures bytes_stay { D.bytes from.new ≡ D.bytes from.old }
    ensures kept { D.kept from.new ≡ D.kept from.old }
{
    let count = cells_of_block(header) as usize;
    match from.read(64 * first, narrow) {
        Ok(()) => {}
        Err(_) => return Err(UpgradeFault::Device),
    }
    match copy_cells(header, first, count, narrow, wide) {
        Ok(()) => Ok(()),
        Err(number) => Err(UpgradeFault::BadCell(number)),
    }
}

/// Copies the block whose first cell has this number, where all between the first block and this one are copied.
fn copy_block<D: Device, E: Device>(
    from: &mut D,
    to: &mut E,
    header: &Header,
    first: u64,
    narrow: &mut [u8],
    wide: &mut [u8],
) -> Result<(), UpgradeFault>
    requires whole { HasRange (D.bytes from.old) 0 (64 * cells_of (fields_of header.now)) }
    requires behind { block_cells (fields_of header.now) ≤ first }
    requires inside { first + block_cells (fields_of header.now) ≤ cells_of (fields_of header.now) }
    requires narrow { length narrow.old ≡ 64 * block_cells (fields_of header.now) }
    requires wide { length wide.old ≡ 128 * block_cells (fields_of header.now) }
    requires begun { IfSome (E.bytes to.old) (IsBegun (fields_of header.now)) }
    requires copied { IfSome (D.bytes from.old)
        (λ old. IfSome (E.bytes to.old)
        (AreCopied (fields_of header.now) (block_cells (fields_of header.now)) first old)) }
    ensures copied { CopiesBlocks D.Device E.Device
        (fields_of header.now) from.old from.new to.old to.new first
        (first + block_cells (fields_of header.now)) 1 result }
    ensures bytes_stay { D.bytes from.new ≡ D.bytes from.old }
    ensures kept { D.kept from.new ≡ D.kept from.old }
    ensures other_kept { E.kept to.new ≡ E.kept to.old }
{
    match load_block(from, header, first, narrow, wide) {
        Ok(()) => {}
        Err(fault) => return Err(fault),
    }
    match to.write(128 * first, wide) {
        Ok(()) => Ok(()),
        Err(_) => Err(UpgradeFault::Device),
    }
}

/// Copies each block behind the first, in rising order.
fn copy_blocks<D: Device, E: Device>(
    from: &mut D,
    to: &mut E,
    header: &Header,
    narrow: &mut [u8],
    wide: &mut [u8],
) -> Result<(), UpgradeFault>
    requires whole { HasRange (D.bytes from.old) 0 (64 * cells_of (fields_of header.now)) }
    requires narrow { length narrow.old ≡ 64 * block_cells (fields_of header.now) }
    requires wide { length wide.old ≡ 128 * block_cells (fields_of header.now) }
    requires begun { IfSome (E.bytes to.old) (IsBegun (fields_of header.now)) }
    ensures copied { CopiesBlocks D.Device E.Device
        (fields_of header.now) from.old from.new to.old to.new (block_cells (fields_of header.now))
        (cells_of (fields_of header.now)) (block_count (fields_of header.now) - 1) result }
    ensures bytes_stay { D.bytes from.new ≡ D.bytes from.old }
    ensures kept { D.kept from.new ≡ D.kept from.old }
    ensures other_kept { E.kept to.new ≡ E.kept to.old }
{
    let cells = cells_of_block(header);
    for block in 1..blocks_of_file(header) {
        match copy_block(from, to, header, cells * block, narrow, wide) {
            Ok(()) => {}
            Err(fault) => return Err(fault),
        }
    }
    Ok(())
}

/// Puts the header's bytes in the place of a block's first.
fn put_head(wide: &mut [u8], head: &[u8; 512])
    requires { 512 ≤ length wide.old }
    ensures { wide.new ≡ splice wide.old 0 head.now }
{
    wide[..512].copy_from_slice(head);
}

/// Writes the first block, and settles.
fn write_first<E: Device>(to: &mut E, wide: &[u8]) -> Result<(), UpgradeFault>
    requires block { length wide.now ≤ 65536 }
    requires inside { HasRange (E.bytes to.old) 0 (length wide.now) }
    ensures wrote { Wrote result 0 wide.now (E.bytes to.old) (E.bytes to.new) }
    ensures settled { OnOk result (IsSettled E.Device to.new) }
    ensures fault { IfErr result (λ fault. fault ≡ UpgradeFault.Device) }
    ensures counts { Called (E.counts to.old) (E.counts to.new) 0 1 1 result }
    ensures kept { E.kept to.new ≡ E.kept to.old }
{
    match to.write(0, wide) {
        Ok(()) => {}
        Err(_) => return Err(UpgradeFault::Device),
    }
    match to.settle() {
        Ok(()) => Ok(()),
        Err(_) => Err(UpgradeFault::Device),
    }
}

/// Copies the first block with the header of the copy, where all others are copied, and settles.
fn copy_first<D: Device, E: Device>(
    from: &mut D,
    to: &mut E,
    header: &Header,
    head: &[u8; 512],
    narrow: &mut [u8],
    wide: &mut [u8],
) -> Result<(), UpgradeFault>
    requires whole { HasRange (D.bytes from.old) 0 (64 * cells_of (fields_of header.now)) }
    requires narrow { length narrow.old ≡ 64 * block_cells (fields_of header.now) }
    requires wide { length wide.old ≡ 128 * block_cells (fields_of header.now) }
    requires begun { IfSome (E.bytes to.old) (IsBegun (fields_of header.now)) }
    requires spelled { IfSome (D.bytes from.old)
        (AreSpelled (fields_of header.now) (block_cells (fields_of header.now))
        (cells_of (fields_of header.now))) }
    requires copied { IfSome (D.bytes from.old)
        (λ old. IfSome (E.bytes to.old)
        (AreCopied (fields_of header.now) (block_cells (fields_of header.now))
        (cells_of (fields_of header.now)) old)) }
    ensures copied { CopiesAll D.Device E.Device
        (fields_of header.now) from.old from.new to.old to.new head.now 1 0 1 0 result }
    ensures bytes_stay { D.bytes from.new ≡ D.bytes from.old }
    ensures kept { D.kept from.new ≡ D.kept from.old }
    ensures other_kept { E.kept to.new ≡ E.kept to.old }
{
    match load_block(from, header, 0, narrow, wide) {
        Ok(()) => {}
        Err(fault) => return Err(fault),
    }
    put_head(wide, head);
    write_first(to, wide)
}

/// Tests the cells of the first block, copies all other blocks in rising order, and then the first block with the header of
/// the copy, and settles.
pub(crate) fn copy_all<D: Device, E: Device>(
    from: &mut D,
    to: &mut E,
    header: &Header,
    head: &[u8; 512],
    narrow: &mut [u8],
    wide: &mut [u8],
) -> Result<(), UpgradeFault>
    requires whole { HasRange (D.bytes from.old) 0 (64 * cells_of (fields_of header.now)) }
    requires narrow { length narrow.old ≡ 64 * block_cells (fields_of header.now) }
    requires wide { length wide.old ≡ 128 * block_cells (fields_of header.now) }
    requires begun { IfSome (E.bytes to.old) (IsBegun (fields_of header.now)) }
    ensures copied { CopiesAll D.Device E.Device
        (fields_of header.now) from.old from.new to.old to.new head.now
        (block_count (fields_of header.now) + 1) 0 (block_count (fields_of header.now)) 0 result }
    ensures bytes_stay { D.bytes from.new ≡ D.bytes from.old }
    ensures kept { D.kept from.new ≡ D.kept from.old }
    ensures other_kept { E.kept to.new ≡ E.kept to.old }
{
    match load_block(from, header, 0, narrow, wide) {
        Ok(()) => {}
        Err(fault) => return Err(fault),
    }
    match copy_blocks(from, to, header, narrow, wide) {
        Ok(()) => {}
        Err(fault) => return Err(fault),
    }
    copy_first(from, to, header, head, narrow, wide)
}
