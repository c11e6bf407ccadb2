//! A device made equal to another.
ghost use Rattle.std.specs.Prelude.{◌≡◌, ◌+◌, ◌-◌, ◌*◌, ◌≤◌, length, IsOk, OnOk};
ghost use Rattle.cola_outside.specs.Told.{Both};
ghost use Rattle.cola_device.specs.Bytes.{HasRange, Wrote};
ghost use Rattle.cola_device.specs.Counts.{Called};
ghost use Rattle.cola_device.specs.Settling.{IsSettled};
ghost use Rattle.cola_mirror.specs.Differ.{pieces_of};
ghost use Rattle.cola_mirror.specs.Rebuild.{IsSameBelow, OnlyMoves, Moves, MakesReady, Rebuilds, OnlyCopied, CanBeRebuilt};

use crate::fault::RebuildFault;
use cola_device::{Device, DeviceFault};
use cola_opening::{HeaderFault, read_header};

/// Makes a device ready for so many bytes: an empty one is laid out, and one that has so many stays as it is. `Other` where it
/// has another number of bytes; `Device` where it refused a call.
fn make_ready<E: Device>(to: &mut E, size: u64) -> Result<(), RebuildFault>
    requires { 512 ≤ size }
    ensures { MakesReady E.Device size to.old to.new result }
{
    let many = match to.size() {
        Ok(many) => many,
        Err(_) => return Err(RebuildFault::Device),
    };
    if many == size {
        return Ok(());
    }
    if many != 0 {
        return Err(RebuildFault::Other(many));
    }
    match to.lay_out(size) {
        Ok(()) => Ok(()),
        Err(_) => Err(RebuildFault::Device),
    }
}

/// Copies up to 512 bytes from a place on.
fn copy_piece<D: Device, E: Device>(
    from: &mut D,
    to: &mut E,
    at: u64,
    count: usize,
) -> Result<(), DeviceFault>
    requires few { count ≤ 512 }
    requires inside { HasRange (D.bytes from.old) at count }
    requires room { HasRange (E.bytes to.old) at count }
    ensures moves { Moves D.Device E.Device from.old from.new to.old to.new at count result }
    ensures below { Both (E.bytes to.old) (E.bytes to.new) (IsSameBelow at) }
    ensures only { OnlyMoves D.Device E.Device from.old from.new to.old to.new 1 }
{
    let mut bytes = [0u8; 512];
    let bytes = &mut bytes[..count];
    match from.read(at, bytes) {
        Ok(()) => {}
        Err(fault) => return Err(fault),
    }
    to.write(at, bytes)
}

/// Copies all bytes behind the first 512, in pieces of 512, the last one shorter.
fn copy_behind<D: Device, E: Device>(from: &mut D, to: &mut E, size: u64) -> Result<(), DeviceFault>
    requires long { 512 ≤ size }
    requires inside { HasRange (D.bytes from.old) 0 size }
    requires room { HasRange (E.bytes to.old) 0 size }
    ensures moves { Moves D.Device E.Device from.old from.new to.old to.new 512
        (size - 512) result }
    ensures below { Both (E.bytes to.old) (E.bytes to.new) (IsSameBelow 512) }
    ensures only { OnlyMoves D.Device E.Device from.old from.new to.old to.new
        (pieces_of size - 1) }
{
    let behind = size - 512;
    for piece in 0..behind / 512 {
        match copy_piece(from, to, 512 + 512 * piece, 512) {
            Ok(()) => {}
            Err(fault) => return Err(fault),
        }
    }
    let rest = (behind % 512) as usize;
    if rest == 0 {
        return Ok(());
    }
    copy_piece(from, to, size - rest as u64, rest)
}

/// Writes the first 512 bytes, and settles.
fn write_first<E: Device>(to: &mut E, head: &[u8; 512]) -> Result<(), DeviceFault>
    requires { HasRange (E.bytes to.old) 0 512 }
    ensures wrote { Wrote result 0 head.now (E.bytes to.old) (E.bytes to.new) }
    ensures settled { OnOk result (IsSettled E.Device to.new) }
    ensures counts { Called (E.counts to.old) (E.counts to.new) 0 1 1 result }
    ensures kept { E.kept to.new ≡ E.kept to.old }
{
    match to.write(0, head) {
        Ok(()) => {}
        Err(fault) => return Err(fault),
    }
    match to.settle() {
        Ok(()) => Ok(()),
        Err(fault) => Err(fault),
    }
}

/// Makes `to` equal to `from`, which has the closed file of a store: `to` has the bytes of `from` then, and settled with them.
/// `from` is not written. No memory is taken.
///
/// In this order: the size of `from` is asked, and `Small` where it is below 512 bytes; its first 512 bytes are read, and
/// `NotStore` where they spell no header; `Small` where it has fewer bytes than the cells of the store; `NotClosed` where its
/// state byte is 1; the size of `to` is asked, and `Other` where it is neither 0 nor that of `from`; an empty `to` is laid out;
/// the bytes behind the first 512 are copied in pieces of 512; the first 512 are written; `to` settles. `Device` where one of
/// the two refused a call. After a `Device` before the last write the first 512 bytes of `to` are 0 where it was laid out, and
/// else those that it had; where it refused to be laid out it has any bytes, at most as many as `from`.
pub fn rebuild<D: Device, E: Device>(from: &mut D, to: &mut E) -> Result<(), RebuildFault>
    ensures rebuilds { Rebuilds D.Device E.Device from.old from.new to.old to.new result }
    ensures only_copied { OnlyCopied D.Device E.Device from.old from.new to.old to.new }
    ensures complete { CanBeRebuilt D.Device E.Device from.old from.new to.old to.new →
        IsOk result }
{
    let mut head = [0u8; 512];
    let found = match read_header(from, &mut head) {
        Ok(found) => found,
        Err(HeaderFault::NotStore) => return Err(RebuildFault::NotStore),
        Err(HeaderFault::Small) => return Err(RebuildFault::Small),
        Err(HeaderFault::Device) => return Err(RebuildFault::Device),
    };
    if !found.header.closed {
        return Err(RebuildFault::NotClosed);
    }
    match make_ready(to, found.size) {
        Ok(()) => {}
        Err(fault) => return Err(fault),
    }
    match copy_behind(from, to, found.size) {
        Ok(()) => {}
        Err(_) => return Err(RebuildFault::Device),
    }
    match write_first(to, &head) {
        Ok(()) => Ok(()),
        Err(_) => Err(RebuildFault::Device),
    }
}
