//! Two devices, compared byte by byte.
ghost use Rattle.std.specs.Prelude.{◌≡◌, ◌+◌, ◌*◌, ◌^◌, ◌<◌, ◌≤◌, length, IfSome};
ghost use Rattle.cola_device.specs.Bytes.{HasSize, HasRange};
ghost use Rattle.cola_mirror.specs.Differ.{first_difference, differ_within, pieces_of, Compares, OnlyRead, OnlyCompared};

use cola_device::{Device, DeviceFault};

/// The first place at which two lists of as many bytes differ.
fn difference(first: &[u8], second: &[u8]) -> Option<usize>
    requires { length second.now ≡ length first.now }
    ensures is { result ≡ first_difference first.now second.now }
    ensures within { IfSome result (λ place. place < length first.now) }
{
    for place in 0..first.len() {
        if first[place] != second[place] {
            return Some(place);
        }
    }
    None
}

/// Compares up to 512 bytes from a place on: the first place, from the beginning of the devices, at which they differ.
fn compare_piece<D: Device, E: Device>(
    first: &mut D,
    second: &mut E,
    at: u64,
    count: usize,
) -> Result<Option<u64>, DeviceFault>
    requires few { count ≤ 512 }
    requires fits { at + count < 2 ^ 64 }
    requires inside { HasRange (D.bytes first.old) at count }
    requires second_inside { HasRange (E.bytes second.old) at count }
    ensures compares { Compares D.Device E.Device first.old first.new second.old second.new
        (differ_within at count) result }
    ensures only_read { OnlyRead D.Device E.Device first.old first.new second.old second.new 1 0 }
{
    let mut bytes = [0u8; 512];
    let mut others = [0u8; 512];
    let bytes = &mut bytes[..count];
    let others = &mut others[..count];
    match first.read(at, bytes) {
        Ok(()) => {}
        Err(fault) => return Err(fault),
    }
    match second.read(at, others) {
        Ok(()) => {}
        Err(fault) => return Err(fault),
    }
    match difference(bytes, others) {
        Some(place) => Ok(Some(at + place as u64)),
        None => Ok(None),
    }
}

/// Compares the first bytes of both, so many, in pieces of 512, the last one shorter.
fn compare_pieces<D: Device, E: Device>(
    first: &mut D,
    second: &mut E,
    size: u64,
) -> Result<Option<u64>, DeviceFault>
    requires inside { HasRange (D.bytes first.old) 0 size }
    requires second_inside { HasRange (E.bytes second.old) 0 size }
    ensures compares { Compares D.Device E.Device first.old first.new second.old second.new
        (differ_within 0 size) result }
    ensures only_read { OnlyRead D.Device E.Device first.old first.new second.old second.new
        (pieces_of size) 0 }
{
    for piece in 0..size / 512 {
        match compare_piece(first, second, 512 * piece, 512) {
            Ok(None) => {}
            Ok(Some(place)) => return Ok(Some(place)),
            Err(fault) => return Err(fault),
        }
    }
    let rest = (size % 512) as usize;
    if rest == 0 {
        return Ok(None);
    }
    compare_piece(first, second, size - rest as u64, rest)
}

/// The first place at which the bytes of two devices differ, where the end of the shorter one counts as such; none where all
/// bytes are the same. Neither is written, and no memory is taken.
///
/// In this order: the size of the first is asked, that of the second, and pieces of 512 bytes of the first and the second are
/// read in turn, up to the end of the shorter or the first difference; the last piece may have fewer bytes. An error where
/// one of the two refused a call.
pub fn compare<D: Device, E: Device>(
    first: &mut D,
    second: &mut E,
) -> Result<Option<u64>, DeviceFault>
    ensures compares { Compares D.Device E.Device first.old first.new second.old second.new first_difference result }
    ensures only_compared { OnlyCompared D.Device E.Device first.old first.new second.old second.new }
{
    let size = match first.size() {
        Ok(size) => size,
        Err(fault) => return Err(fault),
    };
    let other = match second.size() {
        Ok(size) => size,
        Err(fault) => return Err(fault),
    };
    let shorter = size.min(other);
    match compare_pieces(first, second, shorter) {
        Ok(None) => {}
        Ok(Some(place)) => return Ok(Some(place)),
        Err(fault) => return Err(fault),
    }
    if size == other {
        return Ok(None);
    }
    Ok(Some(shorter))
}
