//! Numbers in lists of bytes, little-endian.

ghost use Rattle.std.specs.Prelude.{◌≡◌, ◌≤◌, ◌+◌, ◌++◌, length, take, drop};
ghost use Rattle.byteorder.specs.Endian.{little_bytes, little_number};

use byteorder::{ByteOrder, LittleEndian};

/// Writes the bytes at a place, and keeps all others.
pub(crate) fn put(into: &mut [u8], at: usize, bytes: &[u8])
    requires { at + length bytes.now ≤ length into.old }
    ensures { into.new ≡ take at into.old ++ (bytes.now ++ drop (at + length bytes.now) into.old) }
{
    into[at..at + bytes.len()].copy_from_slice(bytes);
}

/// Writes a number of 32 bits at a place, and keeps all other bytes.
pub(crate) fn put_u32(into: &mut [u8], at: usize, number: u32)
    requires { at + 4 ≤ length into.old }
    ensures { into.new ≡ take at into.old ++ (little_bytes 4 number ++ drop (at + 4) into.old) }
{
    LittleEndian::write_u32(&mut into[at..at + 4], number);
}

/// Writes a number of 64 bits at a place, and keeps all other bytes.
pub(crate) fn put_u64(into: &mut [u8], at: usize, number: u64)
    requires { at + 8 ≤ length into.old }
    ensures { into.new ≡ take at into.old ++ (little_bytes 8 number ++ drop (at + 8) into.old) }
{
    LittleEndian::write_u64(&mut into[at..at + 8], number);
}

/// The number of 32 bits at a place.
pub(crate) fn u32_at(bytes: &[u8], at: usize) -> u32
    requires { at + 4 ≤ length bytes.now }
    ensures { result ≡ little_number 4 (drop at bytes.now) }
{
    LittleEndian::read_u32(&bytes[at..])
}

/// The number of 64 bits at a place.
pub(crate) fn u64_at(bytes: &[u8], at: usize) -> u64
    requires { at + 8 ≤ length bytes.now }
    ensures { result ≡ little_number 8 (drop at bytes.now) }
{
    LittleEndian::read_u64(&bytes[at..])
}
