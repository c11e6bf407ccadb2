//! How a new store is made in zero bytes.
ghost use Rattle.std.specs.Prelude.{◌≡◌, ◌+◌, ◌≤◌, ◌↔◌, length, slice_index, EachIndex, IsTrue, IfSome, IfNone};
ghost use Rattle.cola_device.specs.Bytes.{splice};
ghost use Rattle.cola_layout.specs.Header.{IsSpelling};
ghost use Rattle.cola_store.specs.Create.{new_header};
ghost use Rattle.cola_handle.specs.Created.{HasSizes, LacksSizes, HasSize, Creates};

use crate::answer::Answer;
use cola_cell::Format;
use cola_layout::{Geometry, Header};
use cola_opening::size_of;

/// The sizes of a store for so many keys, with blocks of `2^block_exp` cells, in a version.
fn geometry_of(keys: u64, block_exp: u8, version: u8) -> Option<Geometry>
    ensures sizes { IfSome result
        (λ geometry. HasSizes keys block_exp version geometry.format geometry.bottom) }
    ensures keys { IfSome result (λ geometry. geometry.keys ≡ keys) }
    ensures block { IfSome result (λ geometry. geometry.block_exp ≡ block_exp) }
    ensures refused { IfNone result (LacksSizes keys block_exp version) }
{
    let format = match version {
        1 => Format::One,
        2 => Format::Two,
        _ => return None,
    };
    Geometry::of_format(keys, block_exp, format).ok()
}

/// How many bytes a store takes, or none where there is no such store.
pub fn size(keys: u64, block_exp: u8, version: u8) -> Option<u64>
    ensures { HasSize keys block_exp version result }
{
    match geometry_of(keys, block_exp, version) {
        Some(geometry) => Some(size_of(&geometry)),
        None => None,
    }
}

/// Whether every byte is zero. No byte ends the loop, so that the compiler reads many at a time.
fn is_zero(bytes: &[u8]) -> bool
    ensures { IsTrue result ↔ EachIndex bytes.now (λ k. slice_index bytes.now k ≡ 0) }
{
    let mut ones = 0;
    for index in 0..bytes.len() {
        ones |= bytes[index];
    }
    ones == 0
}

/// The spelling of the header of a closed store with no keys.
fn first_bytes(geometry: Geometry) -> [u8; 512]
    ensures spelled { IsSpelling
        (new_header geometry.format geometry.keys geometry.block_exp geometry.bottom) result }
    ensures size { length result ≡ 512 }
{
    let mut bytes = [0u8; 512];
    Header::empty(geometry).encode(&mut bytes);
    bytes
}

/// Puts bytes in the place of those from a place on. All others stay.
fn put_at(bytes: &mut [u8], at: usize, from: &[u8])
    requires { at + length from.now ≤ length bytes.old }
    ensures { bytes.new ≡ splice bytes.old at from.now }
{
    bytes[at..at + from.len()].copy_from_slice(from);
}

/// Makes the file of a new store in zero bytes, of which there are at least as many as the store has: the header of a closed
/// store with no keys, and zeros behind it. `Options` where there is no store of these numbers; `Small`; `NotEmpty` where a
/// byte is not zero. A refusal leaves the bytes.
pub fn create(bytes: &mut [u8], keys: u64, block_exp: u8, version: u8) -> Answer
    ensures { Creates keys block_exp version bytes.old bytes.new result }
{
    let Some(geometry) = geometry_of(keys, block_exp, version) else {
        return Answer::Options;
    };
    if (bytes.len() as u64) < size_of(&geometry) {
        return Answer::Small;
    }
    if !is_zero(bytes) {
        return Answer::NotEmpty;
    }
    let head = first_bytes(geometry);
    put_at(bytes, 0, &head);
    Answer::Done
}
