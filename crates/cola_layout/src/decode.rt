//! The bytes of a header, read.

ghost use Rattle.std.specs.Prelude.{◌≡◌, ◌≢◌, ◌≤◌, ◌+◌, ◌*◌, ◌^◌, ◌↔◌, Bool, IsTrue, EachIndex, length, drop, slice_index, if◌then◌else◌, MatchOption};
ghost use Rattle.cola_cell.specs.declared.format.Format.{Format as AnyFormat};
ghost use Rattle.cola_cell.specs.Format.{stamp_limit};
ghost use Rattle.cola_layout.specs.Header.{IsNoSpelling};
ghost use Rattle.cola_layout.specs.Fields.{Decodes};
ghost use Rattle.cola_layout.specs.Read.{HasFormat, HasGeometry, IsZeroBehind, levels_in, marks_in};

use crate::bytes::{u32_at, u64_at};
use crate::encode::{LEVELS_AT, MARKS_SIZE, NAME};
use crate::geometry::Geometry;
use crate::header::Header;
use crate::marks::{Marks, levels_fit};
use arrayvec::ArrayVec;
use cola_cell::{Format, LAST_STAMP, MOST_LEVELS};

/// The header that the 512 bytes spell, or none where they are no spelling.
pub(crate) fn read(bytes: &[u8]) -> Option<Header>
    requires { length bytes.now ≡ 512 }
    ensures { Decodes bytes.now result }
{
    let geometry = read_geometry(bytes)?;
    let closed = read_closed(bytes[14])?;
    let count = u64_at(bytes, 24);
    let clock = u64_at(bytes, 32);
    let last = u64_at(bytes, 40);
    if count > geometry.keys
        || clock >= clock_end(geometry.bottom)
        || last > last_limit(geometry.format)
    {
        return None;
    }
    let levels = read_levels(bytes, geometry.levels());
    if !is_zero_behind(bytes, geometry.levels())
        || !levels_fit(clock, geometry.bottom, levels.as_slice())
    {
        return None;
    }
    Some(Header {
        geometry,
        closed,
        count,
        clock,
        last,
        levels,
    })
}

// The format, by the name and the version.
fn read_format(bytes: &[u8]) -> Option<Format>
    requires { length bytes.now ≡ 512 }
    ensures { MatchOption result ((format : AnyFormat) → ¬ HasFormat format bytes.now)
        (λ format. HasFormat format bytes.now) }
{
    if !bytes.starts_with(&NAME) {
        return None;
    }
    match u32_at(bytes, 8) {
        1 => Some(Format::One),
        2 => Some(Format::Two),
        _ => None,
    }
}

// The geometry, by the keys, the lowest level, the block and the format.
fn read_geometry(bytes: &[u8]) -> Option<Geometry>
    requires { length bytes.now ≡ 512 }
    ensures { MatchOption result (IsNoSpelling bytes.now)
        (λ g. HasGeometry g.format g.block_exp g.bottom g.keys bytes.now) }
{
    let format = read_format(bytes)?;
    let Ok(geometry) = Geometry::of_format(u64_at(bytes, 16), bytes[12], format) else {
        return None;
    };
    if geometry.bottom != bytes[13] || bytes[15] != 0 {
        return None;
    }
    Some(geometry)
}

// Whether a store is closed, by its state's byte.
fn read_closed(state: u8) -> Option<bool>
    ensures { MatchOption result ((closed : Bool) → (if closed then 0 else 1) ≢ state)
        (λ closed. (if closed then 0 else 1) ≡ state) }
{
    match state {
        0 => Some(true),
        1 => Some(false),
        _ => None,
    }
}

// The first number that the clock does not reach.
fn clock_end(bottom: u8) -> u64
    requires { bottom ≤ 22 }
    ensures value { result ≡ 2 ^ (bottom + 1) }
    ensures bound { result ≤ 2 ^ 23 }
{
    1 << (bottom + 1)
}

// The largest last number of a format.
fn last_limit(format: Format) -> u64
    ensures { result ≡ stamp_limit format }
{
    match format {
        Format::One => 0,
        Format::Two => LAST_STAMP,
    }
}

// The marks of so many levels.
fn read_levels(bytes: &[u8], levels: u8) -> ArrayVec<Marks, MOST_LEVELS>
    requires size { length bytes.now ≡ 512 }
    requires few { levels ≤ 23 }
    ensures { result.items ≡ levels_in levels (drop 48 bytes.now) }
{
    let mut read = ArrayVec::new();
    for level in 0..levels {
        read.push(read_marks(bytes, LEVELS_AT + MARKS_SIZE * level as usize));
    }
    read
}

// A level's marks.
fn read_marks(bytes: &[u8], at: usize) -> Marks
    requires { at + 20 ≤ length bytes.now }
    ensures { result ≡ marks_in (drop at bytes.now) }
{
    Marks {
        visible: u32_at(bytes, at),
        shadow: u32_at(bytes, at + 4),
        own: u32_at(bytes, at + 8),
        incoming: u32_at(bytes, at + 12),
        sample: u32_at(bytes, at + 16),
    }
}

// Whether the bytes behind the marks of so many levels are zero.
fn is_zero_behind(bytes: &[u8], levels: u8) -> bool
    requires size { length bytes.now ≡ 512 }
    requires few { levels ≤ 23 }
    ensures { IsTrue result ↔ IsZeroBehind levels bytes.now }
{
    is_zero(&bytes[LEVELS_AT + MARKS_SIZE * levels as usize..])
}

// Whether all bytes are zero.
fn is_zero(bytes: &[u8]) -> bool
    ensures { IsTrue result ↔ EachIndex bytes.now (λ k. slice_index bytes.now k ≡ 0) }
{
    bytes.iter().all(|byte| *byte == 0)
}
