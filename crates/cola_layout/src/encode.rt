//! The bytes of a header, written.

ghost use Rattle.std.specs.Prelude.{◌≡◌, ◌≤◌, ◌+◌, ◌*◌, ◌++◌, length, take, flat_map, if◌then◌else◌};
ghost use Rattle.cola_layout.specs.Header.{header_bytes, head_bytes, marks_bytes, version_of};
ghost use Rattle.cola_layout.specs.Fields.{fields_of};

use crate::bytes::{put, put_u32, put_u64};
use crate::header::Header;
use crate::marks::Marks;
use cola_cell::Format;

/// The name that a store's file begins with.
pub(crate) const NAME: [u8; 8] = *b"COLASTOR";

/// Where the marks of level 0 begin, in bytes.
pub(crate) const LEVELS_AT: usize = 48;

/// The bytes of a level's marks.
pub(crate) const MARKS_SIZE: usize = 20;

/// Writes the header's 512 bytes.
pub(crate) fn write(header: &Header, into: &mut [u8])
    requires { length into.old ≡ 512 }
    ensures { into.new ≡ header_bytes (fields_of header.now) }
{
    write_head(header, into);
    write_levels(&header.levels, into);
    into[LEVELS_AT + MARKS_SIZE * header.levels.len()..].fill(0);
}

// Writes the bytes before the levels' marks.
fn write_head(header: &Header, into: &mut [u8])
    requires { length into.old ≡ 512 }
    ensures text { take 48 into.new ≡ head_bytes (fields_of header.now) }
    ensures size { length into.new ≡ 512 }
{
    let geometry = &header.geometry;
    put(into, 0, &NAME);
    put_u32(into, 8, version(geometry.format));
    put(
        into,
        12,
        &[geometry.block_exp, geometry.bottom, state(header.closed), 0],
    );
    put_u64(into, 16, geometry.keys);
    put_u64(into, 24, header.count);
    put_u64(into, 32, header.clock);
    put_u64(into, 40, header.last);
}

// Writes the levels' marks, one behind the other, and keeps the bytes before them.
fn write_levels(levels: &[Marks], into: &mut [u8])
    requires size { length into.old ≡ 512 }
    requires few { length levels.now ≤ 23 }
    ensures text { take
        (48 + 20 * length levels.now) into.new
        ≡ take 48 into.old ++ flat_map marks_bytes levels.now }
    ensures size { length into.new ≡ 512 }
{
    for (level, marks) in levels.iter().enumerate() {
        write_marks(marks, LEVELS_AT + MARKS_SIZE * level, into);
    }
}

// Writes a level's marks at a place, and keeps all other bytes.
fn write_marks(marks: &Marks, at: usize, into: &mut [u8])
    requires { at + 20 ≤ length into.old }
    ensures text { take (at + 20) into.new ≡ take at into.old ++ marks_bytes marks.now }
    ensures size { length into.new ≡ length into.old }
{
    put_u32(into, at, marks.visible);
    put_u32(into, at + 4, marks.shadow);
    put_u32(into, at + 8, marks.own);
    put_u32(into, at + 12, marks.incoming);
    put_u32(into, at + 16, marks.sample);
}

// The byte that says whether a store is closed.
fn state(closed: bool) -> u8
    ensures { result ≡ (if closed then 0 else 1) }
{
    if closed { 0 } else { 1 }
}

// The version of a format.
fn version(format: Format) -> u32
    ensures { result ≡ version_of format }
{
    match format {
        Format::One => 1,
        Format::Two => 2,
    }
}
