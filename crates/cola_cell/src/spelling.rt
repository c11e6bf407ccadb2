//! Cells as bytes. Numbers are little-endian.
ghost use Rattle.std.specs.Prelude.{◌≡◌, ◌+◌, ◌≤◌, ◌^◌, ℕ, List, [], ◌∷◌, ◌++◌, length, take, replicate, MatchOption, IsTrue, ◌↔◌};
ghost use Rattle.cola_cell.specs.declared.format.Format.TheVariants.{One, Two};
ghost use Rattle.cola_cell.specs.Bytes.{padded, IsKey, IsValue};
ghost use Rattle.cola_cell.specs.Cell.{key_of, kind_of, young_of, value_of, stamp_of, KindIs};
ghost use Rattle.cola_cell.specs.Format.{width, CellFits};
ghost use Rattle.cola_cell.specs.Spelling.{IsSpelling, Decodes, StampIs, key_at, stamp_bytes};

use crate::cell::{Cell, Item};
use crate::format::Format;
use crate::key::Key;
use crate::short::is_filled;
use crate::value::Value;
use byteorder::{ByteOrder, LittleEndian};

/// The largest stamp.
pub const LAST_STAMP: u64 = 1 << 63;

/// Zeros in the place of a value.
static NO_VALUE: [u8; 72] = [0; 72];

/// Writes the cell in format One, in the one way that it has there.
pub fn encode(cell: &Cell, into: &mut [u8; 64])
    requires { CellFits One cell.now }
    ensures { IsSpelling One cell.now into.new }
{
    encode_in(Format::One, cell, into);
}

/// The cell that the bytes spell in format One; none exactly on invalid bytes.
pub fn decode(bytes: &[u8; 64]) -> Option<Cell>
    ensures { Decodes One bytes.now result }
{
    decode_in(Format::One, bytes)
}

/// Writes the cell in format Two, in the one way that it has there.
pub fn encode_wide(cell: &Cell, into: &mut [u8; 128])
    requires { stamp_of cell.now ≤ 2 ^ 63 }
    ensures { IsSpelling Two cell.now into.new }
{
    know_limits(cell);
    encode_in(Format::Two, cell, into);
}

/// The cell that the bytes spell in format Two; none exactly on invalid bytes.
pub fn decode_wide(bytes: &[u8; 128]) -> Option<Cell>
    ensures { Decodes Two bytes.now result }
{
    decode_in(Format::Two, bytes)
}

/// Writes the cell in a format, in the one way that it has there.
#[inline(always)]
pub fn encode_in(format: Format, cell: &Cell, into: &mut [u8])
    requires size { length into.old ≡ width format }
    requires fits { CellFits format cell.now }
    ensures { IsSpelling format cell.now into.new }
{
    let mut link = [0u8; 4];
    LittleEndian::write_u32(&mut link, cell.link());
    put(into, 0, &head(cell));
    put(into, 4, &link);
    put_stamp(format, stamp(cell), into);
    put(into, format.key_at(), cell.key().room(format.key_limit()));
    put(
        into,
        format.value_at(),
        value_room(cell, format.value_limit()),
    );
}

// Does nothing: it says that key and value of a cell are within the limits of their types.
#[inline(always)]
fn know_limits(cell: &Cell)
    ensures key { IsKey (key_of cell.now) }
    ensures value { IsValue (value_of cell.now) }
{
    let _ = cell.key().len();
    if let Cell::Item { item, .. } = cell
        && let Item::Value { value, .. } = item
    {
        let _ = value.len();
    }
}

// Writes the part at the place.
#[inline(always)]
pub(crate) fn put(into: &mut [u8], place: usize, part: &[u8])
    requires { place + length part.now ≤ length into.old }
    ensures front { take (place + length part.now) into.new ≡ take place into.old ++ part.now }
    ensures size { length into.new ≡ length into.old }
{
    into[place..place + part.len()].copy_from_slice(part);
}

// Writes the stamp of a cell, where the format has one.
#[inline(always)]
pub(crate) fn put_stamp(format: Format, stamp: u64, into: &mut [u8])
    requires { length into.old ≡ width format }
    ensures front { take (key_at format) into.new ≡ take 8 into.old ++ stamp_bytes format stamp }
    ensures size { length into.new ≡ length into.old }
{
    if let Format::Two = format {
        let mut number = [0u8; 8];
        LittleEndian::write_u64(&mut number, stamp);
        put(into, 8, &number);
    }
}

// Bytes 0 to 3: kind, youth, and the lengths of key and value.
#[inline(always)]
fn head(cell: &Cell) -> [u8; 4]
    ensures { result ≡ kind_of cell.now ∷ young_of cell.now ∷ length (key_of cell.now) ∷ length
        (value_of cell.now) ∷ [] }
{
    match cell {
        Cell::Item {
            key,
            item,
            young,
            ..
        } => match item {
            Item::Value { value, .. } => [0, *young as u8, key.len() as u8, value.len() as u8],
            Item::Tombstone => [1, *young as u8, key.len() as u8, 0],
        },
        Cell::Look { key, .. } => [2, 0, key.len() as u8, 0],
    }
}

// The stamp, 0 where the cell is no value.
#[inline(always)]
fn stamp(cell: &Cell) -> u64
    ensures { result ≡ stamp_of cell.now }
{
    match cell {
        Cell::Item {
            item: Item::Value { stamp, .. },
            ..
        } => *stamp,
        _ => 0,
    }
}

// The value, then zeros to the end of a room of `n` bytes.
#[inline(always)]
fn value_room(cell: &Cell, n: usize) -> &[u8]
    requires holds { length (value_of cell.now) ≤ n }
    requires fits { n ≤ 72 }
    ensures { result.now ≡ padded n (value_of cell.now) }
{
    match cell {
        Cell::Item { item, .. } => match item {
            Item::Value { value, .. } => value.room(n),
            Item::Tombstone => zeros(n),
        },
        Cell::Look { .. } => zeros(n),
    }
}

// A room of `n` zeros.
#[inline(always)]
pub(crate) fn zeros(n: usize) -> &'static [u8]
    requires { n ≤ 72 }
    ensures { result.now ≡ replicate n 0 }
{
    &NO_VALUE[..n]
}

#[inline(always)]
fn decode_in(format: Format, bytes: &[u8]) -> Option<Cell>
    requires { length bytes.now ≡ width format }
    ensures { Decodes format bytes.now result }
{
    let key_room = &bytes[format.key_at()..format.value_at()];
    let value_room = &bytes[format.value_at()..format.width()];
    if bytes[2] == 0 || !is_filled(key_room, bytes[2]) || !is_filled(value_room, bytes[3]) {
        return None;
    }
    let stamp = stamp_in(format, bytes)?;
    if !is_kind(bytes[0], bytes[1], bytes[3], stamp) {
        return None;
    }
    let link = LittleEndian::read_u32(&bytes[4..8]);
    let key = Key::of_room(key_room, bytes[2]);
    let young = bytes[1] == 1;
    if bytes[0] == 0 {
        let value = Value::of_room(value_room, bytes[3]);
        let item = Item::Value { value, stamp };
        return Some(Cell::Item {
            key,
            item,
            young,
            link,
        });
    }
    if bytes[0] == 1 {
        let item = Item::Tombstone;
        return Some(Cell::Item {
            key,
            item,
            young,
            link,
        });
    }
    Some(Cell::Look { key, link })
}

// Whether a cell has this kind and youth, with a value of this length and this stamp.
#[inline(always)]
pub(crate) fn is_kind(kind: u8, young: u8, value_len: u8, stamp: u64) -> bool
    ensures { IsTrue result ↔ KindIs kind young value_len stamp }
{
    if kind == 0 {
        return young <= 1;
    }
    if value_len != 0 || stamp != 0 {
        return false;
    }
    if kind == 1 {
        young <= 1
    } else {
        kind == 2 && young == 0
    }
}

// The stamp in the bytes, or none where it is too large. Format One has no stamp but 0.
#[inline(always)]
pub(crate) fn stamp_in(format: Format, bytes: &[u8]) -> Option<u64>
    requires { length bytes.now ≡ width format }
    ensures { MatchOption result ((stamp : ℕ) → ¬ StampIs format stamp bytes.now)
        (λ stamp. StampIs format stamp bytes.now) }
{
    if let Format::One = format {
        return Some(0);
    }
    let stamp = LittleEndian::read_u64(&bytes[8..16]);
    if stamp > LAST_STAMP {
        return None;
    }
    Some(stamp)
}
