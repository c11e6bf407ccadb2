//! The cells of one block as its bytes.
ghost use Rattle.std.specs.Prelude.{◌≡◌, ◌+◌, ◌*◌, ◌≤◌, ◌++◌, nat_lt, Option, None, Some, is_some, if◌then◌else◌, length, drop};
ghost use Rattle.cola_cell.specs.Decoded.{decoded};
ghost use Rattle.cola_cell.specs.Format.{width, CellFits};
ghost use Rattle.cola_cell.specs.Packed.{passed, MayPass};
ghost use Rattle.cola_device.specs.Bytes.{part, splice};
ghost use Rattle.cola_front.specs.Front.{IsSpelled, cell_bytes, spelled_at, place_in, places_in, stored, stored_all};

use cola_cell::{Format, Packed, Pass, is_cell};

/// The cell at a place of a block, which is counted in cells, packed; or none where its bytes spell none.
#[inline]
pub(crate) fn packed_in(format: Format, block: &[u8], place: usize) -> Option<Packed>
    requires { width format * place + width format ≤ length block.now }
    ensures { result ≡ spelled_at format block.now place }
{
    match format {
        Format::One => Packed::of(format, &block[64 * place..64 * place + 64]),
        Format::Two => Packed::of(format, &block[128 * place..128 * place + 128]),
    }
}

/// Takes the cell at a place of a block, which is counted in cells, into a packed cell. False exactly where its bytes
/// spell none.
#[inline(always)]
pub fn refill_from(format: Format, block: &[u8], place: usize, into: &mut Packed) -> bool
    requires { width format * place + width format ≤ length block.now }
    ensures { (if result then Some into.new else None) ≡ spelled_at format block.now place }
{
    match format {
        Format::One => into.refill(format, &block[64 * place..64 * place + 64]),
        Format::Two => into.refill(format, &block[128 * place..128 * place + 128]),
    }
}

/// The bytes of a cell at a place of a block, which is counted in cells.
#[inline(always)]
fn cell_in(format: Format, block: &[u8], place: usize) -> &[u8]
    requires { width format * place + width format ≤ length block.now }
    ensures { result.now ≡ cell_bytes format block.now place }
{
    match format {
        Format::One => &block[64 * place..64 * place + 64],
        Format::Two => &block[128 * place..128 * place + 128],
    }
}

/// The bytes of so many cells from a place of a block on, which is counted in cells.
#[inline(always)]
pub(crate) fn cells_in(format: Format, block: &[u8], place: usize, count: usize) -> &[u8]
    requires { width format * place + width format * count ≤ length block.now }
    ensures { result.now ≡ part block.now (width format * place) (width format * count) }
{
    match format {
        Format::One => &block[64 * place..64 * place + 64 * count],
        Format::Two => &block[128 * place..128 * place + 128 * count],
    }
}

/// Whether the bytes of a place of a block spell a cell.
#[inline]
pub(crate) fn is_cell_in(format: Format, block: &[u8], place: usize) -> bool
    requires { width format * place + width format ≤ length block.now }
    ensures { result ≡ is_some (spelled_at format block.now place) }
{
    is_cell(format, cell_in(format, block, place))
}

/// Copies so many cells, from the cell `first` of those on, to a place of both blocks and the places behind it.
#[inline]
pub(crate) fn copy_cells(
    format: Format,
    bytes: &mut [u8],
    place: usize,
    cells: &[u8],
    first: usize,
    count: usize,
)
    requires room { width format * place + width format * count ≤ length bytes.old }
    requires there { width format * first + width format * count ≤ length cells.now }
    ensures { bytes.new ≡ splice bytes.old (width format * place)
        (part cells.now (width format * first) (width format * count)) }
{
    let new = cells_in(format, cells, first, count);
    match format {
        Format::One => bytes[64 * place..64 * place + 64 * count].copy_from_slice(new),
        Format::Two => bytes[128 * place..128 * place + 128 * count].copy_from_slice(new),
    }
}

/// Fills the room of a cell with the bytes of a place of both blocks: zeros at the header's places, and where they spell
/// no cell.
#[inline]
fn fill(format: Format, place: usize, cell: &[u8], into: &mut [u8])
    requires cell { length cell.now ≡ width format }
    requires size { length into.old ≡ width format }
    ensures { into.new ≡
        stored format (if nat_lt place 8 then None else decoded format cell.now) }
{
    if place < 8 {
        into.fill(0);
        return;
    }
    if !is_cell(format, cell) {
        into.fill(0);
        return;
    }
    into.copy_from_slice(cell);
}

/// Puts the bytes of the place `from` of both blocks at a place of one: zeros where no cell stands.
#[inline]
pub(crate) fn put_place(format: Format, block: &mut [u8], place: usize, bytes: &[u8], from: usize)
    requires inside { width format * place + width format ≤ length block.old }
    requires there { width format * from + width format ≤ length bytes.now }
    ensures { block.new ≡ splice block.old (width format * place)
        (stored format (place_in format bytes.now from)) }
{
    let cell = cell_in(format, bytes, from);
    match format {
        Format::One => fill(format, from, cell, &mut block[64 * place..64 * place + 64]),
        Format::Two => fill(
            format,
            from,
            cell,
            &mut block[128 * place..128 * place + 128],
        ),
    }
}

/// Fills the room of a cell with what becomes of another.
#[inline(always)]
fn fill_as(format: Format, cell: &Packed, pass: Pass, into: &mut [u8])
    requires size { length into.old ≡ width format }
    requires may { MayPass pass cell.now }
    requires fits { CellFits format cell.now }
    ensures put { into.new ≡ stored format (Some (passed pass cell.now)) }
    ensures spelled { IsSpelled format (passed pass cell.now) }
{
    cell.write_as(format, pass, into);
}

/// Puts what becomes of a cell at a place of a block, which is counted in cells.
#[inline(always)]
pub fn put_as(format: Format, block: &mut [u8], place: usize, cell: &Packed, pass: Pass)
    requires inside { width format * place + width format ≤ length block.old }
    requires may { MayPass pass cell.now }
    requires fits { CellFits format cell.now }
    ensures put { block.new ≡
        splice block.old (width format * place) (stored format (Some (passed pass cell.now))) }
    ensures spelled { IsSpelled format (passed pass cell.now) }
{
    match format {
        Format::One => fill_as(format, cell, pass, &mut block[64 * place..64 * place + 64]),
        Format::Two => fill_as(
            format,
            cell,
            pass,
            &mut block[128 * place..128 * place + 128],
        ),
    }
}

/// Puts the header at the start of a block.
pub(crate) fn put_header(block: &mut [u8], header: &[u8; 512])
    requires { 512 ≤ length block.old }
    ensures { block.new ≡ header.now ++ drop 512 block.old }
{
    block[..512].copy_from_slice(header);
}

/// Puts the bytes of so many places of both blocks, from the place `first` on, into a block, one behind the other.
pub(crate) fn put_cells(format: Format, block: &mut [u8], bytes: &[u8], first: usize, count: usize)
    requires whole { length block.old ≡ width format * count }
    requires inside { width format * (first + count) ≤ length bytes.now }
    ensures put { block.new ≡ stored_all format (places_in format bytes.now first count) }
    ensures many { length block.new ≡ length block.old }
{
    for place in 0..count {
        put_place(format, block, place, bytes, first + place);
    }
}
