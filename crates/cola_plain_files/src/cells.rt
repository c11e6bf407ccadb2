//! The cells that a file's bytes spell, as a plain slow program: it reads bytes in memory, one cell after the other, and
//! takes no care of blocks, levels or runs.

ghost use Rattle.std.specs.Prelude.{◌≡◌, ◌≤◌, ◌<◌, ◌↔◌, ◌+◌, ◌*◌, ℕ, IsNone, IfOk, length, map, Option, None, slice_index_or};
ghost use Rattle.cola_cell.specs.declared.format.Format.TheVariants.{One, Two};
ghost use Rattle.cola_cell.specs.Decoded.{decoded};
ghost use Rattle.cola_cell.specs.Flat.{spot_of};
ghost use Rattle.cola_cell.specs.Format.{width};
ghost use Rattle.cola_cell.specs.Places.{number_of};
ghost use Rattle.cola_layout.specs.Cells.{cell_bytes, spot_at, file_spots, slot_cells, law_cell_of};

use cola_cell::{Cell, Format, Item, decode, decode_wide};
use std::alloc::{AllocError, Global};

/// The cell that the bytes of one cell spell, or none where they spell none.
fn cell_of(format: Format, bytes: &[u8]) -> Option<Cell>
    requires { length bytes.now ≡ width format }
    ensures { result ≡ decoded format bytes.now }
{
    match format {
        Format::One => {
            let mut spelled = [0u8; 64];
            spelled.copy_from_slice(bytes);
            decode(&spelled)
        }
        Format::Two => {
            let mut spelled = [0u8; 128];
            spelled.copy_from_slice(bytes);
            decode_wide(&spelled)
        }
    }
}

/// The cell with this number that a file's bytes spell, or none where they spell none there. Cells are counted from the
/// file's begin, the header's among them; there is none where the bytes end before the cell's end.
pub fn cell_of_file(format: Format, bytes: &[u8], number: u64) -> Option<Cell>
    ensures answer { result ≡ decoded format (cell_bytes format bytes.now number) }
    ensures tells { spot_of result ≡ spot_at format bytes.now number }
    ensures past { length bytes.now < width format * number + width format → IsNone result }
{
    let width = format.width();
    let cells = bytes.len() / width;
    if number >= cells as u64 {
        return None;
    }
    let start = width * number as usize;
    cell_of(format, &bytes[start..start + width])
}

/// The number of the cell at an index of a slot of a level.
fn number_at(level: u8, slot: u8, index: u32) -> u64
    requires level_exists { level ≤ 22 }
    requires slot_exists { slot ≤ 1 }
    ensures { result ≡ number_of level slot index }
{
    let size = 1u64 << (level + 2);
    (2 + u64::from(slot)) * size + u64::from(index)
}

/// The cells that a file's bytes spell in the first `len` places of a slot of a level, with none where they spell none. A
/// store has at most the levels 0 to 22, each with the slots 0 and 1. An error comes only for want of memory.
pub fn run_of_file(
    alloc: Global,
    format: Format,
    bytes: &[u8],
    level: u8,
    slot: u8,
    len: u32,
) -> Result<Vec<Option<Cell>>, AllocError>
    requires level_exists { level ≤ 22 }
    requires slot_exists { slot ≤ 1 }
    ensures many { IfOk result (λ cells. length cells.items ≡ len) }
    ensures each { IfOk result
        (λ cells. (index : ℕ) → index < len →
        spot_of (slice_index_or cells.items index None)
        ≡ file_spots format bytes.now level slot index) }
    ensures listed { IfOk result
        (λ cells. map law_cell_of cells.items ≡ slot_cells
        (file_spots format bytes.now) level slot len) }
{
    let _item: Option<Item> = None;
    let mut cells = Vec::new(alloc);
    for index in 0..len {
        cells.push(cell_of_file(format, bytes, number_at(level, slot, index)))?;
    }
    Ok(cells)
}
