//! The cells of a file by its bytes alone: where each stands, and bytes that end before a cell.
use crate::made::put_at;
use cola_cell::Format;
use cola_plain_files::cells::{cell_of_file, run_of_file};
use std::alloc::{AllocError, Global};
use std::process::Abort;
use std::test::Fail;

/// Numbers of cells in a file of 128, and where they stand: the level, the slot and the index.
const PLACES: [(usize, u8, u8, u32); 8] = [
    (8, 0, 0, 0),
    (15, 0, 1, 3),
    (16, 1, 0, 0),
    (31, 1, 1, 7),
    (32, 2, 0, 0),
    (63, 2, 1, 15),
    (64, 3, 0, 0),
    (126, 3, 1, 30),
];

// A file of 128 cells of a width, of which one is a tombstone of the key `a` and the others are zeros.
fn file_with(alloc: Global, width: usize, number: usize) -> Result<Vec<u8>, AllocError> {
    let mut bytes = vec![in alloc; 0u8; 16_384]?;
    bytes.truncate(width.saturating_mul(128));
    let key_at = width / 8;
    let at = width.saturating_mul(number);
    put_at(&mut bytes, at, &[1, 0, 1]);
    put_at(&mut bytes, at.saturating_add(key_at), b"a");
    Ok(bytes)
}

// Each cell of the table is the last but one of a run, of whose cells the bytes spell no other.
fn stand_in_place(
    rt: &impl Abort,
    alloc: Global,
    format: Format,
    width: usize,
) -> Result<(), Fail> {
    for (number, level, slot, index) in PLACES {
        let file = file_with(alloc, width, number)?;
        let len = index.saturating_add(2);
        let cells = run_of_file(alloc, format, &file, level.min(3), slot.min(1), len)?;
        let spelled = cells.iter().filter(|cell| cell.is_some()).count();
        let last = cells.get(index as usize).copied().flatten();
        assert!(rt; spelled == 1 && last.is_some(), "cell {number}");
        assert!(rt;
            cell_of_file(format, &file, number as u64) == last,
            "cell {number}"
        );
    }
    Ok(())
}

#[test]
fn cells_stand_in_their_places(rt: HostRuntime) -> Result<(), Fail> {
    stand_in_place(&rt, rt.alloc(), Format::One, 64)?;
    stand_in_place(&rt, rt.alloc(), Format::Two, 128)
}

// The format, the number of a cell, how long the bytes are where the cell 127 of version 1 alone is spelled, and whether the
// cell is.
const ENDS: [(Format, usize, u64, bool); 6] = [
    (Format::One, 8_192, 127, true),
    (Format::One, 8_191, 127, false),
    (Format::One, 8_192, 128, false),
    (Format::One, 8_192, u64::MAX, false),
    (Format::Two, 8_192, 8, false),
    (Format::Two, 0, 0, false),
];

#[test]
fn bytes_that_end_before_a_cell(rt: HostRuntime) -> Result<(), Fail> {
    for (format, len, number, is_spelled) in ENDS {
        let mut file = file_with(rt.alloc(), 64, 127)?;
        file.truncate(len);
        let found = cell_of_file(format, &file, number);
        assert!(rt; found.is_some() == is_spelled, "{number} in {len} bytes");
    }
    Ok(())
}
