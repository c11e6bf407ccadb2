//! The cells of a file: the first that is bad, or all of them as levels.

ghost use Rattle.std.specs.Prelude.{◌≡◌, ◌≤◌, ◌<◌, ◌+◌, ◌^◌, ℕ, List, length, vec_len, IfOk, IfSome, MatchOption, slice_index_or, None};
ghost use Rattle.cola_cell.specs.Flat.{spot_of};
ghost use Rattle.cola_clock.specs.Clock.{visible_slot};
ghost use Rattle.cola_clock.specs.Marks.{marks_at};
ghost use Rattle.cola_layout.specs.Cells.{slot_cells};
ghost use Rattle.cola_layout.specs.Marks.{numbers_of, all_numbers};
ghost use Rattle.cola_plain_runs.specs.Runs.{as_run};
ghost use Rattle.cola_cell.specs.ToldCells.{IsTold};
ghost use Rattle.cola_plain_files.specs.Levels.{as_level, as_levels};
ghost use Rattle.cola_plain_files.specs.File.{file_of, IsSlotTold, IsFirstBad, IsLevelTold, IsLowestOfLevel, level_in, AllFound, IsFirstNone, ArePlacesTold};
ghost use Rattle.cola_verdict.specs.Tests.{run_len, AreCellsTold, IsLowestBad, levels_in};

use crate::cells::run_of_file;
use crate::verdict::cells::{FileCell, plain_run};
use crate::verdict::level::PlainLevel;
use cola_cell::{Cell, Item};
use cola_clock::visible_slot;
use cola_layout::{Header, Marks};
use std::alloc::{AllocError, Global};

/// The marks of a level.
fn marks_of(header: &Header, level: u8) -> Marks
    requires { level ≤ header.now.geometry.bottom }
    ensures value { numbers_of result ≡ marks_at (all_numbers header.now.levels.items) level }
    ensures visible { result.visible ≤ 2 ^ (level + 2) }
    ensures shadow { result.shadow ≤ 2 ^ (level + 2) }
{
    header.levels[level as usize]
}

/// The slot of a level's visible run.
pub fn slot_of(header: &Header, level: u8) -> u8
    requires { level ≤ header.now.geometry.bottom }
    ensures value { result ≡ visible_slot header.now.clock level }
    ensures bound { result < 2 }
{
    visible_slot(header.clock, level)
}

/// The length of the run in a slot of a level.
fn run_len(header: &Header, level: u8, slot: u8) -> u32
    requires { level ≤ header.now.geometry.bottom }
    ensures value { (bytes : List ℕ) → result ≡ run_len (file_of header.now bytes) level slot }
    ensures fits { result ≤ 2 ^ (level + 2) }
{
    let marks = marks_of(header, level);
    if slot == slot_of(header, level) {
        marks.visible
    } else {
        marks.shadow
    }
}

/// The first place in which no cell was found.
fn first_none(found: &[Option<Cell>]) -> Option<usize>
    ensures { MatchOption result (AllFound found.now) (IsFirstNone found.now) }
{
    let _item: Option<Item> = None;
    for (i, cell) in found.iter().enumerate() {
        if cell.is_none() {
            return Some(i);
        }
    }
    None
}

/// The first place of the run in a slot of a level that is bad.
fn first_bad(
    alloc: Global,
    header: &Header,
    bytes: &[u8],
    level: u8,
    slot: u8,
) -> Result<Option<usize>, AllocError>
    requires level_exists { level ≤ header.now.geometry.bottom }
    requires slot_exists { slot ≤ 1 }
    ensures bad { IfOk result (λ found. MatchOption found (IsSlotTold (file_of header.now bytes.now) level slot) (IsFirstBad (file_of header.now bytes.now) level slot)) }
    ensures fits { IfOk result (λ found. IfSome found (λ index. index < 2 ^ (level + 2))) }
{
    let len = run_len(header, level, slot);
    let found = run_of_file(alloc, header.geometry.format, bytes, level, slot, len)?;
    Ok(first_none(found.as_slice()))
}

/// The number of the lowest bad cell of a level.
fn lowest_of_level(
    alloc: Global,
    header: &Header,
    bytes: &[u8],
    level: u8,
) -> Result<Option<u64>, AllocError>
    requires { level ≤ header.now.geometry.bottom }
    ensures { IfOk result (λ found. MatchOption found (IsLevelTold (file_of header.now bytes.now) level) (IsLowestOfLevel (file_of header.now bytes.now) level)) }
{
    for slot in 0..2 {
        match first_bad(alloc, header, bytes, level, slot)? {
            Some(index) => {
                return Ok(Some(header.geometry.place(level, slot, index as u32)));
            }
            None => {}
        }
    }
    Ok(None)
}

/// The level and the number of the lowest bad cell of a file.
pub fn lowest_bad(
    alloc: Global,
    header: &Header,
    bytes: &[u8],
) -> Result<Option<(u8, u64)>, AllocError>
    ensures { IfOk result (λ found. MatchOption found (AreCellsTold (file_of header.now bytes.now)) (λ place. IsLowestBad (file_of header.now bytes.now) place.0 place.1)) }
{
    for level in 0..header.geometry.levels() {
        match lowest_of_level(alloc, header, bytes, level)? {
            Some(number) => return Ok(Some((level, number))),
            None => {}
        }
    }
    Ok(None)
}

/// The first cells of a slot of a level, where they are told.
fn run_at(
    alloc: Global,
    header: &Header,
    bytes: &[u8],
    level: u8,
    slot: u8,
    len: u32,
) -> Result<Vec<FileCell>, AllocError>
    requires level_exists { level ≤ header.now.geometry.bottom }
    requires slot_exists { slot ≤ 1 }
    ensures cells { IfOk result (λ run. ArePlacesTold (file_of header.now bytes.now) level slot len → as_run run.items ≡ slot_cells (file_of header.now bytes.now).spots level slot len) }
    ensures small { IfOk result (λ run. vec_len run ≤ len) }
{
    let found = run_of_file(alloc, header.geometry.format, bytes, level, slot, len)?;
    plain_run(alloc, found.as_slice())
}

/// A level of a file, whose cells are told.
fn level_of_file(
    alloc: Global,
    header: &Header,
    bytes: &[u8],
    level: u8,
) -> Result<PlainLevel, AllocError>
    requires { level ≤ header.now.geometry.bottom }
    ensures { IfOk result (λ plain. IsLevelTold (file_of header.now bytes.now) level → as_level plain ≡ level_in (file_of header.now bytes.now) level) }
{
    let marks = marks_of(header, level);
    let slot = slot_of(header, level);
    let visible = run_at(alloc, header, bytes, level, slot, marks.visible)?;
    let shadow = run_at(alloc, header, bytes, level, 1 - slot, marks.shadow)?;
    Ok(PlainLevel {
        visible,
        shadow,
        own: marks.own as usize,
        incoming: marks.incoming as usize,
        sampled: marks.sample as usize,
    })
}

/// The levels of a file whose cells are told.
pub fn levels_of_file(
    alloc: Global,
    header: &Header,
    bytes: &[u8],
) -> Result<Vec<PlainLevel>, AllocError>
    ensures many { IfOk result (λ levels. length levels.items ≡ header.now.geometry.bottom + 1) }
    ensures levels { IfOk result (λ levels. AreCellsTold (file_of header.now bytes.now) → as_levels levels.items ≡ levels_in (file_of header.now bytes.now)) }
{
    let mut levels = Vec::new(alloc);
    for level in 0..header.geometry.levels() {
        let plain = level_of_file(alloc, header, bytes, level)?;
        levels.push(plain)?;
    }
    Ok(levels)
}
