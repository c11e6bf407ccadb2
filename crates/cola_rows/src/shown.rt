//! What a file holds, in words.
use crate::text::push_escaped;
use cola_cell::{Cell, Format, Item, decode, decode_wide};
use cola_clock::visible_slot;
use cola_layout::{Header, Marks};
use std::alloc::AllocError;

/// The header that a file begins with, if it does.
fn header_of(bytes: &[u8]) -> Option<Header> {
    let mut block = [0u8; 512];
    block.copy_from_slice(bytes.get(..512)?);
    Header::decode(&block)
}

/// The number of a version.
fn version(format: Format) -> u8 {
    match format {
        Format::One => 1,
        Format::Two => 2,
    }
}

/// Adds the line of a header, with the marks of each level: the lengths of its visible run and its shadow, and how many
/// cells its merge took of its own run, of the one that comes in, and of the sample.
pub(crate) fn push_header(out: &mut String, name: &str, bytes: &[u8]) -> Result<(), AllocError> {
    let Some(header) = header_of(bytes) else {
        return writeln!(out, "{name} header none");
    };
    let version = version(header.geometry.format);
    let block = header.geometry.block_exp;
    let keys = header.geometry.keys;
    let bottom = header.geometry.bottom;
    let state = if header.closed { "closed" } else { "in-use" };
    write!(
        out,
        "{name} header version {version} block {block} keys {keys} bottom {bottom} {state}"
    )?;
    let count = header.count;
    let clock = header.clock;
    let last = header.last;
    write!(out, " count {count} clock {clock} last {last} levels")?;
    for marks in header.levels.iter() {
        push_marks(out, marks)?;
    }
    out.push('\n')?;
    Ok(())
}

/// Adds the marks of a level.
fn push_marks(out: &mut String, marks: &Marks) -> Result<(), AllocError> {
    let visible = marks.visible;
    let shadow = marks.shadow;
    let own = marks.own;
    let incoming = marks.incoming;
    let sample = marks.sample;
    write!(out, " {visible}/{shadow}/{own}/{incoming}/{sample}")
}

/// The cell at a place of a file.
fn cell_at(bytes: &[u8], format: Format, place: usize) -> Option<Cell> {
    let from = place.checked_mul(format.width())?;
    let rest = bytes.get(from..)?;
    match format {
        Format::One => {
            let mut cell = [0u8; 64];
            cell.copy_from_slice(rest.get(..64)?);
            decode(&cell)
        }
        Format::Two => {
            let mut cell = [0u8; 128];
            cell.copy_from_slice(rest.get(..128)?);
            decode_wide(&cell)
        }
    }
}

/// Adds a cell.
fn push_cell(out: &mut String, cell: &Cell) -> Result<(), AllocError> {
    match cell {
        Cell::Look { key, link } => {
            out.push_str(" look ")?;
            push_escaped(out, key.bytes())?;
            write!(out, " link {link}")
        }
        Cell::Item {
            key,
            item,
            young,
            link,
        } => {
            out.push_str(if *young { " young " } else { " old " })?;
            push_item(out, key.bytes(), item)?;
            write!(out, " link {link}")
        }
    }
}

/// Adds the item of a key.
fn push_item(out: &mut String, key: &[u8], item: &Item) -> Result<(), AllocError> {
    match item {
        Item::Value { value, stamp } => {
            out.push_str("value ")?;
            push_escaped(out, key)?;
            out.push(' ')?;
            push_escaped(out, value.bytes())?;
            write!(out, " stamp {stamp}")
        }
        Item::Tombstone => {
            out.push_str("tombstone ")?;
            push_escaped(out, key)
        }
    }
}

/// Adds the cells of a run of a level.
fn push_run(
    out: &mut String,
    name: &str,
    bytes: &[u8],
    format: Format,
    run: &str,
    first: usize,
    length: u32,
) -> Result<(), AllocError> {
    for at in 0..length {
        let place = first.saturating_add(at as usize);
        write!(out, "{name} cell {place} {run}")?;
        match cell_at(bytes, format, place) {
            Some(cell) => push_cell(out, &cell)?,
            None => out.push_str(" no spelling")?,
        }
        out.push('\n')?;
    }
    Ok(())
}

/// The first cell of a slot of a level.
fn slot_at(level: u8, slot: u8) -> usize {
    (2 + usize::from(slot)) << (level.min(30) + 2)
}

/// Adds the cells of all runs, level by level: first the visible run, then the shadow.
pub(crate) fn push_cells(out: &mut String, name: &str, bytes: &[u8]) -> Result<(), AllocError> {
    let Some(header) = header_of(bytes) else {
        return Ok(());
    };
    let format = header.geometry.format;
    let mut level = 0u8;
    for marks in header.levels.iter() {
        let slot = visible_slot(header.clock.min((1 << 23) - 1), level.min(22));
        let other = 1 - slot.min(1);
        let run = format!(in *out.allocator(); "visible {level}")?;
        push_run(
            out,
            name,
            bytes,
            format,
            &run,
            slot_at(level, slot),
            marks.visible,
        )?;
        let run = format!(in *out.allocator(); "shadow {level}")?;
        push_run(
            out,
            name,
            bytes,
            format,
            &run,
            slot_at(level, other),
            marks.shadow,
        )?;
        level = level.saturating_add(1);
    }
    Ok(())
}

/// Adds which of the bytes from 512 to 1023 are not 0.
pub(crate) fn push_zero(out: &mut String, name: &str, bytes: &[u8]) -> Result<(), AllocError> {
    write!(out, "{name} not zero")?;
    for (place, byte) in bytes.iter().enumerate().take(1024).skip(512) {
        if *byte != 0 {
            write!(out, " {place}")?;
        }
    }
    out.push('\n')?;
    Ok(())
}

/// Adds a sum over all bytes, by the rule of Fowler, Noll and Vo.
pub(crate) fn push_sum(out: &mut String, name: &str, bytes: &[u8]) -> Result<(), AllocError> {
    let mut sum = 0xcbf2_9ce4_8422_2325u64;
    for byte in bytes {
        sum = (sum ^ u64::from(*byte)).wrapping_mul(0x0000_0100_0000_01b3);
    }
    writeln!(out, "{name} sum {sum:016x}")
}
