//! The cells of the levels on the device: in the tail of a shadow, or in a block.
ghost use Rattle.std.specs.Prelude.{◌≡◌, ◌+◌, ◌/◌, ◌^◌, ◌≤◌, ◌<◌, true, false, if◌then◌else◌, Some, None, length};
ghost use Rattle.cola_cell.specs.Flat.{shadow_at, found};
ghost use Rattle.cola_cell.specs.declared.cell.Cell.{Cell};
ghost use Rattle.cola_cell.specs.Format.{CellFits};
ghost use Rattle.cola_cell.specs.Packed.{given, passed, MayPass};
ghost use Rattle.cola_cell.specs.Places.{slot_size, IsPlace};
ghost use Rattle.cola_run.specs.Cells.{IsOnDevice, block_cells, block_bytes, file_blocks, is_in_tail, tails_bytes, HasRoom, end_number};
ghost use Rattle.cola_run.specs.Parts.{OneShadow, MetFault, lengthened};
ghost use Rattle.cola_run.specs.Turns.{Turns};
ghost use Rattle.cola_front.specs.Front.{front_with};
ghost use Rattle.cola_cache.specs.Blocks.{last_in};
ghost use Rattle.cola_run.specs.Calls.{FindsIn, FindsAt, WritesTail, WritesAt, LengthensBelow, PushWrites, FinishesBelow, FinishWrites, UnsavedHasRoom, OneLonger};

use crate::tails::{Tails, block_at, block_of, cells_of_block, fills_block};
use cola_cache::Buffers;
use cola_cell::{Packed, Pass, PushFault, ReadFault, Shadow};
use cola_device::Device;
use cola_front::Front;
use cola_front::block::refill_from;
use cola_layout::Geometry;

/// The number of cells of a slot of a level.
#[inline]
pub(crate) fn cells_of_slot(level: u8) -> u32
    requires { level ≤ 22 }
    ensures { result ≡ slot_size level }
{
    1 << (level + 2)
}

/// Whether a cell of a slot is in the tail of its level, whose shadow stands so.
#[inline]
pub(crate) fn has_in_tail(geometry: &Geometry, shadow: Shadow, slot: u8, index: u32) -> bool
    ensures { result ≡ is_in_tail (block_cells geometry.now) shadow slot index }
{
    let block = cells_of_block(geometry);
    slot == shadow.slot && index / block == shadow.len / block && index < shadow.len
}

/// How the shadow of a level stands.
#[inline(always)]
pub(crate) fn shadow_of(shadows: &[Shadow], level: u8) -> Shadow
    requires { level < length shadows.now }
    ensures { result ≡ shadow_at shadows.now level }
{
    shadows[level as usize]
}

/// Puts another shadow in the place of the level's.
#[inline(always)]
pub(crate) fn set_shadow(shadows: &mut [Shadow], level: u8, shadow: Shadow)
    requires { level < length shadows.old }
    ensures { OneShadow shadows.old shadows.new level shadow }
{
    shadows[level as usize] = shadow;
}

/// The same shadow, of which not every cell needs to be on the device.
#[inline(always)]
fn unsaved(shadow: Shadow) -> Shadow
    ensures { result ≡ record shadow { saved = false } }
{
    let Shadow { slot, len, .. } = shadow;
    let saved = false;
    Shadow { slot, len, saved }
}

/// The same shadow, whose cells are on the device.
pub(crate) fn saved(shadow: Shadow) -> Shadow
    ensures { result ≡ record shadow { saved = true } }
{
    let Shadow { slot, len, .. } = shadow;
    let saved = true;
    Shadow { slot, len, saved }
}

/// The answer of a read by whether a cell was taken: the number of the cell whose bytes spell none.
#[inline]
pub(crate) fn taken_or_bad(taken: bool, number: u64) -> Result<(), ReadFault>
    ensures { (cell : Cell) →
        given cell result ≡ found number (if taken then Some cell else None) }
{
    if taken {
        Ok(())
    } else {
        Err(ReadFault::BadCell(number))
    }
}

/// Takes the cell of this number into a packed cell: from where the device lends its bytes, or else from the block that a
/// buffer holds. False exactly where its bytes spell none.
#[inline(always)]
fn refill_by<D: Device>(
    buffers: &Buffers<D>,
    geometry: &Geometry,
    buffer: usize,
    number: u64,
    into: &mut Packed,
) -> bool
    requires buffer { buffer < length buffers.now.lasts }
    requires inside { number / block_cells geometry.now < buffers.now.many }
    requires small { number < 2 ^ 26 }
    requires held { last_in buffers.now.lasts buffer ≡ Some (number / block_cells geometry.now) }
    requires size { buffers.now.cache.size ≡ block_bytes geometry.now }
    ensures { FindsIn D.Device buffers.now geometry.now number (if result then Some into.new else None) }
{
    let width = geometry.format.width();
    match buffers.lent(number * width as u64, width) {
        Some(lent) => refill_from(geometry.format, lent, 0, into),
        None => {
            let place = number % cells_of_block(geometry) as u64;
            refill_from(geometry.format, buffers.copy(buffer), place as usize, into)
        }
    }
}

/// Reads the cell of this number by way of a buffer.
#[inline(always)]
pub(crate) fn read_by_buffer<D: Device>(
    buffers: &mut Buffers<D>,
    geometry: &Geometry,
    buffer: usize,
    number: u64,
    into: &mut Packed,
) -> Result<(), ReadFault>
    requires buffer { buffer < length buffers.old.lasts }
    requires within { number < 2 ^ (geometry.now.bottom + 4) }
    requires size { buffers.old.cache.size ≡ block_bytes geometry.now }
    requires many { buffers.old.many ≡ file_blocks geometry.now }
    ensures finds { FindsAt D.Device buffers.old geometry.now number (given into.new result) }
    ensures turns { Turns D.counts buffers.old buffers.new buffer
        (number / block_cells geometry.now) (given into.new result) }
    ensures bytes_stay { D.bytes buffers.new.cache.device ≡ D.bytes buffers.old.cache.device }
    ensures kept { D.kept buffers.new.cache.device ≡ D.kept buffers.old.cache.device }
{
    match buffers.turn_to(buffer, block_of(geometry, number)) {
        Ok(()) => taken_or_bad(refill_by(buffers, geometry, buffer, number, into), number),
        Err(_) => Err(ReadFault::Device),
    }
}

/// Writes the tail of a level to the block of a slot in which an index lies.
#[inline(never)]
pub(crate) fn write_tail<D: Device>(
    buffers: &mut Buffers<D>,
    geometry: &Geometry,
    tails: &Tails,
    level: u8,
    slot: u8,
    index: u32,
) -> Result<(), PushFault>
    requires level { IsOnDevice geometry.now level }
    requires place { IsPlace (geometry.now.bottom + 1) level slot index }
    requires tails { length tails.now ≡ tails_bytes geometry.now }
    requires size { buffers.old.cache.size ≡ block_bytes geometry.now }
    requires many { buffers.old.many ≡ file_blocks geometry.now }
    ensures wrote { WritesTail D.Device buffers.old buffers.new geometry.now tails.now
        level slot index result }
    ensures writing { WritesAt D.Device buffers.old buffers.new geometry.now
        level slot index result }
    ensures fault { MetFault result }
{
    let block = block_at(geometry, level, slot, index);
    match buffers.write_block(block, tails.block(geometry, level)) {
        Ok(()) => Ok(()),
        Err(_) => Err(PushFault::Device),
    }
}

/// A shadow that is one cell longer: it is on the device where its last block is full.
#[inline(always)]
pub(crate) fn longer(geometry: &Geometry, shadow: Shadow) -> Shadow
    requires { shadow.len < 2 ^ 24 }
    ensures { result ≡ lengthened geometry.now shadow }
{
    Shadow {
        slot: shadow.slot,
        len: shadow.len + 1,
        saved: fills_block(geometry, shadow.len),
    }
}

/// Lengthens the shadow of a level on the device by the cell that stands behind it in the tail, which is written where
/// that fills a block.
#[inline(always)]
pub(crate) fn lengthen_on_device<D: Device>(
    buffers: &mut Buffers<D>,
    geometry: &Geometry,
    shadows: &mut [Shadow],
    tails: &Tails,
    level: u8,
) -> Result<(), PushFault>
    requires level { IsOnDevice geometry.now level }
    requires shadows { level < length shadows.old }
    requires place { HasRoom geometry.now shadows.old level }
    requires tails { length tails.now ≡ tails_bytes geometry.now }
    requires size { buffers.old.cache.size ≡ block_bytes geometry.now }
    requires many { buffers.old.many ≡ file_blocks geometry.now }
    ensures lengthened { LengthensBelow D.Device geometry.now buffers.old buffers.new
        shadows.old shadows.new tails.now level result }
    ensures writing { PushWrites D.Device geometry.now buffers.old buffers.new
        shadows.old level result }
{
    let shadow = shadow_of(shadows, level);
    if !fills_block(geometry, shadow.len) {
        set_shadow(shadows, level, longer(geometry, shadow));
        return Ok(());
    }
    match write_tail(buffers, geometry, tails, level, shadow.slot, shadow.len) {
        Ok(()) => {
            set_shadow(shadows, level, longer(geometry, shadow));
            Ok(())
        }
        Err(fault) => {
            set_shadow(shadows, level, unsaved(shadow));
            Err(fault)
        }
    }
}

/// Writes the tail of a level on the device where it is not there.
pub(crate) fn finish_on_device<D: Device>(
    buffers: &mut Buffers<D>,
    geometry: &Geometry,
    shadows: &mut [Shadow],
    tails: &Tails,
    level: u8,
) -> Result<(), PushFault>
    requires level { IsOnDevice geometry.now level }
    requires shadows { level < length shadows.old }
    requires place { UnsavedHasRoom geometry.now shadows.old level }
    requires tails { length tails.now ≡ tails_bytes geometry.now }
    requires size { buffers.old.cache.size ≡ block_bytes geometry.now }
    requires many { buffers.old.many ≡ file_blocks geometry.now }
    ensures finished { FinishesBelow D.Device geometry.now buffers.old buffers.new
        shadows.old shadows.new tails.now level result }
    ensures writing { FinishWrites D.Device geometry.now buffers.old buffers.new
        shadows.old level result }
{
    let shadow = shadow_of(shadows, level);
    if shadow.saved {
        return Ok(());
    }
    match write_tail(buffers, geometry, tails, level, shadow.slot, shadow.len) {
        Ok(()) => {
            set_shadow(shadows, level, saved(shadow));
            Ok(())
        }
        Err(fault) => Err(fault),
    }
}

/// Appends a cell to the shadow of a level of the front.
#[inline(always)]
pub(crate) fn push_in_front(
    front: &mut Front,
    geometry: &Geometry,
    shadows: &mut [Shadow],
    level: u8,
    cell: &Packed,
    pass: Pass,
)
    requires level { level + 2 < geometry.now.block_exp }
    requires shadows { level < length shadows.old }
    requires place { HasRoom geometry.now shadows.old level }
    requires format { front.old.format ≡ geometry.now.format }
    requires block { front.old.block ≡ block_cells geometry.now }
    requires may { MayPass pass cell.now }
    requires fits { CellFits geometry.now.format cell.now }
    ensures front { front.new ≡ front_with front.old (end_number shadows.old level) (passed pass cell.now) }
    ensures shadow { OneLonger geometry.now shadows.old shadows.new level }
    ensures within { end_number shadows.old level < length front.old.cells }
{
    let shadow = shadow_of(shadows, level);
    front.write_as(geometry.place(level, shadow.slot, shadow.len), cell, pass);
    set_shadow(shadows, level, longer(geometry, shadow));
}
