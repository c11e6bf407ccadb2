//! The blocks that are being filled: one for each level on the device.
ghost use Rattle.std.specs.Prelude.{◌≡◌, ◌+◌, ◌*◌, ◌/◌, ◌^◌, ◌≤◌, ◌<◌, if◌then◌else◌, Some, None, IfOk, length};
ghost use Rattle.cola_cell.specs.Decoded.{spelling};
ghost use Rattle.cola_cell.specs.Format.{width, CellFits};
ghost use Rattle.cola_cell.specs.Packed.{passed, MayPass};
ghost use Rattle.cola_cell.specs.Places.{IsPlace};
ghost use Rattle.cola_device.specs.Bytes.{splice};
ghost use Rattle.cola_front.specs.Front.{IsSpelled, spelled_at};
ghost use Rattle.cola_run.specs.Cells.{IsOnDevice, block_cells, block_bytes, block_number, file_blocks, device_levels, tail_number, tails_bytes};
ghost use Rattle.cola_run.specs.Parts.{fills, tail_of};
ghost use Rattle.cola_run.specs.Store.{new_tails};

use cola_cell::{Cell, Packed, Pass};
use cola_front::block::{put_as, refill_from};
use cola_layout::Geometry;
use std::alloc::{AllocError, Global};
use std::boxed::BoxedSlice;
use std::marker::Model;

/// The number of cells of a block.
#[inline]
pub fn cells_of_block(geometry: &Geometry) -> u32
    ensures value { result ≡ block_cells geometry.now }
    ensures least { 8 ≤ result }
    ensures most { result ≤ 512 }
{
    1 << geometry.block_exp
}

/// The number of bytes of a block.
#[inline]
pub fn bytes_of_block(geometry: &Geometry) -> usize
    ensures value { result ≡ block_bytes geometry.now }
    ensures most { result ≤ 65536 }
{
    geometry.format.width() * cells_of_block(geometry) as usize
}

/// How many levels are on the device.
pub(crate) fn levels_on_device(geometry: &Geometry) -> u8
    ensures value { result ≡ device_levels geometry.now }
    ensures most { result ≤ 22 }
    ensures least { 1 ≤ result }
{
    geometry.bottom + 3 - geometry.block_exp
}

/// The number of the block in which the cell of a number lies, both counted from the first byte of the file.
#[tactic(auto, using(crate::proofs::Numbers::number_in_file))]
#[inline]
pub(crate) fn block_of(geometry: &Geometry, number: u64) -> u64
    requires { number < 2 ^ (geometry.now.bottom + 4) }
    ensures value { result ≡ number / block_cells geometry.now }
    ensures within { result < file_blocks geometry.now }
{
    number / cells_of_block(geometry) as u64
}

/// The number of the block in which a place lies, counted from the first byte of the file.
#[inline]
pub(crate) fn block_at(geometry: &Geometry, level: u8, slot: u8, index: u32) -> u64
    requires { IsPlace (geometry.now.bottom + 1) level slot index }
    ensures value { result ≡ block_number geometry.now level slot index }
    ensures within { result < file_blocks geometry.now }
{
    block_of(geometry, geometry.place(level, slot, index))
}

/// Whether a cell at an index is the last of its block.
#[inline(always)]
pub fn fills_block(geometry: &Geometry, index: u32) -> bool
    requires { index < 2 ^ 24 }
    ensures { result ≡ fills geometry.now index }
{
    (index + 1) % cells_of_block(geometry) == 0
}

/// The number of a cell among those of the tails.
#[inline]
pub(crate) fn place_in_tails(geometry: &Geometry, level: u8, index: u32) -> usize
    requires { IsOnDevice geometry.now level }
    ensures value { result ≡ tail_number geometry.now level index }
    ensures within { result < block_cells geometry.now * device_levels geometry.now }
    ensures few { block_cells geometry.now * device_levels geometry.now ≤ 10752 }
{
    let block = cells_of_block(geometry) as usize;
    block * (level + 2 - geometry.block_exp) as usize + index as usize % block
}

/// Where the tail of a level begins among the tails, in bytes.
#[tactic(auto, using(crate::proofs::Steps::tail_room))]
fn begin_of_tail(geometry: &Geometry, level: u8) -> usize
    requires { IsOnDevice geometry.now level }
    ensures value { result ≡ width geometry.now.format * tail_number geometry.now level 0 }
    ensures fits { result + block_bytes geometry.now ≤ tails_bytes geometry.now }
    ensures few { result ≤ 1376256 }
{
    geometry.format.width() * place_in_tails(geometry, level, 0)
}

/// The tails of the levels on the device: of each the block that is being filled, one behind the other. Each call is told
/// the geometry that they were made for, which is their owner's.
#[derive(Drop)]
pub struct Tails {
    /// A merge writes its cells straight into them.
    pub(crate) bytes: BoxedSlice<u8>,
}

impl Model for Tails {
    ghost use Rattle.std.specs.Prelude.{ℕ, List};
    ghost use Rattle.std.specs.Box.{boxed_slice_items};

    ghost Value = { List ℕ };

    ghost view = { λ t. boxed_slice_items t.bytes };
}

impl Tails {
    /// Tails in which no cell stands.
    pub fn new(alloc: Global, geometry: &Geometry) -> Result<Tails, AllocError>
        ensures { IfOk result (λ tails. tails ≡ new_tails geometry.now) }
    {
        let cells = cells_of_block(geometry) as usize * levels_on_device(geometry) as usize;
        let bytes = vec![in alloc; 0u8; geometry.format.width() * cells]?.into_boxed_slice();
        Ok(Tails { bytes })
    }

    /// The block of a level.
    #[tactic(auto, using(crate::proofs::Steps::tail_many))]
    pub fn block(&self, geometry: &Geometry, level: u8) -> &[u8]
        requires level { IsOnDevice geometry.now level }
        requires many { length self.now ≡ tails_bytes geometry.now }
        ensures value { result.now ≡ tail_of geometry.now self.now level }
        ensures size { length result.now ≡ block_bytes geometry.now }
        ensures most { length result.now ≤ 65536 }
    {
        let at = begin_of_tail(geometry, level);
        &self.bytes[at..at + bytes_of_block(geometry)]
    }

    /// Makes these bytes the block of a level.
    #[tactic(auto, using(std::proofs::lemmas::List::with_items_is))]
    pub(crate) fn put_block(&mut self, geometry: &Geometry, level: u8, block: &[u8])
        requires level { IsOnDevice geometry.now level }
        requires many { length self.old ≡ tails_bytes geometry.now }
        requires size { length block.now ≡ block_bytes geometry.now }
        ensures put { self.new ≡ splice self.old
            (width geometry.now.format * tail_number geometry.now level 0) block.now }
        ensures many { length self.new ≡ length self.old }
    {
        let at = begin_of_tail(geometry, level);
        self.bytes[at..at + block.len()].copy_from_slice(block);
    }

    /// Takes the cell at an index of a level into a packed cell. False exactly where its bytes spell none.
    #[tactic(auto, using(crate::proofs::Steps::cell_holds))]
    #[inline]
    pub(crate) fn refill(
        &self,
        geometry: &Geometry,
        level: u8,
        index: u32,
        into: &mut Packed,
    ) -> bool
        requires level { IsOnDevice geometry.now level }
        requires many { length self.now ≡ tails_bytes geometry.now }
        ensures { (if result then Some into.new else None) ≡
            spelled_at geometry.now.format self.now (tail_number geometry.now level index) }
    {
        let place = place_in_tails(geometry, level, index);
        refill_from(geometry.format, &self.bytes, place, into)
    }

    /// Puts what becomes of a cell at an index of a level.
    #[tactic(auto, using(crate::proofs::Steps::cell_holds, std::proofs::lemmas::List::with_items_is))]
    #[inline(always)]
    pub(crate) fn put(
        &mut self,
        geometry: &Geometry,
        level: u8,
        index: u32,
        cell: &Packed,
        pass: Pass,
    )
        requires level { IsOnDevice geometry.now level }
        requires many { length self.old ≡ tails_bytes geometry.now }
        requires may { MayPass pass cell.now }
        requires fits { CellFits geometry.now.format cell.now }
        ensures put { self.new ≡ splice self.old
            (width geometry.now.format * tail_number geometry.now level index)
            (spelling geometry.now.format (passed pass cell.now)) }
        ensures many { length self.new ≡ length self.old }
        ensures spelled { IsSpelled geometry.now.format (passed pass cell.now) }
    {
        let place = place_in_tails(geometry, level, index);
        put_as(geometry.format, &mut self.bytes, place, cell, pass);
    }

    /// Puts a cell at an index of a level.
    pub fn put_cell(&mut self, geometry: &Geometry, level: u8, index: u32, cell: &Cell)
        requires level { IsOnDevice geometry.now level }
        requires many { length self.old ≡ tails_bytes geometry.now }
        requires fits { CellFits geometry.now.format cell.now }
        ensures put { self.new ≡ splice self.old
            (width geometry.now.format * tail_number geometry.now level index)
            (spelling geometry.now.format cell.now) }
        ensures many { length self.new ≡ length self.old }
        ensures spelled { IsSpelled geometry.now.format cell.now }
    {
        let packed = Packed::of_cell(geometry.format, cell);
        self.put(geometry, level, index, &packed, Pass::keeping(cell));
    }
}
