//! The front of a store: its blocks 0 and 1 in memory.
ghost use Rattle.std.specs.Prelude.{◌≡◌, ℕ, ◌⊎◌, ◌+◌, ◌*◌, ◌^◌, ◌≤◌, ◌<◌, Option, None, Some, is_some, if◌then◌else◌, IfOk, IfSome, OnOk, OnErr, length, replicate};
ghost use Rattle.std.specs.Box.{boxed_slice_items};
ghost use Rattle.cola_outside.specs.Told.{Both};
ghost use Rattle.cola_cell.specs.Decoded.{standing};
ghost use Rattle.cola_cell.specs.Format.{width, CellFits};
ghost use Rattle.cola_cell.specs.Packed.{passed, MayPass};
ghost use Rattle.cola_cell.specs.Windows.{cell_bytes_at, AreSpelled as AreCells};
ghost use Rattle.cola_device.specs.Bytes.{HasRange, Wrote};
ghost use Rattle.cola_device.specs.Counts.{Called};
ghost use Rattle.cola_front.specs.Front.{FrontCells, IsFront, AreSpelled, AreTaken, AreRead, SameBelow, SameFrom, SameShape, IsLoaded, cell_at, spelled_at, front_with, block_size, image, InOrder, new_front, first_block, second_block};

use crate::block::{
    cells_in, copy_cells, is_cell_in, packed_in, put_as, put_cells, put_header, refill_from,
};
use cola_cell::{Cell, Format, Packed, Pass};
use cola_device::{Device, DeviceFault, MAX_TRANSFER};
use std::alloc::{AllocError, Global};
use std::boxed::BoxedSlice;
use std::marker::Model;

/// Blocks 0 and 1 of a store in memory, as their bytes: what stands at each place behind the header, by the number of the
/// cell. Reads and writes of cells make no call of a device; `load` and `store` go block by block.
#[derive(Drop)]
pub struct Front {
    format: Format,
    block: usize,
    bytes: BoxedSlice<u8>,
}

impl Model for Front {
    ghost use Rattle.std.specs.Box.{boxed_slice_items};
    ghost use Rattle.cola_front.specs.Front.{FrontCells, AreBlocks, front_of};

    ghost Value = { FrontCells };

    ghost view = { λ f. front_of f.format f.block (boxed_slice_items f.bytes) };

    ghost invariant = { λ f. AreBlocks f.format f.block (boxed_slice_items f.bytes) };
}

/// The number of cells of a block.
fn cells_of_block(block_exp: u8) -> usize
    requires least { 3 ≤ block_exp }
    requires most { block_exp ≤ 9 }
    ensures value { result ≡ 2 ^ block_exp }
    ensures some { 8 ≤ result }
    ensures few { result ≤ 512 }
{
    1 << block_exp
}

/// So many zeros, which spell no cell.
fn zeros(alloc: Global, size: usize) -> Result<BoxedSlice<u8>, AllocError>
    ensures { IfOk result (λ bytes. boxed_slice_items bytes ≡ replicate size 0) }
{
    Ok(vec![in alloc; 0u8; size]?.into_boxed_slice())
}

impl Front {
    /// A front without a cell, of two blocks of `2^block_exp` cells. An error comes only for want of memory, and no
    /// other call takes memory.
    pub fn new(alloc: Global, block_exp: u8, format: Format) -> Result<Front, AllocError>
        requires least { 3 ≤ block_exp }
        requires most { block_exp ≤ 9 }
        ensures { IfOk result (λ front. front ≡ new_front block_exp format) }
    {
        let block = cells_of_block(block_exp);
        let bytes = zeros(alloc, format.width() * (2 * block))?;
        Ok(Front {
            format,
            block,
            bytes,
        })
    }

    /// The size of a block, in bytes.
    fn block_bytes(&self) -> usize
        ensures value { result ≡ block_size self.now }
        ensures most { result ≤ MAX_TRANSFER }
        ensures least { 512 ≤ result }
        ensures sound { IsFront self.now }
    {
        self.format.width() * self.block
    }

    /// Takes the places from `from` on that lie in the block which begins at the place `first`.
    fn take(&mut self, block: &[u8], first: usize, from: usize)
        requires begin { first ≤ from }
        requires behind { 8 ≤ from }
        requires number { first ≡ 0 ⊎ first ≡ self.old.block }
        requires end { from ≤ first + self.old.block }
        requires whole { length block.now ≡ block_size self.old }
        ensures taken { AreTaken self.old.format self.new.cells
            first from (first + self.old.block) block.now }
        ensures below { SameBelow self.old.cells self.new.cells from }
        ensures above { SameFrom self.old.cells self.new.cells (first + self.old.block) }
        ensures shape { SameShape self.old self.new }
        ensures whole { length block.now ≡ block_size self.old }
    {
        let begin = from - first;
        let count = self.block - begin;
        copy_cells(self.format, &mut self.bytes, from, block, begin, count);
    }

    /// Gives the places behind the header what the bytes of block 0 spell.
    pub fn take_first(&mut self, block: &[u8])
        requires whole { length block.now ≡ block_size self.old }
        ensures taken { AreSpelled self.old.format self.new.cells 8 self.old.block block.now }
        ensures above { SameFrom self.old.cells self.new.cells self.old.block }
        ensures shape { SameShape self.old self.new }
    {
        // It says that a block has the header's eight cells at least.
        let _ = self.block_bytes();
        self.take(block, 0, 8);
    }

    /// Gives the places of block 1 what its bytes spell.
    pub fn take_second(&mut self, block: &[u8])
        requires whole { length block.now ≡ block_size self.old }
        ensures taken { AreTaken self.old.format self.new.cells
            self.old.block self.old.block (2 * self.old.block) block.now }
        ensures below { SameBelow self.old.cells self.new.cells self.old.block }
        ensures shape { SameShape self.old self.new }
    {
        let _ = self.block_bytes();
        let second = self.block;
        self.take(block, second, second);
    }

    /// Reads one of the two blocks, and takes the places from `from` on that lie in it.
    fn load_block<D: Device>(
        &mut self,
        device: &mut D,
        first: usize,
        from: usize,
    ) -> Result<(), DeviceFault>
        requires inside { HasRange (D.bytes device.old) 0 (2 * block_size self.old) }
        requires begin { first ≤ from }
        requires behind { 8 ≤ from }
        requires number { first ≡ 0 ⊎ first ≡ self.old.block }
        requires end { from ≤ first + self.old.block }
        ensures taken { OnOk result (AreRead (D.bytes device.old)
            self.old.format self.new.cells from (first + self.old.block)) }
        ensures below { SameBelow self.old.cells self.new.cells from }
        ensures stays { OnErr result (self.new ≡ self.old) }
        ensures shape { SameShape self.old self.new }
        ensures bytes_stay { D.bytes device.new ≡ D.bytes device.old }
        ensures kept { D.kept device.new ≡ D.kept device.old }
        ensures counts { Called (D.counts device.old) (D.counts device.new) 1 0 0 result }
    {
        let size = self.block_bytes();
        let at = self.format.width() * first;
        let mut room = [0u8; MAX_TRANSFER];
        let block = &mut room[..size];
        match device.read(at as u64, block) {
            Ok(()) => {
                self.take(block, first, from);
                Ok(())
            }
            Err(fault) => Err(fault),
        }
    }

    /// Reads block 0, then block 1. Each place behind the header then has the cell that its bytes spell, or none where
    /// they spell none. After a refusal nothing is said of the cells.
    pub fn load<D: Device>(&mut self, device: &mut D) -> Result<(), DeviceFault>
        requires { HasRange (D.bytes device.old) 0 (2 * block_size self.old) }
        ensures loaded { OnOk result
            (IfSome (D.bytes device.old) (λ bytes. IsLoaded bytes self.new)) }
        ensures shape { SameShape self.old self.new }
        ensures bytes_stay { D.bytes device.new ≡ D.bytes device.old }
        ensures kept { D.kept device.new ≡ D.kept device.old }
        ensures counts { Called (D.counts device.old) (D.counts device.new) 2 0 0 result }
    {
        // It says that a block has the header's eight cells at least.
        let _ = self.block_bytes();
        match self.load_block(device, 0, 8) {
            Ok(()) => {
                let second = self.block;
                self.load_block(device, second, second)
            }
            Err(fault) => Err(fault),
        }
    }

    /// What stands at a place, which is the number of a cell behind the header: none exactly where its bytes spell no
    /// cell.
    pub fn read(&self, place: u64) -> Option<Cell>
        requires behind_header { 8 ≤ place }
        requires within { place < 2 * self.now.block }
        ensures value { result ≡ cell_at self.now place }
        ensures sound { IsFront self.now }
    {
        match packed_in(self.format, &self.bytes, place as usize) {
            Some(cell) => Some(cell.cell()),
            None => None,
        }
    }

    /// Whether a cell stands at a place, which is the number of a cell behind the header.
    pub fn is_there(&self, place: u64) -> bool
        requires behind_header { 8 ≤ place }
        requires within { place < 2 * self.now.block }
        ensures { result ≡ is_some (cell_at self.now place) }
    {
        is_cell_in(self.format, &self.bytes, place as usize)
    }

    /// Takes what stands at a place, which is the number of a cell behind the header, into a packed cell: false exactly
    /// where its bytes spell no cell.
    #[inline(always)]
    pub fn read_into(&self, place: u64, into: &mut Packed) -> bool
        requires behind_header { 8 ≤ place }
        requires within { place < 2 * self.now.block }
        ensures value { (if result then Some into.new else None) ≡ cell_at self.now place }
        ensures sound { IsFront self.now }
    {
        refill_from(self.format, &self.bytes, place as usize, into)
    }

    /// Puts what becomes of a cell at a place behind the header. The device has it after the next `store`.
    #[inline]
    pub fn write_as(&mut self, place: u64, cell: &Packed, pass: Pass)
        requires behind_header { 8 ≤ place }
        requires within { place < 2 * self.old.block }
        requires may { MayPass pass cell.now }
        requires fits { CellFits self.old.format cell.now }
        ensures after { self.new ≡ front_with self.old place (passed pass cell.now) }
        ensures sound { IsFront self.old }
    {
        put_as(self.format, &mut self.bytes, place as usize, cell, pass);
    }

    /// Puts a cell at a place behind the header. The device has it after the next `store`.
    pub fn write(&mut self, place: u64, cell: &Cell)
        requires behind_header { 8 ≤ place }
        requires within { place < 2 * self.old.block }
        requires fits { CellFits self.old.format cell.now }
        ensures after { self.new ≡ front_with self.old place cell.now }
        ensures sound { IsFront self.old }
    {
        let packed = Packed::of_cell(self.format, cell);
        self.write_as(place, &packed, Pass::keeping(cell));
    }

    /// The bytes of so many cells from a place on, which is the number of a cell behind the header.
    #[inline(always)]
    pub fn window(&self, place: u64, count: u32) -> &[u8]
        requires behind_header { 8 ≤ place }
        requires within { place + count ≤ 2 * self.now.block }
        ensures size { length result.now ≡ count * width self.now.format }
        ensures shown { (n : ℕ) → n < count →
            cell_at self.now (place + n) ≡ spelled_at self.now.format result.now n }
        ensures sound { IsFront self.now }
    {
        cells_in(self.format, &self.bytes, place as usize, count as usize)
    }

    /// Puts so many cells, of which each is spelled behind the one before, at a place behind the header and those behind
    /// it. The device has them after the next `store`.
    pub fn put_spelled(&mut self, place: u64, count: u32, cells: &[u8])
        requires behind_header { 8 ≤ place }
        requires within { place + count ≤ 2 * self.old.block }
        requires size { count * width self.old.format ≤ length cells.now }
        requires spelled { AreCells self.old.format count cells.now }
        ensures placed { (k : ℕ) → k < count → cell_at self.new (place + k) ≡
            Some (standing self.old.format (cell_bytes_at self.old.format k cells.now)) }
        ensures others { (p : ℕ) → p < place ⊎ place + count ≤ p →
            cell_at self.new p ≡ cell_at self.old p }
        ensures shape { SameShape self.old self.new }
        ensures sound { IsFront self.new }
    {
        let place = place as usize;
        copy_cells(
            self.format,
            &mut self.bytes,
            place,
            cells,
            0,
            count as usize,
        );
    }

    /// Fills a block with the bytes of block 1. Places without a cell are zeros.
    pub fn put_second(&self, block: &mut [u8])
        requires { length block.old ≡ block_size self.now }
        ensures put { block.new ≡ second_block self.now }
        ensures many { length block.new ≡ block_size self.now }
        ensures sound { IsFront self.now }
    {
        put_cells(self.format, block, &self.bytes, self.block, self.block);
    }

    /// Fills a block with the bytes of block 0: the header, zeros up to cell 8, and what stands behind it.
    pub fn put_first(&self, header: &[u8; 512], block: &mut [u8])
        requires { length block.old ≡ block_size self.now }
        ensures put { block.new ≡ first_block self.now header.now }
        ensures many { length block.new ≡ block_size self.now }
    {
        put_cells(self.format, block, &self.bytes, 0, self.block);
        put_header(block, header);
    }

    /// Writes block 1, then block 0 with the header as its first 512 bytes. Places without a cell are stored as zeros,
    /// and so are the bytes between the header and cell 8. After a refusal both blocks may have any bytes, but block 0
    /// stays where block 1 was not written.
    pub fn store<D: Device>(&self, device: &mut D, header: &[u8; 512]) -> Result<(), DeviceFault>
        requires { HasRange (D.bytes device.old) 0 (2 * block_size self.now) }
        ensures wrote { Wrote result 0 (image self.now header.now)
            (D.bytes device.old) (D.bytes device.new) }
        ensures in_order { Both (D.bytes device.old) (D.bytes device.new)
            (InOrder result self.now) }
        ensures kept { D.kept device.new ≡ D.kept device.old }
        ensures counts { Called (D.counts device.old) (D.counts device.new) 0 2 0 result }
        ensures sound { IsFront self.now }
    {
        let size = self.block_bytes();
        let mut room = [0u8; MAX_TRANSFER];
        let block = &mut room[..size];
        self.put_second(block);
        match device.write(size as u64, block) {
            Ok(()) => {
                self.put_first(header, block);
                device.write(0, block)
            }
            Err(fault) => Err(fault),
        }
    }
}
