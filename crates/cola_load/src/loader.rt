//! A new file filled with rows, from the bottom up, in one pass.
ghost use Rattle.std.specs.Prelude.{◌≡◌, ℕ, ◌+◌, ◌-◌, ◌^◌, ◌≤◌, ◌<◌, List, Some, IfOk, OnOk, length};
ghost use Rattle.cola_outside.specs.Told.{Both};
ghost use Rattle.cola_cell.specs.Format.{KeyFits, ValueFits, CellFits, stamp_limit};
ghost use Rattle.cola_cell.specs.Places.{slot_size};
ghost use Rattle.cola_device.specs.Bytes.{HasRange};
ghost use Rattle.cola_device.specs.Counts.{Called};
ghost use Rattle.cola_device.specs.Settling.{IsSettled};
ghost use Rattle.cola_front.specs.Front.{new_front};
ghost use Rattle.cola_opening.specs.Counted.{Spends};
ghost use Rattle.cola_run.specs.Cells.{device_levels, file_bytes};
ghost use Rattle.cola_run.specs.Saving.{SameLevels};
ghost use Rattle.cola_run.specs.Store.{new_tails};
ghost use Rattle.cola_load.specs.Loading.{Begins, Pushes, Finishes, FrontWaits, StaysInFront, IsAbove, IsLoading, SameRows};
ghost use Rattle.cola_load.specs.Loading.{Puts, PutsRow, HasSaved, row_cell, full_blocks, filled_by};

use crate::fault::LoadFault;
use crate::loader_header::{header_of, len_of_run};
use crate::tails::{put_on_device, write_tail};
use cola_cell::{Cell, Item, Key, Value};
use cola_device::{Device, DeviceFault};
use cola_front::Front;
use cola_layout::Geometry;
use cola_opening::size_of;
use cola_run::{Tails, cells_of_block};
use std::alloc::{AllocError, Global};
use std::marker::Model;

/// Fills a new file with rows by rising keys, in one pass: each row is put at the end of the bottom's run, and after each
/// eight cells of a run a lookahead cell at the end of the run above it. A block is written when it is full. The header is
/// written last, so that a file that was not finished is no store.
///
/// Memory is taken when it begins: a block for each level on the device, and the front.
#[derive(Drop)]
pub struct Loader {
    geometry: Geometry,
    last: u64,
    rows: u64,
    key: Option<Key>,
    front: Front,
    tails: Tails,
}

impl Model for Loader {
    ghost use Rattle.cola_load.specs.Loading.{Loading, IsLoading};

    ghost Value = { Loading };

    ghost view = { λ l. record {
      geometry = l.geometry;
      last = l.last;
      rows = l.rows;
      key = l.key;
      front = l.front;
      tails = l.tails;
    } };

    ghost invariant = { λ l. IsLoading (record {
      geometry = l.geometry;
      last = l.last;
      rows = l.rows;
      key = l.key;
      front = l.front;
      tails = l.tails;
    }) };
}

/// A front and tails in which no cell stands.
fn no_cells(alloc: Global, geometry: &Geometry) -> Result<(Front, Tails), AllocError>
    ensures front { IfOk result (λ made.
        made.0 ≡ new_front geometry.now.block_exp geometry.now.format) }
    ensures tails { IfOk result (λ made. made.1 ≡ new_tails geometry.now) }
{
    let front = Front::new(alloc, geometry.block_exp, geometry.format)?;
    let tails = Tails::new(alloc, geometry)?;
    Ok((front, tails))
}

/// The cell that a row gives the run so many levels above the bottom, at an index of that.
fn cell_of(key: &Key, value: &Value, stamp: u64, height: u8, index: u32) -> Cell
    requires { index < 2 ^ 24 }
    ensures { result ≡ row_cell (record { key = key.now; value = value.now; stamp = stamp })
        height index }
{
    if height == 0 {
        return Cell::Item {
            key: *key,
            item: Item::Value {
                value: *value,
                stamp,
            },
            young: false,
            link: 0,
        };
    }
    Cell::Look {
        key: *key,
        link: 8 * index,
    }
}

impl Loader {
    /// Begins a file of a store with this geometry, whose map has the last number `last`: at most 2^63, and 0 in format One.
    ///
    /// In this order: the size is asked, and `NotEmpty` where it is not 0; all memory is taken, or `OutOfMemory`; the file is
    /// laid out. `Device` where the device refused a call. With `NotEmpty` and `OutOfMemory` the file stays as it was, and with
    /// `Device` too, but where the layout was refused: then it may have any bytes, at most as many as were asked for.
    pub fn begin<D: Device>(
        alloc: Global,
        device: &mut D,
        geometry: Geometry,
        last: u64,
    ) -> Result<Loader, LoadFault>
        requires { last ≤ stamp_limit geometry.format }
        ensures begins { Begins D.Device geometry last device.old device.new result }
        ensures spends { Spends (D.counts device.old) (D.counts device.new) 0 0 2 }
        ensures kept { D.kept device.new ≡ D.kept device.old }
    {
        match device.size() {
            Ok(size) => {
                if size > 0 {
                    return Err(LoadFault::NotEmpty);
                }
            }
            Err(_) => return Err(LoadFault::Device),
        }
        let (front, tails) = match no_cells(alloc, &geometry) {
            Ok(parts) => parts,
            Err(_) => return Err(LoadFault::OutOfMemory),
        };
        match device.lay_out(size_of(&geometry)) {
            Ok(()) => Ok(Loader {
                geometry,
                last,
                rows: 0,
                key: None,
                front,
                tails,
            }),
            Err(_) => Err(LoadFault::Device),
        }
    }

    /// Puts a cell behind the run of a level: into the front, or into the level's tail, which is written where it is full.
    fn put<D: Device>(
        &mut self,
        device: &mut D,
        level: u8,
        index: u32,
        cell: &Cell,
    ) -> Result<(), DeviceFault>
        requires level { level ≤ self.old.geometry.bottom }
        requires index { index < slot_size level }
        requires fits { CellFits self.old.geometry.format cell.now }
        requires inside { HasRange (D.bytes device.old) 0 (file_bytes self.old.geometry) }
        ensures puts { Both (D.bytes device.old) (D.bytes device.new)
            (Puts result self.old self.new level index cell.now) }
        ensures stays { SameRows self.old self.new }
        ensures front_stays { Both (D.bytes device.old) (D.bytes device.new)
            (StaysInFront self.old.geometry) }
        ensures kept { D.kept device.new ≡ D.kept device.old }
        ensures counts { Called (D.counts device.old) (D.counts device.new) 0
            (filled_by self.old.geometry level index) 0 result }
    {
        if level < self.geometry.front_levels() {
            self.front.write(self.geometry.place(level, 0, index), cell);
            return Ok(());
        }
        put_on_device(device, &self.geometry, &mut self.tails, level, index, cell)
    }

    /// Puts the cells that one more row gives: one at the bottom, and one above each run that has a multiple of eight then.
    fn put_row<D: Device>(
        &mut self,
        device: &mut D,
        key: &Key,
        value: &Value,
        stamp: u64,
    ) -> Result<(), DeviceFault>
        requires room { self.old.rows < self.old.geometry.keys }
        requires key { KeyFits self.old.geometry.format key.now }
        requires value { ValueFits self.old.geometry.format value.now }
        requires stamp { stamp ≤ self.old.last }
        requires inside { HasRange (D.bytes device.old) 0 (file_bytes self.old.geometry) }
        ensures puts { Both (D.bytes device.old) (D.bytes device.new)
            (PutsRow result self.old self.new (record { key = key.now; value = value.now; stamp = stamp })) }
        ensures stays { SameRows self.old self.new }
        ensures front_stays { Both (D.bytes device.old) (D.bytes device.new)
            (StaysInFront self.old.geometry) }
        ensures kept { D.kept device.new ≡ D.kept device.old }
        ensures counts { Called (D.counts device.old) (D.counts device.new)
            0 (full_blocks self.old.geometry (self.old.rows + 1)
            - full_blocks self.old.geometry self.old.rows) 0 result }
    {
        let mut index = self.rows as u32;
        for height in 0..self.geometry.levels() {
            let level = self.geometry.bottom - height;
            let cell = cell_of(key, value, stamp, height, index);
            match self.put(device, level, index, &cell) {
                Ok(()) => {}
                Err(fault) => return Err(fault),
            }
            if (index + 1) % 8 != 0 {
                return Ok(());
            }
            index /= 8;
        }
        Ok(())
    }

    /// Writes the tail of a level on the device, where that has a block that is not full.
    fn write_tail_of<D: Device>(&self, device: &mut D, level: u8) -> Result<(), DeviceFault>
        requires front { self.now.geometry.block_exp ≤ level + 2 }
        requires level { level ≤ self.now.geometry.bottom }
        requires inside { HasRange (D.bytes device.old) 0 (file_bytes self.now.geometry) }
        ensures saves { Both (D.bytes device.old) (D.bytes device.new)
            (λ old new. (before : List ℕ) → HasSaved self.now level before old
            → OnOk result (HasSaved self.now (level + 1) before new)) }
        ensures front_stays { Both (D.bytes device.old) (D.bytes device.new)
            (StaysInFront self.now.geometry) }
        ensures kept { D.kept device.new ≡ D.kept device.old }
        ensures counts { Called (D.counts device.old) (D.counts device.new) 0 1 0 result }
    {
        let len = len_of_run(self.rows, self.geometry.bottom - level) as u32;
        if len % cells_of_block(&self.geometry) == 0 {
            return Ok(());
        }
        write_tail(device, &self.geometry, &self.tails, level, len)
    }

    /// Writes the blocks that are not full.
    fn write_tails<D: Device>(&self, device: &mut D) -> Result<(), DeviceFault>
        requires inside { HasRange (D.bytes device.old) 0 (file_bytes self.now.geometry) }
        ensures saves { Both (D.bytes device.old) (D.bytes device.new)
            (λ old new. OnOk result (HasSaved self.now (self.now.geometry.bottom + 1) old new)) }
        ensures front_stays { Both (D.bytes device.old) (D.bytes device.new)
            (StaysInFront self.now.geometry) }
        ensures kept { D.kept device.new ≡ D.kept device.old }
        ensures counts { Called (D.counts device.old) (D.counts device.new) 0
            (device_levels self.now.geometry) 0 result }
    {
        for level in self.geometry.front_levels()..self.geometry.levels() {
            match self.write_tail_of(device, level) {
                Ok(()) => {}
                Err(fault) => return Err(fault),
            }
        }
        Ok(())
    }

    /// Writes the first two blocks, the header last, and settles the device.
    fn write_front<D: Device>(&self, device: &mut D) -> Result<u64, DeviceFault>
        requires inside { HasRange (D.bytes device.old) 0 (file_bytes self.now.geometry) }
        ensures rows { IfOk result (λ rows. rows ≡ self.now.rows) }
        ensures finishes { Both (D.bytes device.old) (D.bytes device.new)
            (λ old new. (before : List ℕ) →
            HasSaved self.now (self.now.geometry.bottom + 1) before old →
            Finishes result self.now before new) }
        ensures size_stays { Both (D.bytes device.old) (D.bytes device.new)
            (λ old new. length new ≡ length old) }
        ensures levels_stay { Both (D.bytes device.old) (D.bytes device.new)
            (SameLevels self.now.geometry) }
        ensures settled { OnOk result (IsSettled D.Device device.new) }
        ensures kept { D.kept device.new ≡ D.kept device.old }
        ensures counts { Called (D.counts device.old) (D.counts device.new) 0 2 1 result }
    {
        let mut header = [0u8; 512];
        header_of(self.geometry, self.last, self.rows).encode(&mut header);
        match self.front.store(device, &header) {
            Ok(()) => {}
            Err(fault) => return Err(fault),
        }
        match device.settle() {
            Ok(()) => Ok(self.rows),
            Err(fault) => Err(fault),
        }
    }

    /// Puts a row behind those that were pushed, with the stamp of its put. An error comes only where the device refused to
    /// write a block, and then nothing more may be expected of the load: the file has no header. No memory is taken.
    ///
    /// Each block is written once, when it is full: so a million rows are pushed with as many writes as their cells have
    /// blocks.
    pub fn push<D: Device>(
        &mut self,
        device: &mut D,
        key: &Key,
        value: &Value,
        stamp: u64,
    ) -> Result<(), DeviceFault>
        requires room { self.old.rows < self.old.geometry.keys }
        requires key { KeyFits self.old.geometry.format key.now }
        requires value { ValueFits self.old.geometry.format value.now }
        requires stamp { stamp ≤ self.old.last }
        requires above { IsAbove self.old.key key.now }
        requires inside { HasRange (D.bytes device.old) 0 (file_bytes self.old.geometry) }
        ensures pushes { Both (D.bytes device.old) (D.bytes device.new)
            (Pushes result self.old self.new (record { key = key.now; value = value.now; stamp = stamp })) }
        ensures front_stays { Both (D.bytes device.old) (D.bytes device.new)
            (StaysInFront self.old.geometry) }
        ensures geometry { self.new.geometry ≡ self.old.geometry }
        ensures last { self.new.last ≡ self.old.last }
        ensures rows { OnOk result (self.new.rows ≡ self.old.rows + 1) }
        ensures key { OnOk result (self.new.key ≡ Some key.now) }
        ensures kept { D.kept device.new ≡ D.kept device.old }
        ensures counts { Called (D.counts device.old) (D.counts device.new)
            0 (full_blocks self.old.geometry (self.old.rows + 1)
            - full_blocks self.old.geometry self.old.rows) 0 result }
    {
        // It says that a key has a byte at least.
        let _ = key.bytes();
        match self.put_row(device, key, value, stamp) {
            Ok(()) => {
                self.rows += 1;
                self.key = Some(*key);
                Ok(())
            }
            Err(fault) => Err(fault),
        }
    }

    /// Writes what is left: the blocks that are not full, and the first two blocks, the header last; the device settles before
    /// these two and at the end. Answers how many rows the file has. No memory is taken.
    ///
    /// An error comes only where the device refused a call. The file has no header then, or it has all that a finished file has
    /// but for its first block, which may have any bytes: the write of that block was refused, or the settle behind it.
    pub fn finish<D: Device>(self, device: &mut D) -> Result<u64, DeviceFault>
        requires inside { HasRange (D.bytes device.old) 0 (file_bytes self.geometry) }
        ensures rows { IfOk result (λ rows. rows ≡ self.rows) }
        ensures finishes { Both (D.bytes device.old) (D.bytes device.new) (Finishes result self) }
        ensures size_stays { Both (D.bytes device.old) (D.bytes device.new)
            (λ old new. length new ≡ length old) }
        ensures waits { FrontWaits D.Device self.geometry device.old device.new result }
        ensures settled { OnOk result (IsSettled D.Device device.new) }
        ensures kept { D.kept device.new ≡ D.kept device.old }
        ensures counts { Called (D.counts device.old) (D.counts device.new) 0
            (device_levels self.geometry + 2) 2 result }
    {
        match self.write_tails(device) {
            Ok(()) => {}
            Err(fault) => return Err(fault),
        }
        match device.settle() {
            Ok(()) => self.write_front(device),
            Err(fault) => Err(fault),
        }
    }
}
