//! Cells in memory, whose reads and pushes fail where the caller wants them to.
ghost use Rattle.std.specs.Prelude.{◌≡◌, ◌+◌, ◌*◌, ◌%◌, ◌^◌, ◌≤◌, ◌<◌, ◌||◌, Option, is_err, Some, None, IfOk, slice_index_or, Ok};
ghost use Rattle.cola_cell.specs.declared.format.Format.TheVariants.{One};
ghost use Rattle.cola_cell.specs.Format.{CellFits};
ghost use Rattle.cola_cell.specs.Places.{slot_size, number_of, IsPlace};
ghost use Rattle.cola_cell.specs.Shadows.{emptied, push_ticks};
ghost use Rattle.cola_cell.specs.Flat.{IsFlat, new_cells, state_of, next_fails, after_access, read_answer, with_cell_at, with_shadow, longer, shadow_at, push_answer, after_push, after_finish};

use crate::cell::{Cell, Item, Reader};
use crate::fault::{PushFault, ReadFault};
use crate::sink::{CellSink, Shadow};
use crate::source::CellSource;
use cola_outside::Steps;
use std::alloc::{AllocError, Global};
use std::marker::Model;
use std::sync::ledger::Ledger;

/// Cells in memory, for tests: at most 6 levels, in format One, with blocks of 8 cells.
///
/// Its reads, and its pushes that find room, have the numbers 1, 2, and so on. Those whose numbers it was
/// given are refused as if a device had failed. A read of a cell that was not set answers that it spells none.
#[derive(Drop)]
pub struct FlatCells {
    levels: u8,
    cells: Vec<Option<Cell>>,
    shadows: [Shadow; 6],
    accesses: u64,
    failing: Vec<u64>,
    faults: u64,
    ticked: u64,
}

impl Model for FlatCells {
    ghost use Rattle.cola_cell.specs.Flat.{Flat, IsFlat};

    ghost Value = { Flat };

    ghost view = { λ c. record {
      levels = c.levels;
      cells = c.cells.items;
      shadows = c.shadows;
      accesses = c.accesses;
      failing = c.failing.items;
      faults = c.faults;
      ticked = c.ticked;
    } };

    ghost invariant = { λ c. IsFlat (record {
      levels = c.levels;
      cells = c.cells.items;
      shadows = c.shadows;
      accesses = c.accesses;
      failing = c.failing.items;
      faults = c.faults;
      ticked = c.ticked;
    }) };
}

/// The cells of a slot of a level.
fn slot_cells(level: u8) -> u32
    requires { level ≤ 6 }
    ensures { result ≡ slot_size level }
{
    1 << (level as u32 + 2)
}

/// The number of the cell at a place.
fn number(level: u8, slot: u8, index: u32) -> u64
    requires { IsPlace 6 level slot index }
    ensures { result ≡ number_of level slot index }
{
    let size = slot_cells(level) as u64;
    (2 + slot as u64) * size + index as u64
}

impl FlatCells {
    /// So many levels, at most 6, in which no cell is set and each shadow is empty and stands in slot 1. It
    /// fails the accesses of the numbers in `failing`. An error comes only for want of memory.
    pub fn new(alloc: Global, levels: u8, failing: Vec<u64>) -> Result<FlatCells, AllocError>
        requires { levels ≤ 6 }
        ensures { IfOk result (λ cells. cells ≡ new_cells levels failing.items) }
    {
        let _item: Option<Item> = None;
        let none: Option<Cell> = None;
        let cells = vec![in alloc; none; 1usize << (levels as usize + 3)]?;
        let empty = Shadow {
            slot: 1,
            len: 0,
            saved: true,
        };
        Ok(FlatCells {
            levels,
            cells,
            shadows: [empty; 6],
            accesses: 0,
            failing,
            faults: 0,
            ticked: 0,
        })
    }

    /// Sets the cell at a place. The index is counted in cells of the slot.
    pub fn place(&mut self, level: u8, slot: u8, index: u32, cell: &Cell)
        requires place { IsPlace self.old.levels level slot index }
        requires fits { CellFits One cell.now }
        ensures { self.new ≡ with_cell_at self.old level slot index cell.now }
    {
        self.cells[number(level, slot, index) as usize] = Some(*cell);
    }

    /// Takes the next number and makes a tick. Answers whether the access fails.
    fn access(&mut self) -> bool
        ensures fails { result ≡ next_fails self.old }
        ensures after { self.new ≡ after_access self.old }
        ensures sound { IsFlat self.old }
    {
        self.accesses = self.accesses.saturating_add(1);
        self.ticked = self.ticked.wrapping_add(1);
        let fails = self.failing.contains(&self.accesses);
        if fails {
            self.faults = self.faults.saturating_add(1);
        }
        fails
    }

    /// Puts another shadow in the place of the level's.
    fn set_shadow(&mut self, level: u8, shadow: Shadow)
        requires level_in { level < self.old.levels }
        requires slot_in { shadow.slot < 2 }
        requires within { shadow.len ≤ slot_size level }
        ensures after { self.new ≡ with_shadow self.old level shadow }
        ensures sound { IsFlat self.old }
    {
        self.shadows[level as usize] = shadow;
    }
}

impl CellSource for FlatCells {
    ghost state = { state_of };

    ghost kept = { λ _. tt };

    fn read<L: Ledger>(
        &mut self,
        level: u8,
        slot: u8,
        index: u32,
        steps: &mut Steps<L>,
    ) -> Result<Cell, ReadFault>
        requires { IsPlace self.old.levels level slot index }
        ensures answer { result ≡ read_answer self.old level slot index }
        ensures after { self.new ≡ after_access self.old }
        ensures one_tick { steps.new ≡ steps.old + 1 }
        ensures sound { IsFlat self.old }
    {
        let _item: Option<Item> = None;
        steps.tick();
        if self.access() {
            return Err(ReadFault::Device);
        }
        let number = number(level, slot, index);
        self.cells[number as usize].ok_or(ReadFault::BadCell(number))
    }

    fn read_for<L: Ledger>(
        &mut self,
        _reader: Reader,
        level: u8,
        slot: u8,
        index: u32,
        steps: &mut Steps<L>,
    ) -> Result<Cell, ReadFault>
        requires { IsPlace self.old.levels level slot index }
        ensures answer { result ≡ read_answer self.old level slot index }
        ensures after { self.new ≡ after_access self.old }
        ensures one_tick { steps.new ≡ steps.old + 1 }
        ensures sound { IsFlat self.old }
    {
        self.read(level, slot, index, steps)
    }

    fn ticked(&self) -> u64
        ensures value { result ≡ self.now.ticked }
        ensures sound { IsFlat self.now }
    {
        self.ticked
    }
}

impl CellSink for FlatCells {
    fn restart(&mut self, level: u8, slot: u8)
        requires level_in { level < self.old.levels }
        requires slot_in { slot < 2 }
        ensures after { self.new ≡ with_shadow self.old level (emptied slot) }
        ensures sound { IsFlat self.old }
    {
        let shadow = Shadow {
            slot,
            len: 0,
            saved: true,
        };
        self.set_shadow(level, shadow);
    }

    fn push<L: Ledger>(
        &mut self,
        level: u8,
        slot: u8,
        cell: &Cell,
        steps: &mut Steps<L>,
    ) -> Result<(), PushFault>
        requires level_in { level < self.old.levels }
        requires in_slot { slot ≡ (shadow_at self.old.shadows level).slot }
        requires fits { CellFits One cell.now }
        ensures answer { result ≡ push_answer self.old level }
        ensures after { self.new ≡ after_push self.old level cell.now }
        ensures ticks { steps.new ≡ steps.old + push_ticks result }
        ensures sound { IsFlat self.old }
    {
        let shadow = self.shadows[level as usize];
        if shadow.len == slot_cells(level) {
            return Err(PushFault::Overfull(level));
        }
        steps.tick();
        if self.access() {
            let saved = false;
            self.set_shadow(level, Shadow { saved, ..shadow });
            return Err(PushFault::Device);
        }
        self.place(level, slot, shadow.len, cell);
        let len = shadow.len + 1;
        let saved = len % 8 == 0;
        self.set_shadow(level, Shadow { slot, len, saved });
        Ok(())
    }

    fn finish(&mut self, level: u8) -> Result<(), PushFault>
        requires { level < self.old.levels }
        ensures answer { result ≡ Ok tt }
        ensures after { self.new ≡ after_finish self.old level }
        ensures sound { IsFlat self.old }
    {
        let shadow = self.shadows[level as usize];
        let saved = true;
        self.set_shadow(level, Shadow { saved, ..shadow });
        Ok(())
    }

    fn shadow_len(&self, level: u8) -> u32
        requires { level < self.now.levels }
        ensures value { result ≡ (shadow_at self.now.shadows level).len }
        ensures sound { IsFlat self.now }
    {
        self.shadows[level as usize].len
    }
}
