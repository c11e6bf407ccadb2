//! Objects of cells that are read.
ghost use Rattle.std.specs.Prelude.{◌≡◌, ◌+◌, ◌%◌, ◌^◌, ◌≤◌, IfOk};
ghost use Rattle.cola_cell.specs.declared.format.Format.TheVariants.{Two};
ghost use Rattle.cola_cell.specs.Format.{CellFits};
ghost use Rattle.cola_cell.specs.Held.{HasPlace};
ghost use Rattle.cola_cell.specs.Packed.{given};
ghost use Rattle.cola_cell.specs.Reads.{Reads};
ghost use Rattle.cola_cell.specs.Spent.{Search, By, buffer_for};
ghost use Rattle.cola_cell.specs.State.{State};
ghost use Rattle.cola_cell.specs.Windows.{IsRunIn, Scans};

use crate::cell::{Cell, Reader};
use crate::fault::ReadFault;
use crate::format::Format;
use crate::packed::Packed;
use crate::windows::{Reach, WindowSearch};
use cola_outside::Steps;
use std::sync::ledger::Ledger;

/// Packs the cell that a read gave, in the format in which every cell has a spelling.
fn pack(read: Result<Cell, ReadFault>, into: &mut Packed) -> Result<(), ReadFault>
    requires { IfOk read (CellFits Two) }
    ensures { given into.new result ≡ read }
{
    match read {
        Ok(cell) => {
            *into = Packed::of_cell(Format::Two, &cell);
            Ok(())
        }
        Err(fault) => Err(fault),
    }
}

/// An object of cells: levels from 0 on, of two slots each, where a slot of level `j` has `2^(j+2)` cells.
/// There are at most 23 levels. What is said of cells holds where the object tells them.
///
/// A call that takes `steps` makes one tick where it accesses a cell. The object counts its own ticks too,
/// and how many blocks it turned to and wrote. A block is so many neighbouring cells of a slot, eight or a
/// power of two times as many; the object has one place for the block that searches and cursors read last,
/// and one for each reader and level.
pub trait CellSource {
    /// Its state: the cells that it holds and how the shadow of each level stands; and what it has spent, which is its
    /// counts of faults, ticks and blocks, and the blocks that were read last.
    ghost state: { Self → State };

    /// What it has beside its state, of which a caller may want to know that no call changes it: an
    /// object over a device may name the device's size and the bytes behind its cells, one over a cache its size.
    ghost Kept: { Type 0 } = { Unit {0} };

    ghost kept: { Self → Self.Kept };

    /// The cell at a place, for a search or a cursor. It is refused where the device failed, or where the
    /// bytes of that cell spell none. The index is counted in cells of the slot.
    fn read<L: Ledger>(
        &mut self,
        level: u8,
        slot: u8,
        index: u32,
        steps: &mut Steps<L>,
    ) -> Result<Cell, ReadFault>
        requires { HasPlace (state self.old).held level slot index }
        ensures kept { kept self.new ≡ kept self.old }
        ensures one_tick { steps.new ≡ steps.old + 1 }
        ensures reads { Reads (state self.old) (state self.new) Search level slot index result };

    /// The cell at a place, for a source of a merge: as `read`, by the place that this reader has for the
    /// level's last block.
    fn read_for<L: Ledger>(
        &mut self,
        reader: Reader,
        level: u8,
        slot: u8,
        index: u32,
        steps: &mut Steps<L>,
    ) -> Result<Cell, ReadFault>
        requires { HasPlace (state self.old).held level slot index }
        ensures kept { kept self.new ≡ kept self.old }
        ensures one_tick { steps.new ≡ steps.old + 1 }
        ensures reads { Reads (state self.old) (state self.new)
            (By reader level) level slot index result };

    /// As `read`, or as `read_for` where a reader is named, into a packed cell. Where it is refused, that has any cell. An
    /// object whose cells are bytes is faster with a body of its own.
    fn read_packed<L: Ledger>(
        &mut self,
        by: Option<Reader>,
        level: u8,
        slot: u8,
        index: u32,
        into: &mut Packed,
        steps: &mut Steps<L>,
    ) -> Result<(), ReadFault>
        requires { HasPlace (state self.old).held level slot index }
        ensures kept { kept self.new ≡ kept self.old }
        ensures one_tick { steps.new ≡ steps.old + 1 }
        ensures reads { Reads (state self.old) (state self.new) (buffer_for by level) level slot index
            (given into.new result) }
    {
        match by {
            Some(reader) => pack(self.read_for(reader, level, slot, index, steps), into),
            None => pack(self.read(level, slot, index, steps), into),
        }
    }

    /// Lets a search run over the bytes of a run from an index on, as far as they lie one behind the other, and says how many
    /// cells that accessed. It reads the first of them as `read` does, and is refused where that is; the others lie beside it and
    /// cost a tick each. None where the object lets it run over nothing, as one does that has no bytes of cells.
    fn scan<S: WindowSearch, L: Ledger>(
        &mut self,
        reach: Reach,
        search: &mut S,
        probe: &S::Probe,
        steps: &mut Steps<L>,
    ) -> Result<u32, ReadFault>
        requires run { IsRunIn (state self.old).held reach }
        requires can { S.can search.old }
        ensures kept { kept self.new ≡ kept self.old }
        ensures scans { Scans S.sought (state self.old) (state self.new) reach
            search.old search.new probe.now steps.old steps.new result }
    {
        Ok(0)
    }

    /// Does nothing: it says that an object has at most 23 levels.
    #[inline(always)]
    fn known(&self)
        ensures { (state self.now).held.fixed.levels ≤ 23 }
    {
        let _ = self.ticked();
    }

    /// How many ticks it has made, modulo `2^64`.
    fn ticked(&self) -> u64
        ensures value { result ≡ (state self.now).spent.ticked % 2 ^ 64 }
        ensures levels { (state self.now).held.fixed.levels ≤ 23 };
}
