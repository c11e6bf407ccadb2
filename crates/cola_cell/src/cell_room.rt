//! A room for one cell.
use crate::cell::Reader;
use crate::fault::ReadFault;
use crate::format::Format;
use crate::packed::Packed;
use crate::source::CellSource;
use cola_outside::Steps;
use std::marker::Model;
use std::sync::ledger::Ledger;

/// A room for a cell, as the next one of a run, in which it is read, and compared where it stands. A contract sees the cell,
/// if there is one.
#[derive(Drop)]
pub struct CellRoom {
    is_filled: bool,
    packed: Packed,
}

impl Model for CellRoom {
    ghost use Rattle.std.specs.Prelude.{if◌then◌else◌, Option, Some, None};
    ghost use Rattle.cola_cell.specs.declared.cell.Cell.{Cell};

    ghost Value = { Option Cell };

    ghost view = { λ r. if r.is_filled then Some r.packed else None };
}

impl CellRoom {
    ghost use Rattle.std.specs.Prelude.{◌≡◌, ◌+◌, Some, None, is_some, option_copied};
    ghost use Rattle.cola_cell.specs.Decoded.{stands};
    ghost use Rattle.cola_cell.specs.Held.{HasPlace};
    ghost use Rattle.cola_cell.specs.Reads.{ReadsIn};
    ghost use Rattle.cola_cell.specs.Spent.{buffer_for};

    /// A room without a cell.
    #[inline]
    pub fn empty() -> CellRoom
        ensures { result ≡ None }
    {
        CellRoom {
            is_filled: false,
            packed: Packed::blank(),
        }
    }

    /// Whether a cell stands in it.
    #[inline(always)]
    pub fn has_cell(&self) -> bool
        ensures { result ≡ is_some self.now }
    {
        self.is_filled
    }

    /// The cell that stands in it.
    #[inline(always)]
    pub fn cell(&self) -> Option<&Packed>
        ensures { option_copied result ≡ self.now }
    {
        if self.is_filled {
            Some(&self.packed)
        } else {
            None
        }
    }

    /// A copy.
    #[inline]
    pub fn copy(&self) -> CellRoom
        ensures { result ≡ self.now }
    {
        CellRoom {
            is_filled: self.is_filled,
            packed: self.packed.copy(),
        }
    }

    /// Takes its cell out.
    #[inline(always)]
    pub fn clear(&mut self)
        ensures { self.new ≡ None }
    {
        self.is_filled = false;
    }

    /// Takes the cell in that stands at the beginning of these bytes, where they spell one; else it has none.
    #[inline(always)]
    pub fn refill(&mut self, format: Format, bytes: &[u8])
        ensures { self.new ≡ stands format bytes.now }
    {
        self.is_filled = bytes.len() >= format.width()
            && self.packed.refill(format, &bytes[..format.width()]);
    }

    /// Puts a copy of this cell in.
    #[inline(always)]
    pub fn put(&mut self, cell: &Packed)
        ensures { self.new ≡ Some cell.now }
    {
        self.packed.copy_from(cell);
        self.is_filled = true;
    }

    /// Reads the cell at a place, as `CellSource::read_packed` does, and takes it in. After a refusal it has none.
    #[inline(always)]
    pub fn read<W: CellSource, L: Ledger>(
        &mut self,
        work: &mut W,
        by: Option<Reader>,
        level: u8,
        slot: u8,
        index: u32,
        steps: &mut Steps<L>,
    ) -> Result<(), ReadFault>
        requires { HasPlace (W.state work.old).held level slot index }
        ensures kept { W.kept work.new ≡ W.kept work.old }
        ensures one_tick { steps.new ≡ steps.old + 1 }
        ensures reads { ReadsIn (W.state work.old) (W.state work.new) (buffer_for by level) level slot index
            self.new result }
    {
        self.is_filled = false;
        work.read_packed(by, level, slot, index, &mut self.packed, steps)?;
        self.is_filled = true;
        Ok(())
    }
}
