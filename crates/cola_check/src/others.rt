//! An object of cells, read by other readers.
ghost use Rattle.std.specs.Prelude.{◌≡◌};
ghost use Rattle.std.specs.Borrow.{GName};
ghost use Rattle.cola_check.specs.Others.{other_reader, by_others};

use cola_cell::{Cell, CellSource, Packed, ReadFault, Reader};
use cola_outside::Steps;
use std::sync::ledger::Ledger;

/// An object whose readers are named anew, each by the one before it: what is read by a reader here is read of the object
/// by the next one. So a second merge of an aim may read the object beside a first, and no block that one of the two reads
/// takes the place of one that the other has.
#[derive(Drop)]
pub(crate) struct ByOthers<'a, W> {
    pub object: &'a mut W,
}

/// The reader that reads in the place of this one.
fn other_reader(reader: Reader) -> Reader
    ensures { result ≡ other_reader reader }
{
    match reader {
        Reader::Own => Reader::Incoming,
        Reader::Incoming => Reader::Sample,
        Reader::Sample => Reader::Own,
    }
}

impl<'a, W: CellSource> CellSource for ByOthers<'a, W> {
    ghost state = { λ others. by_others (W.state others.object.now) };

    ghost Kept = { W.Kept × GName };

    ghost kept = { λ others. (W.kept others.object.now, others.object.ghost_name) };

    fn read<L: Ledger>(
        &mut self,
        level: u8,
        slot: u8,
        index: u32,
        steps: &mut Steps<L>,
    ) -> Result<Cell, ReadFault> {
        self.object.read(level, slot, index, steps)
    }

    fn read_for<L: Ledger>(
        &mut self,
        reader: Reader,
        level: u8,
        slot: u8,
        index: u32,
        steps: &mut Steps<L>,
    ) -> Result<Cell, ReadFault> {
        self.object
            .read_for(other_reader(reader), level, slot, index, steps)
    }

    fn read_packed<L: Ledger>(
        &mut self,
        by: Option<Reader>,
        level: u8,
        slot: u8,
        index: u32,
        into: &mut Packed,
        steps: &mut Steps<L>,
    ) -> Result<(), ReadFault> {
        self.object
            .read_packed(by.map(other_reader), level, slot, index, into, steps)
    }

    fn ticked(&self) -> u64 {
        self.object.ticked()
    }
}
