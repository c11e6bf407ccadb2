//! Reads of a chain's cells.
ghost use Rattle.std.specs.Prelude.{◌≡◌, ◌≢◌, ◌+◌, ◌%◌, ◌^◌, ◌≤◌, true, false, if◌then◌else◌, None, is_some, Err};
ghost use Rattle.cola_cell.specs.declared.fault.ReadFault.TheVariants.{Device};
ghost use Rattle.cola_cell.specs.Held.{HasPlace};
ghost use Rattle.cola_cell.specs.Packed.{given};
ghost use Rattle.cola_cell.specs.Spent.{Search, By, buffer_for};
ghost use Rattle.cola_cell.specs.Windows.{IsRunIn, Scans};
ghost use Rattle.cola_run.specs.Weaving.{ScansThere, HasWindow, is_at_hand};
ghost use Rattle.cola_chain.specs.Contents.{held_of, state_of, Kept, kept_of, ReadsCell};

use crate::chains::Chain;
use cola_cell::{Cell, CellSource, Packed, Reach, ReadFault, Reader, WindowSearch};
use cola_device::Device;
use cola_outside::Steps;
use std::sync::ledger::Ledger;

impl<D: Device> CellSource for Chain<D> {
    ghost state = { state_of D.bytes D.counts };

    ghost Kept = { Kept D.Kept };

    ghost kept = { kept_of D.bytes D.counts D.kept };

    /// The cell at a place, for a search or a cursor. The steps of the chain stay counted as they were.
    fn read<L: Ledger>(
        &mut self,
        level: u8,
        slot: u8,
        index: u32,
        steps: &mut Steps<L>,
    ) -> Result<Cell, ReadFault>
        requires { HasPlace (held_of D.bytes self.old) level slot index }
        ensures kept { kept_of D.bytes D.counts D.kept self.new ≡
            kept_of D.bytes D.counts D.kept self.old }
        ensures one_tick { steps.new ≡ steps.old + 1 }
        ensures reads { ReadsCell D.Device self.old self.new
            Search level slot index result }
        ensures counted { self.new.counted ≡ self.old.counted }
    {
        self.runs.read(level, slot, index, steps)
    }

    /// The cell at a place, for a source of a merge that is none of the chain's: it moves the block that a reader of the
    /// chain's own merges holds, so from here on the chain's steps are not counted.
    fn read_for<L: Ledger>(
        &mut self,
        reader: Reader,
        level: u8,
        slot: u8,
        index: u32,
        steps: &mut Steps<L>,
    ) -> Result<Cell, ReadFault>
        requires { HasPlace (held_of D.bytes self.old) level slot index }
        ensures kept { kept_of D.bytes D.counts D.kept self.new ≡
            kept_of D.bytes D.counts D.kept self.old }
        ensures one_tick { steps.new ≡ steps.old + 1 }
        ensures reads { ReadsCell D.Device self.old self.new
            (By reader level) level slot index result }
        ensures counted { self.new.counted ≡ false }
    {
        self.counted = false;
        self.runs.read_for(reader, level, slot, index, steps)
    }

    /// As `read` or `read_for`, into a packed cell.
    #[inline(always)]
    fn read_packed<L: Ledger>(
        &mut self,
        by: Option<Reader>,
        level: u8,
        slot: u8,
        index: u32,
        into: &mut Packed,
        steps: &mut Steps<L>,
    ) -> Result<(), ReadFault>
        requires { HasPlace (held_of D.bytes self.old) level slot index }
        ensures kept { kept_of D.bytes D.counts D.kept self.new ≡
            kept_of D.bytes D.counts D.kept self.old }
        ensures one_tick { steps.new ≡ steps.old + 1 }
        ensures reads { ReadsCell D.Device self.old self.new
            (buffer_for by level) level slot index (given into.new result) }
        ensures counted { self.new.counted ≡ (if is_some by then false else self.old.counted) }
    {
        match by {
            Some(_) => {
                self.counted = false;
                self.runs.read_packed(by, level, slot, index, into, steps)
            }
            None => self.runs.read_packed(None, level, slot, index, into, steps),
        }
    }

    /// As the chain's store lets a search run over the bytes of a run: that goes by the block of searches, so the steps of the chain
    /// stay counted as they were.
    #[inline(always)]
    fn scan<S: WindowSearch, L: Ledger>(
        &mut self,
        reach: Reach,
        search: &mut S,
        probe: &S::Probe,
        steps: &mut Steps<L>,
    ) -> Result<u32, ReadFault>
        requires run { IsRunIn (held_of D.bytes self.old) reach }
        requires can { S.can search.old }
        ensures kept { kept_of D.bytes D.counts D.kept self.new ≡ kept_of D.bytes D.counts D.kept self.old }
        ensures scans { Scans S.sought (state_of D.bytes D.counts self.old) (state_of D.bytes D.counts self.new) reach
            search.old search.new probe.now steps.old steps.new result }
        ensures runs { is_at_hand self.old.store.geometry self.old.store.shadows reach ≡ true → result ≢ Err Device →
            ScansThere S.sought D.lends (D.bytes self.old.store.buffers.cache.device) self.old.store.geometry self.old.store.front reach search.old search.new
            probe.now result }
        ensures calm { HasWindow D.lends self.old.store.geometry self.old.store.buffers.lasts None reach →
            (self.new.store.buffers ≡ self.old.store.buffers) × (result ≢ Err Device) }
        ensures counted { self.new.counted ≡ self.old.counted }
    {
        self.runs.scan(reach, search, probe, steps)
    }

    fn ticked(&self) -> u64 {
        self.runs.ticked()
    }
}
