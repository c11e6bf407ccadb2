//! Reads, pushes, restarts and finishes of the cells of a store.
ghost use Rattle.std.specs.Prelude.{◌≡◌, ◌≢◌, ◌+◌, ◌*◌, ◌≤◌, ◌<◌, true, Option, None, Err, length};
ghost use Rattle.cola_cell.specs.declared.fault.ReadFault.TheVariants.{Device};
ghost use Rattle.cola_cell.specs.Places.{slot_size, IsPlace};
ghost use Rattle.cola_cell.specs.Format.{CellFits};
ghost use Rattle.cola_cell.specs.Packed.{given, passed, MayPass};
ghost use Rattle.cola_cell.specs.Shadows.{Restarts, Pushes, PushSpends, push_ticks, Finishes, FinishSpends};
ghost use Rattle.cola_run.specs.Cells.{IsOnDevice};
ghost use Rattle.cola_run.specs.Store.{IsStore, held_of, state_of, Kept, kept_of};
ghost use Rattle.cola_cell.specs.Windows.{IsReach, Weaves, IsRunIn, Scans};
ghost use Rattle.cola_run.specs.Weaving.{RunsBelow, RunsInFront, ScansThere, HasWindow, HaveWindows, AreAtHand, is_at_hand};
ghost use Rattle.cola_run.specs.Calls.{IsInTail, MemoryAnswers, ReadsBy};

use crate::device_cells::{
    cells_of_slot, finish_on_device, has_in_tail, lengthen_on_device, push_in_front,
    read_by_buffer, saved, set_shadow, shadow_of, taken_or_bad,
};
use crate::run_store::RunStore;
use crate::weaving::{buffer_of, search_run};
use cola_cell::{
    Cell, CellSink, CellSource, Packed, Pass, PushFault, Reach, ReadFault, Reader, Shadow,
    WindowMerge, WindowSearch, tick_all,
};
use cola_device::Device;
use cola_layout::Geometry;
use cola_outside::Steps;
use std::sync::ledger::Ledger;

impl<D: Device> RunStore<D> {
    /// The cell at a place of a level that is in memory.
    #[inline(always)]
    fn read_in_front(
        &self,
        level: u8,
        slot: u8,
        index: u32,
        into: &mut Packed,
    ) -> Result<(), ReadFault>
        requires place { IsPlace (self.now.geometry.bottom + 1) level slot index }
        requires front { level + 2 < self.now.geometry.block_exp }
        ensures answer { MemoryAnswers (held_of D.bytes self.now)
            level slot index (given into.new result) }
    {
        let number = self.geometry.place(level, slot, index);
        taken_or_bad(self.front.read_into(number, into), number)
    }

    /// The cell at a place that is in the tail of its level. It is a call of its own, since few reads meet a tail.
    #[inline(never)]
    fn read_in_tail(
        &self,
        level: u8,
        slot: u8,
        index: u32,
        into: &mut Packed,
    ) -> Result<(), ReadFault>
        requires place { IsPlace (self.now.geometry.bottom + 1) level slot index }
        requires device { self.now.geometry.block_exp ≤ level + 2 }
        requires tail { IsInTail self.now.geometry self.now.shadows level slot index }
        ensures answer { MemoryAnswers (held_of D.bytes self.now)
            level slot index (given into.new result) }
    {
        let number = self.geometry.place(level, slot, index);
        let taken = self.tails.refill(&self.geometry, level, index, into);
        taken_or_bad(taken, number)
    }

    /// The cell at a place, by the buffer of a reader or that of searches. Each caller has it in its own code: a call takes
    /// a third of what a read takes.
    #[inline(always)]
    fn read_by<L: Ledger>(
        &mut self,
        reader: Option<Reader>,
        level: u8,
        slot: u8,
        index: u32,
        into: &mut Packed,
        steps: &mut Steps<L>,
    ) -> Result<(), ReadFault>
        requires { IsPlace (self.old.geometry.bottom + 1) level slot index }
        ensures kept { kept_of D.bytes D.counts D.kept self.new ≡
            kept_of D.bytes D.counts D.kept self.old }
        ensures one_tick { steps.new ≡ steps.old + 1 }
        ensures reads { ReadsBy D.Device self.old self.new
            reader level slot index (given into.new result) }
    {
        steps.tick();
        self.ticked = self.ticked.wrapping_add(1);
        if level < self.geometry.front_levels() {
            return self.read_in_front(level, slot, index, into);
        }
        let shadow = shadow_of(&self.shadows, level);
        if has_in_tail(&self.geometry, shadow, slot, index) {
            return self.read_in_tail(level, slot, index, into);
        }
        let buffer = buffer_of(&self.geometry, reader, level);
        let number = self.geometry.place(level, slot, index);
        read_by_buffer(&mut self.buffers, &self.geometry, buffer, number, into)
    }
}

impl<D: Device> CellSource for RunStore<D> {
    ghost state = { state_of D.bytes D.counts };

    ghost Kept = { Kept D.Kept };

    ghost kept = { kept_of D.bytes D.counts D.kept };

    fn read<L: Ledger>(
        &mut self,
        level: u8,
        slot: u8,
        index: u32,
        steps: &mut Steps<L>,
    ) -> Result<Cell, ReadFault> {
        let mut packed = Packed::blank();
        match self.read_by(None, level, slot, index, &mut packed, steps) {
            Ok(()) => Ok(packed.cell()),
            Err(fault) => Err(fault),
        }
    }

    fn read_for<L: Ledger>(
        &mut self,
        reader: Reader,
        level: u8,
        slot: u8,
        index: u32,
        steps: &mut Steps<L>,
    ) -> Result<Cell, ReadFault> {
        let mut packed = Packed::blank();
        match self.read_by(Some(reader), level, slot, index, &mut packed, steps) {
            Ok(()) => Ok(packed.cell()),
            Err(fault) => Err(fault),
        }
    }

    #[inline(always)]
    fn read_packed<L: Ledger>(
        &mut self,
        by: Option<Reader>,
        level: u8,
        slot: u8,
        index: u32,
        into: &mut Packed,
        steps: &mut Steps<L>,
    ) -> Result<(), ReadFault> {
        self.read_by(by, level, slot, index, into, steps)
    }

    #[inline(always)]
    fn scan<S: WindowSearch, L: Ledger>(
        &mut self,
        reach: Reach,
        search: &mut S,
        probe: &S::Probe,
        steps: &mut Steps<L>,
    ) -> Result<u32, ReadFault>
        requires run { IsRunIn (state_of D.bytes D.counts self.old).held reach }
        requires can { S.can search.old }
        ensures kept { kept_of D.bytes D.counts D.kept self.new ≡ kept_of D.bytes D.counts D.kept self.old }
        ensures scans { Scans S.sought (state_of D.bytes D.counts self.old) (state_of D.bytes D.counts self.new) reach
            search.old search.new probe.now steps.old steps.new result }
        ensures runs { is_at_hand self.old.geometry self.old.shadows reach ≡ true → result ≢ Err Device →
            ScansThere S.sought D.lends (D.bytes self.old.buffers.cache.device) self.old.geometry self.old.front reach search.old search.new probe.now result }
        ensures calm { HasWindow D.lends self.old.geometry self.old.buffers.lasts None reach →
            (self.new.buffers ≡ self.old.buffers) × (result ≢ Err Device) }
    {
        if !self.is_at_hand(reach) {
            return Ok(0);
        }
        let answer = search_run(
            &self.front,
            &mut self.buffers,
            &self.geometry,
            reach,
            search,
            probe,
        );
        // A refusal is a tick, as that of a read is.
        let ticks = answer.unwrap_or(1);
        self.ticked = self.ticked.wrapping_add(ticks as u64);
        tick_all(steps, ticks);
        answer
    }

    fn ticked(&self) -> u64 {
        self.ticked
    }
}

impl<D: Device> CellSink for RunStore<D> {
    fn restart(&mut self, level: u8, slot: u8) {
        let len = 0;
        let saved = true;
        set_shadow(&mut self.shadows, level, Shadow { slot, len, saved });
    }

    fn push<L: Ledger>(
        &mut self,
        level: u8,
        slot: u8,
        cell: &Cell,
        steps: &mut Steps<L>,
    ) -> Result<(), PushFault> {
        let packed = Packed::of_cell(self.geometry.format, cell);
        self.push_as(level, slot, &packed, Pass::keeping(cell), steps)
    }

    #[inline(always)]
    fn push_as<L: Ledger>(
        &mut self,
        level: u8,
        slot: u8,
        cell: &Packed,
        pass: Pass,
        steps: &mut Steps<L>,
    ) -> Result<(), PushFault> {
        let len = shadow_of(&self.shadows, level).len;
        if len == cells_of_slot(level) {
            return Err(PushFault::Overfull(level));
        }
        steps.tick();
        self.ticked = self.ticked.wrapping_add(1);
        if level < self.geometry.front_levels() {
            push_in_front(
                &mut self.front,
                &self.geometry,
                &mut self.shadows,
                level,
                cell,
                pass,
            );
            return Ok(());
        }
        self.tails.put(&self.geometry, level, len, cell, pass);
        lengthen_on_device(
            &mut self.buffers,
            &self.geometry,
            &mut self.shadows,
            &self.tails,
            level,
        )
    }

    fn finish(&mut self, level: u8) -> Result<(), PushFault> {
        if level < self.geometry.front_levels() {
            let shadow = shadow_of(&self.shadows, level);
            set_shadow(&mut self.shadows, level, saved(shadow));
            return Ok(());
        }
        finish_on_device(
            &mut self.buffers,
            &self.geometry,
            &mut self.shadows,
            &self.tails,
            level,
        )
    }

    fn shadow_len(&self, level: u8) -> u32 {
        let _ = &self.geometry;
        shadow_of(&self.shadows, level).len
    }

    fn weave<M: WindowMerge, L: Ledger>(
        &mut self,
        level: u8,
        own: Reach,
        incoming: Reach,
        sample: Reach,
        merge: &mut M,
        job: &M::Job,
        steps: &mut Steps<L>,
    ) -> u32
        requires level_in { level < (state_of D.bytes D.counts self.old).held.fixed.levels }
        requires can { M.can merge.old job.now (state_of D.bytes D.counts self.old).held.fixed.format }
        requires own { IsReach (state_of D.bytes D.counts self.old).held level own }
        requires incoming { IsReach (state_of D.bytes D.counts self.old).held level incoming }
        requires sample { IsReach (state_of D.bytes D.counts self.old).held level sample }
        ensures kept { kept_of D.bytes D.counts D.kept self.new ≡ kept_of D.bytes D.counts D.kept self.old }
        ensures weaves { Weaves M.wove (state_of D.bytes D.counts self.old) (state_of D.bytes D.counts self.new) level own incoming sample
            merge.old merge.new job.now steps.old steps.new result }
        ensures runs { IsOnDevice self.old.geometry level → AreAtHand self.old.geometry self.old.shadows own incoming sample →
            HaveWindows D.lends self.old.geometry self.old.buffers.lasts own incoming sample →
            RunsBelow M.wove D.lends (D.bytes self.old.buffers.cache.device) self.old.geometry self.old.front self.old.shadows self.new.shadows
            self.old.tails self.new.tails level own incoming sample merge.old merge.new job.now result }
        ensures runs_in_front { level + 2 < self.old.geometry.block_exp → AreAtHand self.old.geometry self.old.shadows own incoming sample →
            HaveWindows D.lends self.old.geometry self.old.buffers.lasts own incoming sample →
            RunsInFront M.wove D.lends (D.bytes self.old.buffers.cache.device) self.old.geometry self.old.front self.new.front
            self.old.shadows self.new.shadows level own incoming sample merge.old merge.new job.now result }
    {
        if !self.is_at_hand(own) || !self.is_at_hand(incoming) || !self.is_at_hand(sample) {
            return 0;
        }
        if level < self.geometry.front_levels() {
            return self.weave_in_front(level, own, incoming, sample, merge, job, steps);
        }
        self.weave_below(level, own, incoming, sample, merge, job, steps)
    }
}
