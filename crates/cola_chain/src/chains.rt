//! The chain of a store.
ghost use Rattle.std.specs.Prelude.{◌≡◌, ◌≤◌, All, true, false, IfSome};
ghost use Rattle.cola_cell.specs.Format.{KeyFits, ItemFits};
ghost use Rattle.cola_layout.specs.Marks.{all_numbers};
ghost use Rattle.cola_look.specs.Runs.{HasRun};
ghost use Rattle.cola_level.specs.Marks.{all_marks_of};
ghost use Rattle.cola_run.specs.Store as run;
ghost use Rattle.cola_run.specs.Saving.{IsLoaded};
ghost use Rattle.cola_chain.specs.Account.{IsPaid, IsContents, IsBounded};
ghost use Rattle.cola_chain.specs.Contents.{held_of};
ghost use Rattle.cola_chain.specs.Files.{StandsForFile, FileStandsFor};
ghost use Rattle.cola_chain.specs.Steps.{Steps as ChainSteps};
ghost use Rattle.cola_chain.specs.Runs.{visible_runs, AreSearchedRuns};

use crate::counting::{add, rise};
use crate::lists::{levels_of, marks_of_levels, runs_of};
use crate::room::Room;
use arrayvec::ArrayVec;
use cola_cell::{Item, Key, MOST_LEVELS, Run, StepFault};
use cola_device::Device;
use cola_layout::Header;
use cola_level::Level;
use cola_outside::Steps;
use cola_run::RunStore;
use std::marker::Model;
use std::sync::ledger::Ledger;

/// The chain of a store over the device `D`: the cells of its runs, its levels and its clock. Contracts see it as its
/// contents.
///
/// It counts the steps that it accepts, and what the device reads and writes in these, as long as none is refused and no
/// reader's block is moved from outside.
#[derive(Drop)]
pub struct Chain<D: Device> {
    pub(crate) runs: RunStore<D>,
    pub(crate) levels: Box<ArrayVec<Level, MOST_LEVELS>>,
    pub(crate) clock: u64,
    pub(crate) accepted: u64,
    pub(crate) reads: u64,
    pub(crate) writes: u64,
    pub(crate) counted: bool,
}

impl<D: Device> Model for Chain<D> {
    ghost use Rattle.cola_chain.specs.Contents.{Contents};
    ghost use Rattle.cola_chain.specs.Account.{IsContents};

    ghost Value = { Contents D };

    ghost view = { λ c. record {
      store = c.runs;
      levels = c.levels.value.items;
      clock = c.clock;
      accepted = c.accepted;
      reads = c.reads;
      writes = c.writes;
      counted = c.counted;
    } };

    ghost invariant = { λ c. IsContents D.bytes D.counts (record {
      store = c.runs;
      levels = c.levels.value.items;
      clock = c.clock;
      accepted = c.accepted;
      reads = c.reads;
      writes = c.writes;
      counted = c.counted;
    }) };
}

impl<D: Device> Chain<D> {
    /// The chain of a store that was loaded by this header: its levels have the header's marks, at the header's clock, and
    /// stand in the room. It has counted nothing yet.
    pub fn new(runs: RunStore<D>, room: Room, header: &Header) -> Chain<D>
        requires geometry { runs.geometry ≡ header.now.geometry }
        requires loaded { IsLoaded header.now (run.held_of D.bytes runs) (D.bytes (run.device_of runs)) }
        ensures store { result.store ≡ runs }
        ensures clock { result.clock ≡ header.now.clock }
        ensures marks { all_marks_of result.levels ≡ all_numbers header.now.levels.items }
        ensures numbers { (result.accepted ≡ 0) × (result.reads ≡ 0) × (result.writes ≡ 0) }
        ensures counted { result.counted ≡ true }
        // its account is paid at once, whatever its merges have still to do
        ensures paid { IsPaid D.bytes D.counts result }
        // and what it means, where the device tells its bytes
        ensures stands { IfSome (D.bytes (run.device_of runs)) (StandsForFile D.bytes result header.now) }
    {
        Chain {
            runs,
            levels: room.with(levels_of(header.levels.as_slice())),
            clock: header.clock,
            accepted: 0,
            reads: 0,
            writes: 0,
            counted: true,
        }
    }

    /// The visible runs, from level 0 on, as a search and a cursor take them.
    pub fn visible(&self) -> ArrayVec<Run, MOST_LEVELS>
        ensures sound { IsContents D.bytes D.counts self.now }
        ensures runs { result.items ≡ visible_runs self.now.clock 0 self.now.levels }
        ensures has { All (HasRun (held_of D.bytes self.now)) result.items }
        ensures searched { AreSearchedRuns D.bytes self.now result.items }
    {
        runs_of(self.levels.as_slice(), self.clock)
    }

    /// One step: one mutation without its search. The key gets the item, which is a value or a tombstone; the caller looks
    /// first whether the key may be put.
    ///
    /// It is refused where the device failed, where a cell that a merge reads next is bad, and as overfull where a level's
    /// next run fills its slot and a step would emit another cell. A refusal leaves every visible run and the clock, and
    /// keeps what the merges have done. The same step may be asked for again. After a refusal the chain's steps are not
    /// counted any more.
    ///
    /// It makes at most 9 ticks, and 59 for each level of 1 and more that works; these are at most half as many as there
    /// are levels.
    pub fn step<L: Ledger>(
        &mut self,
        key: &Key,
        item: &Item,
        steps: &mut Steps<L>,
    ) -> Result<(), StepFault>
        requires key_fits { KeyFits (held_of D.bytes self.old).fixed.format key.now }
        requires item_fits { ItemFits (held_of D.bytes self.old).fixed.format item.now }
        ensures kept { run.kept_of D.bytes D.counts D.kept self.new.store ≡
            run.kept_of D.bytes D.counts D.kept self.old.store }
        ensures steps { ChainSteps D.Device self.old self.new steps.old steps.new key.now item.now result }
    {
        let before = self.runs.transfers();
        match cola_mutation::step(
            &mut self.runs,
            self.levels.as_mut_slice(),
            self.clock,
            key,
            item,
            steps,
        ) {
            Ok(next) => {
                let after = self.runs.transfers();
                self.clock = next;
                self.accepted = add(self.accepted, 1);
                self.reads = add(self.reads, rise(before.0, after.0));
                self.writes = add(self.writes, rise(before.1, after.1));
                Ok(())
            }
            Err(fault) => {
                self.counted = false;
                Err(fault)
            }
        }
    }

    /// The header of the chain as it stands, with so many keys, and closed or not. Its last number is 0: the caller knows
    /// that.
    pub fn header(&self, count: u64, closed: bool) -> Header
        requires { count ≤ self.now.store.geometry.keys }
        ensures geometry { result.geometry ≡ self.now.store.geometry }
        ensures closed { result.closed ≡ closed }
        ensures count { result.count ≡ count }
        ensures clock { result.clock ≡ self.now.clock }
        ensures last { result.last ≡ 0 }
        ensures marks { all_numbers result.levels.items ≡ all_marks_of self.now.levels }
        ensures stands { FileStandsFor D.bytes self.now result }
    {
        let levels = marks_of_levels(self.levels.as_slice());
        Header {
            geometry: *self.runs.geometry(),
            closed,
            count,
            clock: self.clock,
            last: 0,
            levels,
        }
    }

    /// How many steps were accepted, up to the last value of `u64`.
    pub fn accepted(&self) -> u64
        ensures { result ≡ self.now.accepted }
    {
        self.accepted
    }

    /// The reads and the writes of the device in the steps that were accepted. As long as these are counted, and no number
    /// stands at the last value of `u64`, they are within the bounds of so many steps.
    pub fn transfers(&self) -> (u64, u64)
        ensures reads { result.0 ≡ self.now.reads }
        ensures writes { result.1 ≡ self.now.writes }
        ensures sound { IsContents D.bytes D.counts self.now }
        ensures bounds { IsPaid D.bytes D.counts self.now → IsBounded self.now }
    {
        (self.reads, self.writes)
    }

    /// The cells of its runs.
    pub fn runs(&self) -> &RunStore<D>
        ensures { result.now ≡ self.now.store }
    {
        &self.runs
    }

    /// The cells of its runs, as they stand.
    pub fn into_runs(self) -> RunStore<D>
        ensures { result ≡ self.store }
    {
        let Chain { runs, .. } = self;
        runs
    }
}
