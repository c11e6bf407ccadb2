//! Objects of cells that runs are built in.
ghost use Rattle.std.specs.Prelude.{◌≡◌, ◌+◌, ◌≤◌, ◌<◌};
ghost use Rattle.cola_cell.specs.Format.{CellFits};
ghost use Rattle.cola_cell.specs.Packed.{passed, MayPass};
ghost use Rattle.cola_cell.specs.Places.{slot_size};
ghost use Rattle.cola_cell.specs.Shadows.{Restarts, Pushes, PushSpends, push_ticks, Finishes, FinishSpends};
ghost use Rattle.cola_cell.specs.Windows.{IsReach, Weaves};

use crate::cell::Cell;
use crate::fault::PushFault;
use crate::packed::{Packed, Pass};
use crate::source::CellSource;
use crate::windows::{Reach, WindowMerge};
use cola_outside::Steps;
use std::sync::ledger::Ledger;

/// How the shadow of a level stands: its slot, its length in cells, and whether each of its cells is on the
/// device.
#[derive(Clone, Copy, Debug, PartialEq, Eq, Drop)]
pub struct Shadow {
    pub slot: u8,
    pub len: u32,
    pub saved: bool,
}

/// An object of cells in which each level has a shadow: the run that is being built in one of its slots.
/// What is pushed is read again, and a push changes no other cell of any run.
pub trait CellSink: CellSource {
    /// Empties the level's shadow and places it in this slot. The cells of the shadow that it gives up stay
    /// where they are all on the device, or where a slot of the level is smaller than a block.
    fn restart(&mut self, level: u8, slot: u8)
        requires level_in { level < (Self.state self.old).held.fixed.levels }
        requires slot_in { slot < 2 }
        ensures kept { Self.kept self.new ≡ Self.kept self.old }
        ensures restarts { Restarts (Self.state self.old).held
            (Self.state self.new).held level slot }
        ensures spends_nothing { (Self.state self.new).spent ≡ (Self.state self.old).spent };

    /// Appends a cell to the level's shadow, which stands in this slot. It is refused as overfull exactly
    /// where the shadow fills its slot, before any tick; and where the device failed, which leaves the
    /// shadow's cells as they were.
    fn push<L: Ledger>(
        &mut self,
        level: u8,
        slot: u8,
        cell: &Cell,
        steps: &mut Steps<L>,
    ) -> Result<(), PushFault>
        requires level_in { level < (Self.state self.old).held.fixed.levels }
        requires in_slot { slot ≡ ((Self.state self.old).held.shadows level).slot }
        requires fits { CellFits (Self.state self.old).held.fixed.format cell.now }
        ensures kept { Self.kept self.new ≡ Self.kept self.old }
        ensures ticks { steps.new ≡ steps.old + push_ticks result }
        ensures pushes { Pushes (Self.state self.old) (Self.state self.new) level cell.now result }
        ensures spends { PushSpends (Self.state self.old) (Self.state self.new) level result };

    /// As `push`, of what becomes of a packed cell. An object whose cells are bytes is faster with a body of
    /// its own.
    fn push_as<L: Ledger>(
        &mut self,
        level: u8,
        slot: u8,
        cell: &Packed,
        pass: Pass,
        steps: &mut Steps<L>,
    ) -> Result<(), PushFault>
        requires level_in { level < (Self.state self.old).held.fixed.levels }
        requires in_slot { slot ≡ ((Self.state self.old).held.shadows level).slot }
        requires may { MayPass pass cell.now }
        requires fits { CellFits (Self.state self.old).held.fixed.format cell.now }
        ensures kept { Self.kept self.new ≡ Self.kept self.old }
        ensures ticks { steps.new ≡ steps.old + push_ticks result }
        ensures pushes { Pushes (Self.state self.old) (Self.state self.new) level
            (passed pass cell.now) result }
        ensures spends { PushSpends (Self.state self.old) (Self.state self.new) level result }
    {
        self.push(level, slot, &cell.cell_as(pass), steps)
    }

    /// Writes to the device what is not yet there of the level's shadow. It is refused only where the device
    /// failed, and changes no cell of the shadow.
    fn finish(&mut self, level: u8) -> Result<(), PushFault>
        requires { level < (Self.state self.old).held.fixed.levels }
        ensures kept { Self.kept self.new ≡ Self.kept self.old }
        ensures finishes { Finishes (Self.state self.old) (Self.state self.new) level result }
        ensures spends { FinishSpends (Self.state self.old) (Self.state self.new) level };

    /// The length of the level's shadow, in cells.
    fn shadow_len(&self, level: u8) -> u32
        requires { level < (Self.state self.now).held.fixed.levels }
        ensures value { result ≡ ((Self.state self.now).held.shadows level).len }
        ensures within { result ≤ slot_size level }
        ensures slot { ((Self.state self.now).held.shadows level).slot < 2 };

    /// Lets a merge run over the bytes of its sources, where the object has them at hand, into the end of the level's
    /// shadow, and says how many source cells that consumed: none where it lets it run over nothing, as one does that has
    /// no bytes at hand. It asks no device for anything and fills no block. In sum it ticks as single steps would, but a
    /// tick may come a call earlier: at its end the next cell of a source is read where it lies.
    fn weave<M: WindowMerge, L: Ledger>(
        &mut self,
        level: u8,
        own: Reach,
        incoming: Reach,
        sample: Reach,
        merge: &mut M,
        job: &M::Job,
        steps: &mut Steps<L>,
    ) -> u32
        requires level_in { level < (Self.state self.old).held.fixed.levels }
        requires can { M.can merge.old job.now (Self.state self.old).held.fixed.format }
        requires own { IsReach (Self.state self.old).held level own }
        requires incoming { IsReach (Self.state self.old).held level incoming }
        requires sample { IsReach (Self.state self.old).held level sample }
        ensures kept { Self.kept self.new ≡ Self.kept self.old }
        ensures weaves { Weaves M.wove (Self.state self.old) (Self.state self.new)
            level own incoming sample merge.old merge.new job.now steps.old steps.new result }
    {
        0
    }
}
