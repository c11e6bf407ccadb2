//! Windows of bytes: what an object of cells lends a merge or a search, and what runs over them.
ghost use Rattle.std.specs.Prelude.{◌≡◌, ℕ, ◌+◌, ◌*◌, ◌≤◌, ◌<◌, List, length};
ghost use Rattle.cola_cell.specs.declared.format.Format.{Format};
ghost use Rattle.cola_cell.specs.Format.{width};
ghost use Rattle.cola_cell.specs.Windows.{Views, views_of, AreSpelled};

use crate::cell::Run;
use crate::format::Format;
use cola_outside::Steps;
use std::sync::ledger::Ledger;

/// A run as a source of a merge stands in it: the index of the next cell that it may read.
#[derive(Clone, Copy, Debug, PartialEq, Eq, Drop)]
pub struct Reach {
    pub run: Run,
    pub from: u32,
}

/// Bytes of a source from its next cell on, as far as they lie one behind the other, and whether no cell of it lies behind
/// them.
#[derive(Clone, Copy, Debug)]
pub struct Window<'a> {
    pub bytes: &'a [u8],
    pub is_last: bool,
}

/// What a pass over three windows did: how many source cells it consumed, how many cells it put into the room, and how many
/// accesses of cells that were.
#[derive(Clone, Copy, Debug, PartialEq, Eq, Drop)]
pub struct Passed {
    pub steps: u32,
    pub cells: u32,
    pub ticks: u32,
}

/// A merge that runs over windows.
pub trait WindowMerge {
    ghost use Rattle.cola_cell.specs.declared.windows.Passed.{Passed};

    /// What a pass is told beside the windows: the rules of the merge, and how many steps.
    type Job;

    /// What a pass does, by the windows and what stands in the room afterwards.
    ghost wove: { Self → Self → Self.Job → Format → Views → List ℕ → Passed → Type 0 };

    /// When it may run over cells of a format.
    ghost can: { Self → Self.Job → Format → Type 0 };

    /// Runs over three windows, and puts cells into the room, from its beginning on.
    fn pass(
        &mut self,
        job: &Self::Job,
        format: Format,
        own: Window,
        incoming: Window,
        sample: Window,
        room: &mut [u8],
    ) -> Passed
        requires can { can self.old job.now format }
        ensures size { length room.new ≡ length room.old }
        ensures fits { result.cells * width format ≤ length room.old }
        ensures spelled { AreSpelled format result.cells room.new }
        ensures wove { wove self.old self.new job.now format
            (views_of own.entry incoming.entry sample.entry) room.new result };
}

/// A search that runs over a window.
pub trait WindowSearch {
    /// What it is told beside the window: the key that it looks for.
    type Probe;

    /// What it does, by the bytes of the window; the number is how many cells it accessed.
    ghost sought: { Self → Self → Self.Probe → Format → List ℕ → ℕ → Type 0 };

    /// When it may run.
    ghost can: { Self → Type 0 };

    /// Looks for the key in a window, and says how many cells it accessed, from the first on: that one at least, where its bytes
    /// spell a cell.
    fn seek(&mut self, probe: &Self::Probe, format: Format, bytes: &[u8]) -> u32
        requires can { can self.old }
        ensures sought { sought self.old self.new probe.now format bytes.now result }
        ensures spelled { AreSpelled format result bytes.now }
        ensures first { AreSpelled format 1 bytes.now → 0 < result };
}

/// Counts so many steps: for proofs alone, so the loop does nothing.
#[inline(always)]
pub fn tick_all<L: Ledger>(steps: &mut Steps<L>, count: u32)
    ensures { steps.new ≡ steps.old + count }
{
    for _ in 0..count {
        steps.tick();
    }
}
