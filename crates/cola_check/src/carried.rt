//! A walk over a finished shadow and the runs beside it, key by key.
ghost use Rattle.std.specs.Prelude.{◌+◌, ◌↔◌, [], ◌∷◌, IfOk, OnOk, IsTrue};
ghost use Rattle.cola_cell.specs.Looks.{OnlyLooks};
ghost use Rattle.cola_look.specs.Runs.{HasRun};
ghost use Rattle.cola_check.specs.Blocks.{TurnsTo};
ghost use Rattle.cola_check.specs.Reading.{ReadsRuns};
ghost use Rattle.cola_check.specs.Carrying.{AreCarried};
ghost use Rattle.cola_check.specs.Beside.{AreInOrder, three_blocks};

use crate::fitting::fits;
use crate::walk::{Found, Walk};
use cola_cell::{CellSource, Key, ReadFault, Reader, Run};
use cola_outside::Steps;
use std::sync::ledger::Ledger;

/// Where the walks over a finished shadow, the level's own run and the run above it stand.
#[derive(Drop)]
pub(crate) struct Beside {
    pub above: Walk,
    pub own: Walk,
    pub shadow: Walk,
}

/// What the three runs have of a key.
#[derive(Drop)]
pub(crate) struct Step {
    pub above: Found,
    pub own: Found,
    pub shadow: Found,
}

impl Beside {
    ghost use Rattle.std.specs.Prelude.{◌≡◌, ◌+◌, [], ◌∷◌, IfOk, OnOk, None};
    ghost use Rattle.cola_look.specs.Runs.{HasRun};
    ghost use Rattle.cola_check.specs.Reading.{ReadsAhead};
    ghost use Rattle.cola_check.specs.Walks.{least_from};
    ghost use Rattle.cola_check.specs.Beside.{BeginBeside, BesideFits, AreReady, StepsBeside, ReadApart, BesideBegan, BesideReadsOn};
    ghost use Rattle.cola_check.specs.Beside.{all_unread, unread_begun, unread_stepped, runs_of, walks_of};

    /// The walks before the first cells of their runs.
    fn begin<W: CellSource, L: Ledger>(
        work: &mut W,
        above: &Run,
        own: &Run,
        shadow: &Run,
        steps: &mut Steps<L>,
    ) -> Result<Beside, ReadFault>
        requires above { HasRun (W.state work.old).held above.now }
        requires own { HasRun (W.state work.old).held own.now }
        requires shadow { HasRun (W.state work.old).held shadow.now }
        ensures begins { IfOk result (BeginBeside (W.state work.old).held above.now own.now shadow.now) }
        ensures reads { ReadsAhead (W.state work.old) (W.state work.new) steps.old steps.new
            (above.now ∷ own.now ∷ shadow.now ∷ []) (above.now.len + own.now.len + shadow.now.len) (unread_begun result) result }
        ensures blocks { IfOk result (BesideBegan (W.state work.old) (W.state work.new)
            above.now own.now shadow.now) }
        ensures looks { OnlyLooks W.CellSource work.old work.new result }
    {
        let above = Walk::begin(work, above, Reader::Incoming, steps)?;
        let own = Walk::begin(work, own, Reader::Own, steps)?;
        let shadow = Walk::begin(work, shadow, Reader::Sample, steps)?;
        Ok(Beside { above, own, shadow })
    }

    /// The least of the next keys of the walks, if there is one.
    fn least_key(&self) -> Option<Key>
        ensures { result ≡ least_from None (walks_of self.now) }
    {
        let above = self.above.lesser(None);
        let own = self.own.lesser(above);
        match self.shadow.lesser(own) {
            Some(cell) => Some(cell.key()),
            None => None,
        }
    }

    /// Passes the cells at the fronts of the walks that have this key; what the runs have of it there.
    fn pass<W: CellSource, L: Ledger>(
        &mut self,
        work: &mut W,
        key: &Key,
        steps: &mut Steps<L>,
    ) -> Result<Step, ReadFault>
        requires fit { BesideFits (W.state work.old).held self.old }
        requires ready { AreReady self.old }
        ensures passes { IfOk result (StepsBeside (W.state work.old).held key.now self.old self.new) }
        ensures reads { ReadsAhead (W.state work.old) (W.state work.new) steps.old steps.new
            (runs_of self.old) (all_unread self.old) (unread_stepped self.new result) result }
        ensures blocks { OnOk result (ReadApart self.old →
            BesideReadsOn (W.state work.old) (W.state work.new) self.old self.new) }
        ensures looks { OnlyLooks W.CellSource work.old work.new result }
    {
        let above = self.above.pass(work, key, steps)?;
        let own = self.own.pass(work, key, steps)?;
        let shadow = self.shadow.pass(work, key, steps)?;
        Ok(Step { above, own, shadow })
    }
}

/// Whether a finished shadow fits the run above its level and the level's own run at each key: it has what it carries, and
/// above the bottom in an even period it keeps what its own run has. It reads each cell at most once, in at most a tick.
pub(crate) fn is_carried<W: CellSource, L: Ledger>(
    work: &mut W,
    above: &Run,
    own: &Run,
    shadow: &Run,
    odd: bool,
    bottom: bool,
    steps: &mut Steps<L>,
) -> Result<bool, ReadFault>
    requires above { HasRun (W.state work.old).held above.now }
    requires own { HasRun (W.state work.old).held own.now }
    requires shadow { HasRun (W.state work.old).held shadow.now }
    ensures carried { IfOk result (λ carried.
        AreInOrder (W.state work.old).held above.now own.now shadow.now →
        IsTrue carried ↔ AreCarried (W.state work.old).held odd bottom above.now own.now shadow.now) }
    ensures blocks { OnOk result (TurnsTo (W.state work.old) (W.state work.new)
        (three_blocks (W.state work.old).held above.now own.now shadow.now)) }
    ensures reads { ReadsRuns (W.state work.old) (W.state work.new) steps.old steps.new
        (above.now ∷ own.now ∷ shadow.now ∷ []) (above.now.len + own.now.len + shadow.now.len) result }
    ensures looks { OnlyLooks W.CellSource work.old work.new result }
{
    let mut walks = Beside::begin(work, above, own, shadow, steps)?;
    while let Some(key) = walks.least_key() {
        let step = walks.pass(work, &key, steps)?;
        if !fits(odd, bottom, &step.above, &step.own, &step.shadow) {
            return Ok(false);
        }
    }
    Ok(true)
}
