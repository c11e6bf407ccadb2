//! Walks over the runs of several levels at once.
ghost use Rattle.std.specs.Prelude.{◌≡◌, ℕ, ◌≤◌, length, IfOk, OnOk};
ghost use Rattle.std.specs.List.{AllByRecursion};
ghost use Rattle.cola_cell.specs.Looks.{OnlyLooks};
ghost use Rattle.cola_check.specs.Reading.{ReadsAhead};
ghost use Rattle.cola_check.specs.Leasts.{AreAwayFrom, FirstStay};
ghost use Rattle.cola_check.specs.LevelWalks.{HasLevel, runs_of, cells_in, Each, BeginsLevel, AllBegan, ReadFrom, AllReadOn};
ghost use Rattle.cola_check.specs.LevelWalks.{runs_in, LevelFits, IsLevelReady, all_unread, all_unread_begun, all_unread_after, PassesLevel};

use crate::tally::Said;
use crate::walk::Walk;
use arrayvec::ArrayVec;
use cola_cell::{CellRoom, CellSource, Key, MOST_LEVELS, ReadFault, Reader, Run};
use cola_outside::Steps;
use std::sync::ledger::Ledger;

/// The runs of a level whose live keys are counted: its visible run, and its shadow, where the window of that is over.
/// And whether the level is in an odd period.
#[derive(Clone, Copy, Debug, Default, Drop)]
pub(crate) struct LevelRuns {
    pub visible: Run,
    pub shadow: Option<Run>,
    pub odd: bool,
}

/// A walk, and what its run said of the key that was passed last.
#[derive(Drop)]
pub(crate) struct Heard {
    pub walk: Walk,
    pub said: Said,
}

/// The walks over the runs of a level.
#[derive(Drop)]
pub(crate) struct LevelWalks {
    pub visible: Heard,
    pub shadow: Heard,
    pub odd: bool,
}

/// A walk over an empty run, which passed nothing.
fn empty_walk(reader: Reader) -> Heard {
    Heard {
        walk: Walk {
            run: Run::default(),
            reader,
            at: 0,
            head: CellRoom::empty(),
        },
        said: Said::Nothing,
    }
}

impl Default for LevelWalks {
    /// Walks over empty runs.
    fn default() -> LevelWalks {
        LevelWalks {
            visible: empty_walk(Reader::Own),
            shadow: empty_walk(Reader::Incoming),
            odd: false,
        }
    }
}

impl LevelRuns {
    ghost use Rattle.std.specs.Prelude.{◌≡◌};
    ghost use Rattle.cola_check.specs.LevelWalks.{shadow_run};

    /// The shadow, and an empty run where there is none.
    fn shadow_run(&self) -> Run
        ensures { result ≡ shadow_run self.now }
    {
        match self.shadow {
            Some(run) => run,
            None => Run {
                level: self.visible.level,
                slot: self.visible.slot,
                len: 0,
            },
        }
    }
}

impl Heard {
    ghost use Rattle.std.specs.Prelude.{◌≡◌, [], ◌∷◌, OnOk};
    ghost use Rattle.cola_check.specs.Reading.{ReadsAhead};
    ghost use Rattle.cola_check.specs.Tally.{said_of};
    ghost use Rattle.cola_check.specs.Walks.{found_of, ReadsOn, WalkFits, IsReady, unread, unread_after};
    ghost use Rattle.cola_check.specs.LevelWalks.{Hears};

    /// Passes the cells at the front of its walk that have this key, and hears what the run has of it there.
    #[inline(always)]
    fn pass<W: CellSource, L: Ledger>(
        &mut self,
        work: &mut W,
        key: &Key,
        steps: &mut Steps<L>,
    ) -> Result<(), ReadFault>
        requires fits { WalkFits (W.state work.old).held self.old.walk }
        requires ready { IsReady self.old.walk }
        ensures hears { OnOk result (Hears (W.state work.old).held key.now
            self.old.walk self.new.walk self.new.said) }
        ensures reads { ReadsAhead (W.state work.old) (W.state work.new) steps.old steps.new
            (self.old.walk.run ∷ []) (unread self.old.walk) (unread_after self.new.walk result) result }
        ensures blocks { OnOk result (ReadsOn (W.state work.old) (W.state work.new)
            self.old.walk self.new.walk) }
        ensures looks { OnlyLooks W.CellSource work.old work.new result }
    {
        if !self.walk.has_key(key) {
            self.said = Said::Nothing;
            return Ok(());
        }
        self.hear(work, key, steps)
    }

    /// What the next cell says of its key.
    #[inline]
    fn front(&self) -> Said
        ensures { result ≡ said_of (found_of self.now.walk.head) }
    {
        match self.walk.head.cell() {
            Some(cell) => Said::of_cell(cell),
            None => Said::Nothing,
        }
    }

    /// Passes them where there are some. It is a call of its own, since few walks stand at a key.
    #[inline(never)]
    fn hear<W: CellSource, L: Ledger>(
        &mut self,
        work: &mut W,
        key: &Key,
        steps: &mut Steps<L>,
    ) -> Result<(), ReadFault>
        requires fits { WalkFits (W.state work.old).held self.old.walk }
        requires ready { IsReady self.old.walk }
        ensures hears { OnOk result (Hears (W.state work.old).held key.now
            self.old.walk self.new.walk self.new.said) }
        ensures reads { ReadsAhead (W.state work.old) (W.state work.new) steps.old steps.new
            (self.old.walk.run ∷ []) (unread self.old.walk) (unread_after self.new.walk result) result }
        ensures blocks { OnOk result (ReadsOn (W.state work.old) (W.state work.new)
            self.old.walk self.new.walk) }
        ensures looks { OnlyLooks W.CellSource work.old work.new result }
    {
        let mut said = Said::Nothing;
        while self.walk.has_key(key) {
            said = said.or(self.front());
            self.walk.advance();
            self.walk.fetch(work, steps)?;
        }
        self.said = said;
        Ok(())
    }
}

impl LevelWalks {
    ghost use Rattle.std.specs.Prelude.{◌≡◌, ℕ, [], ◌∷◌, IfOk, OnOk};
    ghost use Rattle.cola_check.specs.Reading.{ReadsAhead};
    ghost use Rattle.cola_check.specs.Leasts.{level_lesser, Stays, IsHushed};
    ghost use Rattle.cola_check.specs.LevelWalks.{HasLevel, runs_of, cells_in, BeginsLevel, StandsAt, LevelBegan, ReadsAt, LevelReadsOn};
    ghost use Rattle.cola_check.specs.LevelWalks.{runs_in, LevelFits, IsLevelReady, level_unread, unread_level_begun, level_unread_after, PassesLevel};

    /// The walks before the first cells of a level's runs, with these cells read. The visible run is read as a level's own,
    /// the shadow as one that comes in, so that each has a block of its own.
    fn begin<W: CellSource, L: Ledger>(
        work: &mut W,
        level: &LevelRuns,
        steps: &mut Steps<L>,
    ) -> Result<LevelWalks, ReadFault>
        requires { HasLevel (W.state work.old).held level.now }
        ensures begins { IfOk result (BeginsLevel (W.state work.old).held level.now) }
        ensures reads { ReadsAhead (W.state work.old) (W.state work.new) steps.old steps.new
            (runs_of (level.now ∷ [])) (cells_in (runs_of (level.now ∷ []))) (unread_level_begun result) result }
        ensures blocks { IfOk result (λ walks. (n : ℕ) → StandsAt n level.now →
            LevelBegan (W.state work.old) (W.state work.new) n level.now walks) }
        ensures looks { OnlyLooks W.CellSource work.old work.new result }
    {
        let shadow_run = level.shadow_run();
        let visible = Walk::begin(work, &level.visible, Reader::Own, steps)?;
        let shadow = Walk::begin(work, &shadow_run, Reader::Incoming, steps)?;
        Ok(LevelWalks {
            visible: Heard {
                walk: visible,
                said: Said::Nothing,
            },
            shadow: Heard {
                walk: shadow,
                said: Said::Nothing,
            },
            odd: level.odd,
        })
    }

    /// The least of a key and those of the next cells, where there is one of them.
    pub(crate) fn lower(&self, before: &Option<Key>) -> Option<Key>
        ensures { result ≡ level_lesser before.now self.now }
    {
        let mut least = *before;
        self.visible.walk.lower(&mut least);
        self.shadow.walk.lower(&mut least);
        least
    }

    /// Leaves its walks where they are, and hears nothing.
    #[inline(always)]
    fn stay(&mut self)
        ensures stays { Stays self.old self.new }
        ensures hushed { IsHushed self.old self.new }
    {
        self.visible.said = Said::Nothing;
        self.shadow.said = Said::Nothing;
    }

    /// Passes the cells at the fronts of its walks that have this key, and hears what the runs have of it there.
    fn pass<W: CellSource, L: Ledger>(
        &mut self,
        work: &mut W,
        key: &Key,
        steps: &mut Steps<L>,
    ) -> Result<(), ReadFault>
        requires fits { LevelFits (W.state work.old).held self.old }
        requires ready { IsLevelReady self.old }
        ensures passes { OnOk result (PassesLevel (W.state work.old).held key.now self.old self.new) }
        ensures reads { ReadsAhead (W.state work.old) (W.state work.new) steps.old steps.new
            (runs_in (self.old ∷ [])) (level_unread self.old) (level_unread_after self.new result) result }
        ensures blocks { OnOk result ((n : ℕ) → ReadsAt n self.old →
            LevelReadsOn (W.state work.old) (W.state work.new) n self.old self.new) }
        ensures looks { OnlyLooks W.CellSource work.old work.new result }
    {
        self.visible.pass(work, key, steps)?;
        self.shadow.pass(work, key, steps)
    }
}

/// The walks before the first cells of all runs of the levels, with these cells read.
pub(crate) fn begin_all<W: CellSource, L: Ledger>(
    work: &mut W,
    levels: &[LevelRuns],
    steps: &mut Steps<L>,
) -> Result<ArrayVec<LevelWalks, MOST_LEVELS>, ReadFault>
    requires runs { AllByRecursion (HasLevel (W.state work.old).held) levels.now }
    requires few { length levels.now ≤ 23 }
    ensures begins { IfOk result (λ walks.
        Each (BeginsLevel (W.state work.old).held) levels.now walks.items) }
    ensures reads { ReadsAhead (W.state work.old) (W.state work.new) steps.old steps.new
        (runs_of levels.now) (cells_in (runs_of levels.now)) (all_unread_begun result) result }
    ensures blocks { IfOk result (λ walks.
        AllBegan (W.state work.old) (W.state work.new) levels.now walks.items) }
    ensures looks { OnlyLooks W.CellSource work.old work.new result }
{
    let mut begun = ArrayVec::new();
    for i in 0..levels.len() {
        let walks = LevelWalks::begin(work, &levels[i], steps)?;
        begun.push(walks);
    }
    Ok(begun)
}

/// Passes the cells at the fronts of all walks that have this key, and hears what the runs have of it there. A walk whose
/// next cell has another key stays where it is. After a refusal the walks are not asked again.
fn pass_all<W: CellSource, L: Ledger>(
    work: &mut W,
    levels: &mut [LevelWalks],
    key: &Key,
    steps: &mut Steps<L>,
) -> Result<(), ReadFault>
    requires fit { AllByRecursion (LevelFits (W.state work.old).held) levels.old }
    requires ready { AllByRecursion IsLevelReady levels.old }
    ensures passes { OnOk result (Each (PassesLevel (W.state work.old).held key.now) levels.old levels.new) }
    ensures reads { ReadsAhead (W.state work.old) (W.state work.new) steps.old steps.new
        (runs_in levels.old) (all_unread levels.old) (all_unread_after levels.new result) result }
    ensures blocks { OnOk result ((n : ℕ) → ReadFrom n levels.old →
        AllReadOn (W.state work.old) (W.state work.new) n levels.old levels.new) }
    ensures looks { OnlyLooks W.CellSource work.old work.new result }
{
    let Some((level, below)) = levels.split_first_mut() else {
        return Ok(());
    };
    level.pass(work, key, steps)?;
    pass_all(work, below, key, steps)
}

/// The same where it is known of so many levels, the first ones, that their walks do not stand at the key: these are not
/// looked at.
pub(crate) fn pass_below<W: CellSource, L: Ledger>(
    work: &mut W,
    levels: &mut [LevelWalks],
    away: usize,
    key: &Key,
    steps: &mut Steps<L>,
) -> Result<(), ReadFault>
    requires fit { AllByRecursion (LevelFits (W.state work.old).held) levels.old }
    requires ready { AllByRecursion IsLevelReady levels.old }
    requires away { AreAwayFrom away key.now levels.old }
    ensures passes { OnOk result (Each (PassesLevel (W.state work.old).held key.now) levels.old levels.new) }
    ensures reads { ReadsAhead (W.state work.old) (W.state work.new) steps.old steps.new
        (runs_in levels.old) (all_unread levels.old) (all_unread_after levels.new result) result }
    ensures blocks { OnOk result ((n : ℕ) → ReadFrom n levels.old →
        AllReadOn (W.state work.old) (W.state work.new) n levels.old levels.new) }
    ensures stay { OnOk result (FirstStay away levels.old levels.new) }
    ensures looks { OnlyLooks W.CellSource work.old work.new result }
{
    if away == 0 {
        return pass_all(work, levels, key, steps);
    }
    let Some((level, below)) = levels.split_first_mut() else {
        return Ok(());
    };
    level.stay();
    pass_below(work, below, away - 1, key, steps)
}
