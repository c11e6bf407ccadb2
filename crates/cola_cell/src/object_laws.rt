//! Laws of every object of cells, over what each call says.
//!
//! They speak of the cells that an object holds before and after a call. A run of the object is a list of
//! cells where each of its places is told to have that cell.
ghost use Rattle.std.specs.Prelude.{ℕ};
ghost use Rattle.cola_cell.specs.Held.{Held, IsTelling};
ghost use Rattle.cola_cell.specs.Spent.{Spent};
ghost use Rattle.cola_cell.specs.Shadows.{StaysAround};
ghost use Rattle.cola_cell.specs.Costs.{Costs};
ghost use Rattle.cola_cell.specs.ObjectLaws.{PushedCellIsRead, PushKeepsRuns, PushAddsACell, RestartKeepsRuns, FinishKeepsRuns, RunGivesItsCells, RunIsGood, ReadCostsOne, RefusedReadHasCause, CauseOfLaterIsCause, CostsAdd, NumbersDiffer, NumbersLieBelow};

/// What was pushed is read again: a later read of the place at which the shadow ended, while the cells stay,
/// gives the cell that was pushed. This needs that the object tells that place.
pub fn pushed_cell_is_read()
    ensures { PushedCellIsRead }
{}

/// A push, accepted or not, changes no cell of a run that does not reach behind the shadow's end; so it
/// changes none of any other slot, and none that the shadow had.
pub fn push_keeps_runs()
    ensures { PushKeepsRuns }
{}

/// An accepted push makes the shadow's run one cell longer, by the cell that was pushed.
pub fn push_adds_a_cell()
    ensures { PushAddsACell }
{}

/// A restart changes no cell of a run in another slot than that of the shadow which it gives up, and none at
/// all where each cell of that shadow is on the device or its level's slots are smaller than a block.
pub fn restart_keeps_runs()
    ensures { RestartKeepsRuns }
{}

/// A finish, accepted or not, changes no cell of a run that does not reach behind the shadow's end.
pub fn finish_keeps_runs()
    ensures { FinishKeepsRuns }
{}

/// A read within a run gives the cell of its list, and never answers that the bytes spell none.
pub fn run_is_read()
    ensures cell { RunGivesItsCells }
    ensures good { RunIsGood }
{}

/// An object that tells every place tells every place after each call.
pub fn telling_stays()
    ensures { (old new : Held) (level : ℕ) → StaysAround old new level → IsTelling old →
        IsTelling new }
{}

/// What calls that only read spend adds up, and the cause of a refused one is a cause of them all.
pub fn costs_add_up()
    ensures none { (spent : Spent) (steps : ℕ) → Costs spent spent steps steps 0 0 }
    ensures read { ReadCostsOne }
    ensures refused { RefusedReadHasCause }
    ensures later { CauseOfLaterIsCause }
    ensures both { CostsAdd }
{}

/// Cells at different places have different numbers, and those of an object with so many levels lie below
/// the number at which the next level would begin.
pub fn places_have_numbers()
    ensures differ { NumbersDiffer }
    ensures within { NumbersLieBelow }
{}
