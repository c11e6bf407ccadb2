//! Laws of levels on an object: how they begin, when they stand for a map, and what a refusal says. Each function does
//! nothing: its clauses are the law.
ghost use Rattle.std.specs.Prelude.{◌≡◌, List};
ghost use Rattle.cola_clock.specs.Marks.{Marks};
ghost use Rattle.cola_level.specs.Marks.{all_marks_of};
ghost use Rattle.cola_mutation.specs.Levels.{levels_with};
ghost use Rattle.cola_mutation.specs.Laws.{NewLevelsAreChain, RunsStandForMaps, LevelsStandForMaps, VisibleRunsAreSampled, VisibleRunsAnswer, MapIsFew, DeviceRose, CellIsBad, LevelIsFull, TopIsOverfull};

/// Levels that are read back from marks that they may have, on an object whose shadows are as the marks say, are a chain
/// with these marks.
pub fn new_levels_are_a_chain()
    ensures chain { NewLevelsAreChain }
    ensures marks { (marks : List Marks) → all_marks_of (levels_with marks) ≡ marks }
{}

/// Levels on an object stand for a finite map where their runs do, and each shadow whose window is over is on the device.
pub fn levels_stand_for_maps()
    ensures runs { RunsStandForMaps }
    ensures levels { LevelsStandForMaps }
{}

/// The visible runs of levels that stand for a map are in the state that a search by links wants, and have for each key what
/// the map has; and the map has at most as many keys as the store is for.
pub fn standing_levels_answer()
    ensures sampled { VisibleRunsAreSampled }
    ensures answers { VisibleRunsAnswer }
    ensures few { MapIsFew }
{}

/// What a refusal says: the device's count of faults rose; the bytes of the cell of this number spell none; this level of 1
/// and more is one of the chain, works at the clock, and its shadow fills its slot; level 0's new run has more source cells
/// than its slot has places.
pub fn refusals_have_causes()
    ensures device { DeviceRose }
    ensures bad_cell { CellIsBad }
    ensures overfull { LevelIsFull }
    ensures overfull_top { TopIsOverfull }
{}
