//! Laws of levels on an object of cells: what their aims read, as the laws of levels have it, and what stays while one of
//! them works. Each is a function that does nothing and whose contract is the law.
ghost use Rattle.cola_level.specs.Laws.{PartByPeriod, OwnIsVisible, IncomingIsAbove, KeysOfNextRun, SourcesByMarks, LevelIsBelow, SlotOfShadow, TopPartByPeriod, TopOwnIsVisible, TopIncomingIsOne, TopKeysOfNextRun, LevelsBelowStay, OtherLevelStays, VisibleRunStays};

/// The aim of a level of 1 and more is the build that the laws of levels ask for: the part, by the parity of the level's
/// period and by whether anything lies below it; its own visible run; the visible run above it; and the keys of the first
/// of its next runs. So many cells are to be consumed, and it is built in the slot of the level's shadow.
pub fn aims_follow_the_clock()
    ensures part { PartByPeriod }
    ensures own { OwnIsVisible }
    ensures incoming { IncomingIsAbove }
    ensures keys { KeysOfNextRun }
    ensures lengths { SourcesByMarks }
    ensures level { LevelIsBelow }
    ensures slot { SlotOfShadow }
{}

/// The same of level 0: what comes in is the one new item.
pub fn top_aim_follows_the_clock()
    ensures part { TopPartByPeriod }
    ensures own { TopOwnIsVisible }
    ensures incoming { TopIncomingIsOne }
    ensures keys { TopKeysOfNextRun }
{}

/// While a level's shadow grows, the runs of all other levels stay, and its own visible run, which stands in another slot.
pub fn other_runs_stay()
    ensures levels { LevelsBelowStay }
    ensures level { OtherLevelStays }
    ensures visible { VisibleRunStays }
{}
