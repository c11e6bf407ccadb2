//! Laws for those who search runs, and for those who count the blocks that a reader turns to.
ghost use Rattle.cola_look.specs.Laws.{RunIsOne, SearchStopsAtPlaces, LevelZeroIsNear, SampledRunsRise, AcceptedReadTurns, AnyReadTurns, EightInABlock};

/// A run of an object is told to be one list of cells only.
pub fn run_is_one()
    ensures { RunIsOne }
{}

/// In well-formed runs, each with the sample of the next, the search stops in every run at the key's place,
/// where it begins at most 7 cells before it in the first.
pub fn search_stops_at_places<K: Ord, V>()
    ensures { SearchStopsAtPlaces V K.cmp }
{}

/// A run of level 0, whose slots have four cells, may be searched from its first cell on for any key.
pub fn level_zero_is_near()
    ensures { LevelZeroIsNear }
{}

/// Well-formed runs, each with the sample of the next, rise.
pub fn sampled_runs_rise<K: Ord, V>()
    ensures { SampledRunsRise V K.cmp }
{}

/// A reader that goes forward turns to at most one block for each group of places whose cells lie in one
/// block. Each read takes of the blocks that it may still turn to what it turns to. Its places are numbered
/// from `i` up to `end`, in groups of so many neighbours; the place of number `i` lies in `block`, the next
/// one in `next`. For a run the place is the index and a group is a block; for a sample a group has an eighth.
pub fn forward_reads_turn()
    ensures accepted { AcceptedReadTurns }
    ensures refused { AnyReadTurns }
{}

/// The cells of an aligned eight lie in one block.
pub fn eight_in_a_block()
    ensures { EightInABlock }
{}
