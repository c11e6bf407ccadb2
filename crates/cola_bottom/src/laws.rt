//! Laws of merges at the bottom.
ghost use Rattle.cola_bottom.specs.Laws.{EmitsValues, AnswersOfBothRuns, EmitsWholeRun, WholeRunIsWoven};

/// A merge at the bottom emits exactly the values of its two runs, the incoming ones first, in whatever quotas it was
/// called and over whatever refusals: what is said of a merge on its way holds after each call.
///
/// What it has emitted is old values with link 0 and nothing else. Once it is done, each key has the item of the
/// incoming run over the own run, and a tombstone leaves nothing; and the cells are those that the two runs weave.
pub fn bottom_merge_emits_values()
    ensures values { EmitsValues }
    ensures answers { AnswersOfBothRuns }
    ensures whole { EmitsWholeRun }
    ensures run { WholeRunIsWoven }
{}
