//! Laws of feeds and of merges that begin.
//!
//! The cells of a run, of a feed and of a shadow are lists of exact lengths, also where an object tells none of them.
ghost use Rattle.std.specs.Prelude.{◌≡◌};
ghost use Rattle.cola_cell.specs.Held.{Held};
ghost use Rattle.cola_merge.specs.declared.aims.Aim.{Aim};
ghost use Rattle.cola_merge.specs.declared.merging.Merger.{Merger};
ghost use Rattle.cola_merge.specs.Heads.{fresh, HasHeads, IsReady};
ghost use Rattle.cola_merge.specs.Advance.{whole_run};
ghost use Rattle.cola_merge.specs.Pulls.{ahead};
ghost use Rattle.cola_merge.specs.Laws.{SampledFeedHasSample, FreshMergeHasNotBegun, GrowingKeepsRuns, CutLeavesTheRestAhead, FetchesWithinFeeds};

/// The keys of a sampled feed are the sample of its run.
pub fn sampled_feed_has_sample()
    ensures { SampledFeedHasSample }
{}

/// The build of a merge that has not begun, over an empty shadow, has not begun.
pub fn fresh_merge_has_not_begun()
    ensures { FreshMergeHasNotBegun }
{}

/// While the shadow of a level grows, each run stays that does not reach behind the shadow's end in its slot: so each run
/// of any other slot.
pub fn growing_keeps_runs()
    ensures { GrowingKeepsRuns }
{}

/// A merge that has not begun has its whole run ahead.
pub fn fresh_merge_has_all_ahead()
    ensures { (held : Held) (aim : Aim) → ahead held aim fresh ≡ whole_run held aim }
{}

/// Where the sources are in order, cells that were emitted are a cut of the whole run at the cursors exactly where they,
/// followed by what is ahead, are the whole run: the links ahead count from the cursor of the sample, and a run has as many
/// lookahead cells before a cut as keys of the sample were consumed.
pub fn cut_leaves_the_rest_ahead()
    ensures { CutLeavesTheRestAhead }
{}

/// A merge that may advance may be pulled, and of its feeds no more cells were read than they have.
pub fn heads_are_read()
    ensures ready { (held : Held) (aim : Aim) (m : Merger) → IsReady held aim m → HasHeads held aim m }
    ensures fetched { FetchesWithinFeeds }
{}
