//! What a merge reads and builds.
ghost use Rattle.std.specs.Prelude.{◌≡◌, ◌<◌};

use cola_cell::{Cell, Reach, Run};
use cola_clock::Part;

/// A source of a merge.
#[derive(Clone, Copy, Debug, PartialEq, Eq, Drop)]
pub enum Feed {
    /// The cells of a run.
    Run(Run),
    /// Every eighth cell of a run: those at the indices 7, 15, 23 and so on.
    Sampled(Run),
    /// One cell, which no access is needed for.
    One(Cell),
    /// No cell.
    Nothing,
}

/// A run that is to be built, in a slot of a level, and what it is built of: the level's own run, the run that comes in
/// from above, and the run whose keys it samples.
#[derive(Clone, Copy, Debug, PartialEq, Eq)]
pub struct Aim {
    pub level: u8,
    pub slot: u8,
    pub own: Feed,
    pub incoming: Feed,
    pub sample: Feed,
    /// Which items of its own run are taken.
    pub part: Part,
    /// Whether incoming items are marked young. Own items are always marked old.
    pub young: bool,
    /// Whether tombstones are left out.
    pub bottom: bool,
}

/// Whether a merge has emitted its whole run.
#[derive(Clone, Copy, Debug, PartialEq, Eq, Drop)]
pub enum Progress {
    /// Each source cell was consumed.
    Done,
    /// The quota was taken, and source cells are left.
    More,
}

/// How many cells each feed of an aim has.
#[derive(Clone, Copy, Debug)]
pub(crate) struct Ends {
    pub(crate) own: u32,
    pub(crate) incoming: u32,
    pub(crate) sample: u32,
}

impl Feed {
    ghost use Rattle.cola_merge.specs.Feeds.{feed_len, place_of};

    /// How many cells it has.
    #[inline(always)]
    pub(crate) fn len(&self) -> u32
        ensures { result ≡ feed_len self.now }
    {
        match self {
            Feed::Run(run) => run.len,
            Feed::Sampled(run) => run.len / 8,
            Feed::One(_) => 1,
            Feed::Nothing => 0,
        }
    }

    /// Where it reads the cell at a cursor that is below its length; none where that needs no access.
    #[inline(always)]
    pub(crate) fn place(&self, at: u32) -> Option<Reach>
        requires { at < feed_len self.now }
        ensures { result ≡ place_of self.now at }
    {
        match self {
            Feed::Run(run) => Some(Reach {
                run: *run,
                from: at,
            }),
            Feed::Sampled(run) => {
                // it is below the length, which fits its type
                let _len = run.len;
                Some(Reach {
                    run: *run,
                    from: 8 * at + 7,
                })
            }
            Feed::One(_) | Feed::Nothing => None,
        }
    }
}

impl Aim {
    ghost use Rattle.cola_merge.specs.Ends.{ends_of};

    /// How many cells each feed has.
    #[inline(always)]
    pub(crate) fn ends(&self) -> Ends
        ensures { result ≡ ends_of self.now }
    {
        Ends {
            own: self.own.len(),
            incoming: self.incoming.len(),
            sample: self.sample.len(),
        }
    }
}
