//! The aim at the bottom.
ghost use Rattle.std.specs.Prelude.{◌≡◌};
ghost use Rattle.cola_runs.specs.Weave.{bottom_items};
ghost use Rattle.cola_merge.specs.Feeds.{part_of};
ghost use Rattle.cola_bottom.specs.Bottom.{bottom_of};

use cola_cell::Run;
use cola_clock::Part;
use cola_merge::{Aim, Feed};

/// The bottom's next run in a slot of its level, built of its own run and of the run that comes in from above.
#[inline(always)]
pub fn bottom_aim(own: Run, incoming: Run, slot: u8) -> Aim
    ensures aim { result ≡ bottom_of own incoming slot }
    ensures part { part_of result ≡ bottom_items }
{
    Aim {
        level: own.level,
        slot,
        own: Feed::Run(own),
        incoming: Feed::Run(incoming),
        sample: Feed::Nothing,
        part: Part::All,
        young: false,
        bottom: true,
    }
}
